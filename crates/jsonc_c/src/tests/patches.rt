//! Pointers and patches.

use super::{ALL, TEXT, is_written};
use crate::fault::{JsoncFault, no_fault};
use crate::into::{jsonc_apply_patch_into, jsonc_find_into, jsonc_merge_patch_into};
use crate::patches::{jsonc_apply_patch, jsonc_find, jsonc_merge_patch};
use std::test::Fail;

/// The fault has this printed text.
fn is_told(fault: &JsoncFault, text: &[u8]) -> bool {
    fault.text.as_slice().get(0..fault.text_len) == Some(text)
}

#[test]
fn finds(rt: HostRuntime) -> Result<(), Fail> {
    let alloc = rt.alloc();
    let mut fault = no_fault();
    let mut out: &'static [u8] = &[];
    assert_eq!(rt;
        jsonc_find(alloc, TEXT, b"/a/0", ALL, &mut out, &mut fault),
        0
    );
    assert_eq!(rt; out, b"2".as_slice());
    assert_eq!(rt;
        jsonc_find(alloc, b" [1] ", b"", ALL, &mut out, &mut fault),
        0
    );
    assert_eq!(rt; out, b"[1]".as_slice());
    assert_eq!(rt;
        jsonc_find(alloc, TEXT, b"/a/1", ALL, &mut out, &mut fault),
        20
    );
    assert_eq!(rt; out, b"".as_slice());
    assert_eq!(rt; fault.text_len, 0);
    assert_eq!(rt;
        jsonc_find(alloc, TEXT, b"a", ALL, &mut out, &mut fault),
        19
    );
    assert_eq!(rt; fault.kind, 201);
    assert_eq!(rt;
        jsonc_find(alloc, TEXT, b"/a~2", ALL, &mut out, &mut fault),
        19
    );
    assert_eq!(rt; fault.kind, 202);
    assert_eq!(rt; fault.start, 2);
    assert!(rt; is_told(&fault, b"Neither 0 nor 1 after the tilde at byte 2"));
    assert_eq!(rt;
        jsonc_find(alloc, TEXT, b"/\xff", ALL, &mut out, &mut fault),
        2
    );
    assert_eq!(rt;
        jsonc_find(alloc, b"[1,]", b"/0", 0, &mut out, &mut fault),
        4
    );
    assert_eq!(rt; jsonc_find(alloc, b"\xff", b"", 0, &mut out, &mut fault), 3);
    assert_eq!(rt; fault.kind, 0);
    Ok(())
}

#[test]
fn finds_no_name_that_stands_twice(rt: HostRuntime) -> Result<(), Fail> {
    let mut fault = no_fault();
    let mut out: &'static [u8] = &[];
    let text = b"{\"a\": 1, \"a\": 2, \"b\": 3}";
    assert_eq!(rt;
        jsonc_find(rt.alloc(), text, b"/a", ALL, &mut out, &mut fault),
        21
    );
    assert!(rt; is_told(&fault, b"Name stands twice: a"));
    assert_eq!(rt;
        jsonc_find(rt.alloc(), text, b"/b", ALL, &mut out, &mut fault),
        0
    );
    assert_eq!(rt; out, b"3".as_slice());
    assert_eq!(rt; fault.text_len, 0);
    Ok(())
}

/// What a patch answers of a text.
fn patched(
    rt: HostRuntime,
    text: &[u8],
    patch: &[u8],
    fault: &mut JsoncFault,
) -> (u32, &'static [u8]) {
    let mut out: &'static [u8] = &[];
    let status = jsonc_apply_patch(rt.alloc(), text, patch, ALL, &mut out, fault);
    (status, out)
}

#[test]
fn patches(rt: HostRuntime) -> Result<(), Fail> {
    let mut fault = no_fault();
    // (RFC 6902, A.5 and A.4)
    let two = b"{ \"baz\": \"qux\", \"foo\": [\"bar\", \"qux\", \"baz\"] } // c";
    let patch =
        b"[{ \"op\": \"replace\", \"path\": \"/baz\", \"value\": \"boo\" }, { \"op\": \"remove\", \"path\": \"/foo/1\" }]";
    let (status, out) = patched(rt, two, patch, &mut fault);
    assert_eq!(rt; status, 0);
    assert_eq!(rt;
        out,
        b"{ \"baz\": \"boo\", \"foo\": [\"bar\", \"baz\"] } // c".as_slice()
    );
    // (A.9)
    let test = b"[{ \"op\": \"test\", \"path\": \"/baz\", \"value\": \"bar\" }]";
    let (status, out) = patched(rt, two, test, &mut fault);
    assert_eq!(rt; status, 24);
    assert_eq!(rt; out, b"".as_slice());
    assert!(rt; is_told(&fault, b"Operation 0: Value is another"));
    Ok(())
}

#[test]
fn stops_patches(rt: HostRuntime) -> Result<(), Fail> {
    let mut fault = no_fault();
    let foo = b"{ \"foo\": { \"a\": 1 } }";
    // (A.12, behind a test of A.8)
    let add =
        b"[{ \"op\": \"test\", \"path\": \"/foo/a\", \"value\": 1 }, { \"op\": \"add\", \"path\": \"/baz/bat\", \"value\": \"qux\" }]";
    assert_eq!(rt; patched(rt, foo, add, &mut fault).0, 20);
    assert_eq!(rt; fault.made, 1);
    // (4.4)
    let within = b"[{ \"op\": \"move\", \"from\": \"/foo\", \"path\": \"/foo/a\" }]";
    assert_eq!(rt; patched(rt, foo, within, &mut fault).0, 23);
    let twice = b"[{ \"op\": \"remove\", \"path\": \"/a\" }]";
    assert_eq!(rt; patched(rt, b"{\"a\":1,\"a\":2}", twice, &mut fault).0, 21);
    assert!(rt; is_told(&fault, b"Operation 0: Name stands twice: \"a\""));
    Ok(())
}

#[test]
fn reads_no_patch(rt: HostRuntime) -> Result<(), Fail> {
    let mut fault = no_fault();
    assert_eq!(rt; patched(rt, b"1", b"{}", &mut fault).0, 22);
    assert_eq!(rt; fault.kind, 301);
    // (A.13)
    let twice =
        b"[{ \"op\": \"add\", \"path\": \"/baz\", \"value\": \"qux\", \"op\": \"remove\" }]";
    assert_eq!(rt; patched(rt, b"{}", twice, &mut fault).0, 22);
    assert_eq!(rt; fault.kind, 305);
    assert_eq!(rt;
        patched(
            rt,
            b"{}",
            b"[{ \"op\": \"remove\", \"path\": \"a\" }]",
            &mut fault
        )
        .0,
        22
    );
    assert_eq!(rt; fault.kind, 201);
    assert_eq!(rt; patched(rt, b"{}", b"[", &mut fault).0, 7);
    assert_eq!(rt; fault.kind, 24);
    assert_eq!(rt; patched(rt, b"{}", b"\xff", &mut fault).0, 2);
    assert_eq!(rt; patched(rt, b"\xff", b"[]", &mut fault).0, 3);
    assert_eq!(rt; patched(rt, b"{", b"[]", &mut fault).0, 4);
    Ok(())
}

/// What a merge patch answers of a text.
fn merged(
    rt: HostRuntime,
    text: &[u8],
    patch: &[u8],
    fault: &mut JsoncFault,
) -> (u32, &'static [u8]) {
    let mut out: &'static [u8] = &[];
    let status = jsonc_merge_patch(rt.alloc(), text, patch, ALL, &mut out, fault);
    (status, out)
}

#[test]
fn merges(rt: HostRuntime) -> Result<(), Fail> {
    let mut fault = no_fault();
    // (RFC 7396, appendix A)
    let (status, out) = merged(rt, b"{\"a\":[\"b\"]} // c", b"{\"a\":\"c\"}", &mut fault);
    assert_eq!(rt; status, 0);
    assert_eq!(rt; out, b"{\"a\":\"c\"} // c".as_slice());
    assert_eq!(rt;
        merged(rt, b"{\"a\":\"foo\"}", b"\"bar\"", &mut fault).1,
        b"\"bar\"".as_slice()
    );
    assert_eq!(rt; merged(rt, b"{}", b"{\"a\":1,\"a\":2}", &mut fault).0, 21);
    assert!(rt; is_told(&fault, b"Name stands twice: a"));
    assert_eq!(rt;
        merged(rt, b"{\"a\":1,\"a\":2}", b"{\"a\":3}", &mut fault).0,
        21
    );
    assert!(rt; is_told(&fault, b"Name stands twice: a"));
    assert_eq!(rt; merged(rt, b"{}", b" ", &mut fault).0, 8);
    assert_eq!(rt; merged(rt, b"{}", b"{", &mut fault).0, 7);
    assert_eq!(rt; merged(rt, b"{}", b"\xff", &mut fault).0, 2);
    assert_eq!(rt; merged(rt, b"\xff", b"1", &mut fault).0, 3);
    assert_eq!(rt; merged(rt, b"{", b"1", &mut fault).0, 4);
    Ok(())
}

#[test]
fn patches_into_buffers(rt: HostRuntime) -> Result<(), Fail> {
    let alloc = rt.alloc();
    let mut fault = no_fault();
    let mut room = [0u8; 8];
    let mut len = 0usize;
    assert_eq!(rt;
        jsonc_find_into(
            alloc,
            b"{\"a\":1}",
            b"/a",
            ALL,
            room.as_mut_slice(),
            &mut len,
            &mut fault
        ),
        0
    );
    assert!(rt; is_written(room.as_slice(), len, b"1"));
    assert_eq!(rt;
        jsonc_apply_patch_into(
            alloc,
            b"{\"a\":1}",
            b"[{\"op\":\"replace\",\"path\":\"/a\",\"value\":2}]",
            ALL,
            room.as_mut_slice(),
            &mut len,
            &mut fault
        ),
        0
    );
    assert!(rt; is_written(room.as_slice(), len, b"{\"a\":2}"));
    assert_eq!(rt;
        jsonc_merge_patch_into(
            alloc,
            b"{\"a\":1}",
            b"{\"a\":1000}",
            ALL,
            room.as_mut_slice(),
            &mut len,
            &mut fault
        ),
        17
    );
    assert_eq!(rt; len, 10);
    Ok(())
}
