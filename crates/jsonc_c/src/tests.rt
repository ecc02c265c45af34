//! Each call once.

use crate::check::jsonc_check;
use crate::commands::{
    jsonc_append, jsonc_drop, jsonc_get, jsonc_print, jsonc_put, jsonc_remove, jsonc_set,
    jsonc_sort,
};
use crate::edits::JsoncEdit;
use crate::fault::no_fault;
use crate::into::{
    jsonc_append_into, jsonc_drop_into, jsonc_edit_into, jsonc_get_into, jsonc_print_into,
    jsonc_put_into, jsonc_remove_into, jsonc_set_into, jsonc_sort_into,
};
use crate::lists::jsonc_edit;
use std::alloc::{AllocError, Global};
use std::test::Fail;

mod formats;
mod mends;
mod patches;
mod pointed;

const ALL: u32 = 1023;

const TEXT: &[u8] = b"{\n  \"b\": 1, // x\n  \"a\": [2]\n}\n";

#[test]
fn checks(rt: HostRuntime) -> Result<(), Fail> {
    let mut fault = no_fault();
    assert_eq!(rt; jsonc_check(rt.alloc(), TEXT, ALL, &mut fault), 0);
    assert_eq!(rt; jsonc_check(rt.alloc(), b"[1,\n @]", ALL, &mut fault), 4);
    assert_eq!(rt; fault.kind, 21);
    assert_eq!(rt; fault.start, 5);
    assert_eq!(rt; fault.end, 6);
    assert_eq!(rt; fault.line, 2);
    assert_eq!(rt; fault.column, 2);
    assert_eq!(rt;
        fault.text.as_slice().get(0..fault.text_len),
        Some(b"Unexpected token on line 2 column 2".as_slice())
    );
    assert_eq!(rt; jsonc_check(rt.alloc(), b"\xff", ALL, &mut fault), 3);
    assert_eq!(rt; jsonc_check(rt.alloc(), b"[1,]", 0, &mut fault), 4);
    Ok(())
}

#[test]
fn changes(rt: HostRuntime) -> Result<(), Fail> {
    let alloc = rt.alloc();
    let mut fault = no_fault();
    let mut out: &'static [u8] = &[];
    assert_eq!(rt; jsonc_print(alloc, TEXT, ALL, &mut out, &mut fault), 0);
    assert_eq!(rt; out, TEXT);
    assert_eq!(rt;
        jsonc_set(alloc, TEXT, b"b", b"null", ALL, &mut out, &mut fault),
        0
    );
    assert_eq!(rt;
        out,
        b"{\n  \"b\": null, // x\n  \"a\": [2]\n}\n".as_slice()
    );
    assert_eq!(rt;
        jsonc_append(alloc, b"[1]", b"2", ALL, &mut out, &mut fault),
        0
    );
    assert_eq!(rt; out, b"[1, 2]".as_slice());
    assert_eq!(rt;
        jsonc_remove(alloc, TEXT, b"b", ALL, &mut out, &mut fault),
        0
    );
    assert_eq!(rt; out, b"{\n  \"a\": [2]\n}\n".as_slice());
    assert_eq!(rt;
        jsonc_sort(alloc, b"{\"b\":1,\"a\":2}", ALL, &mut out, &mut fault),
        0
    );
    assert_eq!(rt; out, b"{\"a\":2,\"b\":1}".as_slice());
    Ok(())
}

#[test]
fn paths(rt: HostRuntime) -> Result<(), Fail> {
    let alloc = rt.alloc();
    let mut fault = no_fault();
    let mut out: &'static [u8] = &[];
    assert_eq!(rt;
        jsonc_get(alloc, TEXT, b"[\"a\"]", ALL, &mut out, &mut fault),
        0
    );
    assert_eq!(rt; out, b"[2]".as_slice());
    assert_eq!(rt;
        jsonc_get(alloc, TEXT, b"[\"c\"]", ALL, &mut out, &mut fault),
        11
    );
    assert_eq!(rt; out, b"".as_slice());
    assert_eq!(rt;
        jsonc_put(alloc, TEXT, b"[\"b\"]", b"2", ALL, &mut out, &mut fault),
        0
    );
    assert_eq!(rt; out, b"{\n  \"b\": 2, // x\n  \"a\": [2]\n}\n".as_slice());
    assert_eq!(rt;
        jsonc_drop(alloc, TEXT, b"[\"b\"]", ALL, &mut out, &mut fault),
        0
    );
    assert_eq!(rt; out, b"{\n  \"a\": [2]\n}\n".as_slice());
    let mut room = [0u8; 4];
    let mut len = 0usize;
    assert_eq!(rt;
        jsonc_get_into(
            alloc,
            TEXT,
            b"[\"a\"]",
            ALL,
            room.as_mut_slice(),
            &mut len,
            &mut fault
        ),
        0
    );
    assert_eq!(rt; room.as_slice().get(0..3), Some(b"[2]".as_slice()));
    Ok(())
}

/// The first bytes of a buffer are these.
fn is_written(room: &[u8], len: usize, text: &[u8]) -> bool {
    room.get(0..len) == Some(text)
}

/// A text in so many arrays, one in another.
fn in_arrays(alloc: Global, inner: &str, count: usize) -> Result<String, AllocError> {
    let mut text = String::new(alloc);
    for _ in 0..count {
        text.push('[')?;
    }
    text.push_str(inner)?;
    for _ in 0..count {
        text.push(']')?;
    }
    Ok(text)
}

/// The statuses of setting and appending a value with so many arrays around `1`.
fn statuses(alloc: Global, count: usize) -> Result<(u32, u32), AllocError> {
    let mut fault = no_fault();
    let mut out: &'static [u8] = &[];
    let json = in_arrays(alloc, "1", count)?;
    let set = jsonc_set(
        alloc,
        b"{}",
        b"a",
        json.as_bytes(),
        ALL,
        &mut out,
        &mut fault,
    );
    let appended = jsonc_append(alloc, b"[]", json.as_bytes(), ALL, &mut out, &mut fault);
    Ok((set, appended))
}

#[test]
fn values_nested_too_deep(rt: HostRuntime) -> Result<(), Fail> {
    assert!(rt; statuses(rt.alloc(), 510) == Ok((0, 0)));
    assert!(rt; statuses(rt.alloc(), 511) == Ok((28, 0)));
    assert!(rt; statuses(rt.alloc(), 512) == Ok((28, 28)));
    Ok(())
}

#[test]
fn documents_into_buffers(rt: HostRuntime) -> Result<(), Fail> {
    let alloc = rt.alloc();
    let mut fault = no_fault();
    let mut room = [0u8; 16];
    let mut len = 0usize;
    assert_eq!(rt;
        jsonc_print_into(
            alloc,
            b"[1]",
            ALL,
            room.as_mut_slice(),
            &mut len,
            &mut fault
        ),
        0
    );
    assert!(rt; is_written(room.as_slice(), len, b"[1]"));
    assert_eq!(rt;
        jsonc_set_into(
            alloc,
            b"{\"a\":1}",
            b"a",
            b"2",
            ALL,
            room.as_mut_slice(),
            &mut len,
            &mut fault
        ),
        0
    );
    assert!(rt; is_written(room.as_slice(), len, b"{\"a\":2}"));
    Ok(())
}

#[test]
fn entries_into_buffers(rt: HostRuntime) -> Result<(), Fail> {
    let alloc = rt.alloc();
    let mut fault = no_fault();
    let mut room = [0u8; 16];
    let mut len = 0usize;
    assert_eq!(rt;
        jsonc_append_into(
            alloc,
            b"[1]",
            b"2",
            ALL,
            room.as_mut_slice(),
            &mut len,
            &mut fault
        ),
        0
    );
    assert!(rt; is_written(room.as_slice(), len, b"[1, 2]"));
    assert_eq!(rt;
        jsonc_remove_into(
            alloc,
            b"{ \"a\": 1, \"b\": 2 }",
            b"b",
            ALL,
            room.as_mut_slice(),
            &mut len,
            &mut fault
        ),
        0
    );
    assert!(rt; is_written(room.as_slice(), len, b"{ \"a\": 1 }"));
    Ok(())
}

#[test]
fn sorts_into_buffers(rt: HostRuntime) -> Result<(), Fail> {
    let alloc = rt.alloc();
    let mut fault = no_fault();
    let mut room = [0u8; 16];
    let mut len = 0usize;
    assert_eq!(rt;
        jsonc_sort_into(
            alloc,
            b"{\"b\":1,\"a\":2}",
            ALL,
            room.as_mut_slice(),
            &mut len,
            &mut fault
        ),
        0
    );
    assert!(rt; is_written(room.as_slice(), len, b"{\"a\":2,\"b\":1}"));
    assert_eq!(rt;
        jsonc_put_into(
            alloc,
            b"{\"a\":1}",
            b"[\"a\"]",
            b"2",
            ALL,
            room.as_mut_slice(),
            &mut len,
            &mut fault
        ),
        0
    );
    assert!(rt; is_written(room.as_slice(), len, b"{\"a\":2}"));
    Ok(())
}

#[test]
fn drops_into_buffers(rt: HostRuntime) -> Result<(), Fail> {
    let alloc = rt.alloc();
    let mut fault = no_fault();
    let mut room = [0u8; 16];
    let mut len = 0usize;
    assert_eq!(rt;
        jsonc_drop_into(
            alloc,
            b"{ \"a\": 1, \"b\": 2 }",
            b"[\"b\"]",
            ALL,
            room.as_mut_slice(),
            &mut len,
            &mut fault
        ),
        0
    );
    assert!(rt; is_written(room.as_slice(), len, b"{ \"a\": 1 }"));
    Ok(())
}

/// An edit of this kind at a path, with a JSON text.
fn edit_at<'a>(kind: u32, path: &'a [usize], json: &'a [u8]) -> JsoncEdit<'a> {
    JsoncEdit {
        kind,
        path,
        name: b"",
        json,
        index: 0,
        first: false,
        second: false,
    }
}

/// A comment that is to be inserted at a path.
fn comment_at<'a>(path: &'a [usize], text: &'a [u8], is_after: bool) -> JsoncEdit<'a> {
    JsoncEdit {
        kind: 19,
        path,
        name: text,
        json: b"",
        index: 0,
        first: is_after,
        second: false,
    }
}

#[test]
fn comments(rt: HostRuntime) -> Result<(), Fail> {
    let alloc = rt.alloc();
    let mut fault = no_fault();
    let mut out: &'static [u8] = &[];
    let made = [
        comment_at(&[1], b"// y", false),
        comment_at(&[1], b"/* z */", true),
    ];
    assert_eq!(rt;
        jsonc_edit(alloc, TEXT, made.as_slice(), ALL, &mut out, &mut fault),
        0
    );
    assert_eq!(rt;
        out,
        b"{\n  \"b\": 1, // x\n  // y\n  \"a\": [2] /* z */\n}\n".as_slice()
    );
    let continues = [comment_at(&[0], b"// c", true)];
    assert_eq!(rt;
        jsonc_edit(alloc, TEXT, continues.as_slice(), ALL, &mut out, &mut fault),
        26
    );
    let invalid = [comment_at(&[0], b"c", true)];
    assert_eq!(rt;
        jsonc_edit(alloc, TEXT, invalid.as_slice(), ALL, &mut out, &mut fault),
        25
    );
    Ok(())
}

#[test]
fn edits(rt: HostRuntime) -> Result<(), Fail> {
    let alloc = rt.alloc();
    let mut fault = no_fault();
    let mut out: &'static [u8] = &[];
    let edits = [
        edit_at(1, &[0], b""),
        edit_at(12, &[0], b"true"),
        edit_at(17, &[], b""),
    ];
    assert_eq!(rt;
        jsonc_edit(alloc, TEXT, edits.as_slice(), ALL, &mut out, &mut fault),
        0
    );
    assert_eq!(rt; out, b"{\n  \"a\": [2, true]\n}\n".as_slice());
    let mut room = [0u8; 8];
    let mut len = 0usize;
    assert_eq!(rt;
        jsonc_edit_into(
            alloc,
            TEXT,
            edits.as_slice(),
            ALL,
            room.as_mut_slice(),
            &mut len,
            &mut fault
        ),
        17
    );
    assert_eq!(rt; len, out.len());
    Ok(())
}
