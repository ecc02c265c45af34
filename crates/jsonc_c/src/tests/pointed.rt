//! What pointers lead to, and texts as JSON.

use super::{ALL, TEXT};
use crate::fault::no_fault;
use crate::json::jsonc_to_json;
use crate::pointed::{jsonc_find_string, jsonc_path_of, jsonc_remove_with_comments};
use std::test::Fail;

#[test]
fn paths_of_pointers(rt: HostRuntime) -> Result<(), Fail> {
    let alloc = rt.alloc();
    let mut fault = no_fault();
    let mut path: &'static [usize] = &[];
    assert_eq!(rt;
        jsonc_path_of(alloc, TEXT, b"/a/0", ALL, &mut path, &mut fault),
        0
    );
    assert_eq!(rt; path, [1usize, 0].as_slice());
    assert_eq!(rt;
        jsonc_path_of(alloc, TEXT, b"/a/1", ALL, &mut path, &mut fault),
        20
    );
    assert_eq!(rt; path.len(), 0);
    Ok(())
}

#[test]
fn strings_at_pointers(rt: HostRuntime) -> Result<(), Fail> {
    let alloc = rt.alloc();
    let mut fault = no_fault();
    let mut out: &'static [u8] = &[];
    let text = b"[\"x\\n\", 1]";
    assert_eq!(rt;
        jsonc_find_string(alloc, text, b"/0", ALL, &mut out, &mut fault),
        0
    );
    assert_eq!(rt; out, b"x\n".as_slice());
    assert_eq!(rt;
        jsonc_find_string(alloc, text, b"/1", ALL, &mut out, &mut fault),
        29
    );
    Ok(())
}

#[test]
fn removals_with_comments(rt: HostRuntime) -> Result<(), Fail> {
    let alloc = rt.alloc();
    let mut fault = no_fault();
    let mut out: &'static [u8] = &[];
    assert_eq!(rt;
        jsonc_remove_with_comments(alloc, TEXT, b"/b", ALL, &mut out, &mut fault),
        0
    );
    assert_eq!(rt; out, b"{\n  \"a\": [2]\n}\n".as_slice());
    assert_eq!(rt;
        jsonc_remove_with_comments(alloc, TEXT, b"/c", ALL, &mut out, &mut fault),
        20
    );
    Ok(())
}

#[test]
fn texts_as_json(rt: HostRuntime) -> Result<(), Fail> {
    let alloc = rt.alloc();
    let mut fault = no_fault();
    let mut out: &'static [u8] = &[];
    assert_eq!(rt;
        jsonc_to_json(alloc, b"['a', 0x1F,]", ALL, &mut out, &mut fault),
        0
    );
    assert_eq!(rt; out, b"[\"a\", 31]".as_slice());
    assert_eq!(rt;
        jsonc_to_json(alloc, b"[1,\n NaN]", ALL, &mut out, &mut fault),
        31
    );
    assert_eq!(rt; fault.start, 5);
    assert_eq!(rt; fault.line, 2);
    assert_eq!(rt; fault.column, 2);
    assert_eq!(rt; jsonc_to_json(alloc, b" ", ALL, &mut out, &mut fault), 30);
    Ok(())
}
