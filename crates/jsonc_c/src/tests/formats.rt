//! Formatted texts, and into a buffer.

use super::{ALL, is_written};
use crate::fault::no_fault;
use crate::format::{JsoncStyle, jsonc_format};
use crate::into::jsonc_format_into;
use std::test::Fail;

/// The text's own line end and indent.
const OWN: JsoncStyle = JsoncStyle {
    line_end: 0,
    level: 0,
    spaces: 0,
    expand: false,
};

/// Each array and object on several lines, which end in CR LF, with so many spaces.
const SPREAD: JsoncStyle = JsoncStyle {
    line_end: 2,
    level: 1,
    spaces: 3,
    expand: true,
};

#[test]
fn a_text_is_formatted(rt: HostRuntime) -> Result<(), Fail> {
    let mut out: &'static [u8] = &[];
    let mut fault = no_fault();
    let text = b"{\n\t\"a\":[1,2]}";
    assert_eq!(rt;
        jsonc_format(rt.alloc(), text, ALL, &OWN, &mut out, &mut fault),
        0
    );
    assert_eq!(rt; out, b"{\n\t\"a\": [1, 2]\n}\n".as_slice());
    assert_eq!(rt;
        jsonc_format(rt.alloc(), b"[1,{}]", ALL, &SPREAD, &mut out, &mut fault),
        0
    );
    assert_eq!(rt; out, b"[\r\n   1,\r\n   {}\r\n]\r\n".as_slice());
    assert_eq!(rt;
        jsonc_format(rt.alloc(), b"[1,", ALL, &OWN, &mut out, &mut fault),
        4
    );
    assert!(rt; out.is_empty());
    assert_eq!(rt;
        jsonc_format(rt.alloc(), b"\xff", ALL, &OWN, &mut out, &mut fault),
        3
    );
    Ok(())
}

#[test]
fn a_text_is_formatted_into_a_buffer(rt: HostRuntime) -> Result<(), Fail> {
    let mut room = [0u8; 8];
    let mut len = 0;
    let mut fault = no_fault();
    let wanted = b"[1, 2]\n".as_slice();
    assert_eq!(rt;
        jsonc_format_into(
            rt.alloc(),
            b"[1,2]",
            ALL,
            &OWN,
            &mut room,
            &mut len,
            &mut fault
        ),
        0
    );
    assert!(rt; is_written(&room, len, wanted));
    assert_eq!(rt;
        jsonc_format_into(
            rt.alloc(),
            b"[1,2]",
            ALL,
            &SPREAD,
            &mut room,
            &mut len,
            &mut fault
        ),
        17
    );
    assert!(rt; is_written(&room, 7, wanted));
    Ok(())
}
