//! Every fault of a text, with its change.

use crate::mends::{JsoncMend, jsonc_mend};
use std::test::Fail;

/// A text with two faults.
const BROKEN: &[u8] = b"{\n  \"a\": 1 \"b\": [1, 2\n}";

/// Of each its kind, line and column, where it begins, and where the changes begin in the text and in the mended text.
static ROWS: [(u32, usize, usize, usize, usize, usize); 2] = [
    (10, 2, 9, 10, 10, 10),
    (17, 3, 1, 22, 21, 22),
];

/// Whether the mend of a number is the row's.
fn is_told(mends: &[JsoncMend], number: usize) -> bool {
    let (kind, line, column, fault_start, start, written_start) = match ROWS.get(number) {
        Some(row) => *row,
        None => return false,
    };
    match mends.get(number) {
        Some(mend) => {
            mend.kind == kind
                && mend.line == line
                && mend.column == column
                && mend.fault_start == fault_start
                && mend.start == start
                && mend.written_start == written_start
        }
        None => false,
    }
}

#[test]
fn every_fault_has_a_change(rt: HostRuntime) -> Result<(), Fail> {
    let mut out: &'static [u8] = &[];
    let mut mends: &'static [JsoncMend] = &[];
    assert_eq!(rt; jsonc_mend(rt.alloc(), BROKEN, 0, &mut out, &mut mends), 0);
    assert_eq!(rt; out, b"{\n  \"a\": 1, \"b\": [1, 2]\n}".as_slice());
    assert_eq!(rt; mends.len(), 2);
    assert!(rt; is_told(mends, 0));
    assert!(rt; is_told(mends, 1));
    Ok(())
}

#[test]
fn documents_have_no_mends(rt: HostRuntime) -> Result<(), Fail> {
    let mut out: &'static [u8] = &[];
    let mut mends: &'static [JsoncMend] = &[];
    assert_eq!(rt; jsonc_mend(rt.alloc(), b"[1]", 0, &mut out, &mut mends), 0);
    assert_eq!(rt; out, b"[1]".as_slice());
    assert!(rt; mends.is_empty());
    assert_eq!(rt; jsonc_mend(rt.alloc(), b"\xff", 0, &mut out, &mut mends), 3);
    assert!(rt; out.is_empty());
    Ok(())
}
