//! Each row is mended as it says, its document prints the mended text, and each request for memory on the way is refused in turn.

use crate::tests::documents::printed;
use crate::tests::rows::{CONTAINERS, LEXEMES, Row, options_of};
use failing_alloc::in_turn::answers_in_turn;
use failing_alloc::outcome::Outcome;
use jsonc_mends::mend;
use std::alloc::{AllocError, Allocator, Global};
use std::test::Fail;

/// Whether a text becomes the row's by so many changes.
fn is_mended<A: Allocator + Copy>(alloc: A, row: &Row) -> Result<bool, AllocError> {
    let (dialect, text, mended, count) = *row;
    let options = options_of(dialect);
    let mends = mend(alloc, text, &options)?;
    Ok(mends.text() == mended && mends.list().len() == count)
}

/// What came of a row, and of its document.
fn outcome_of<A: Allocator + Copy>(alloc: A, row: &Row) -> Outcome {
    let of_text = match is_mended(alloc, row) {
        Ok(is_right) => Outcome::of(is_right),
        Err(_) => Outcome::Wanted,
    };
    of_text.then(printed(alloc, row))
}

/// What came of the row of a number, if there is one.
fn outcome_at<A: Allocator + Copy>(alloc: A, rows: &[Row], number: usize) -> Outcome {
    match rows.get(number) {
        Some(row) => outcome_of(alloc, row),
        None => Outcome::Other,
    }
}

/// Whether each text is mended as its row says, or memory is reported to be missing, with each request refused in turn.
fn are_mended(alloc: Global, rows: &[Row]) -> bool {
    for number in 0..rows.len() {
        if !answers_in_turn(alloc, |heap| outcome_at(heap, rows, number)) {
            return false;
        }
    }
    true
}

#[test]
fn texts_are_mended_with_each_request_refused_in_turn(rt: HostRuntime) -> Result<(), Fail> {
    assert!(rt; are_mended(rt.alloc(), &CONTAINERS));
    assert!(rt; are_mended(rt.alloc(), &LEXEMES));
    Ok(())
}
