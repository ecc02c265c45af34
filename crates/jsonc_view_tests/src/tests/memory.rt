//! Each request for memory, refused in turn.

use crate::tests::texts::{ROWS, outcome_of};
use failing_alloc::Refusing;
use failing_alloc::in_turn::refused_in_turn;
use failing_alloc::outcome::Outcome;
use std::alloc::{Allocator, Global};
use std::test::Fail;

/// What came of the row of a number.
fn outcome_at<A: Allocator + Copy>(heap: A, number: usize) -> Outcome {
    match ROWS.get(number) {
        Some(row) => outcome_of(heap, *row),
        None => Outcome::Other,
    }
}

#[test]
fn each_request_is_refused_in_turn(rt: HostRuntime) -> Result<(), Fail> {
    for number in 0..ROWS.len() {
        assert!(rt;
            refused_in_turn(rt.alloc(), |heap| outcome_at(heap, number)).is_some(),
            "row {number}"
        );
    }
    Ok(())
}

/// A call that keeps a block for good.
fn outcome_of_leak(heap: &Refusing<Global>) -> Outcome {
    let mut bytes = Vec::new(heap);
    match bytes.push(1u8) {
        Ok(()) => {
            bytes.leak();
            Outcome::Answered
        }
        Err(_) => Outcome::Wanted,
    }
}

#[test]
fn memory_that_is_not_given_back_is_seen(rt: HostRuntime) {
    assert!(rt; refused_in_turn(rt.alloc(), |heap| outcome_of_leak(heap)).is_none());
}
