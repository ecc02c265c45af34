//! What runs with patches write, with ample memory and with each request for it refused in turn.

use crate::tests::patch_rows::{PATCHED, STANDARD};
use crate::tests::rows::Row;
use engine_runs::{is_of_memory, outcome_of};
use failing_alloc::in_turn::answers_in_turn;
use failing_alloc::outcome::Outcome;
use jsonc_engine::command::Command;
use jsonc_engine::engine::run_on;
use std::alloc::Allocator;
use std::test::Fail;

#[test]
fn each_patch_writes_the_text_of_its_row(rt: HostRuntime) -> Result<(), Fail> {
    for (words, input, output) in &PATCHED {
        assert!(rt;
            answers_in_turn(rt.alloc(), |heap| outcome_of(heap, words, input, output)),
            "{words:?} {input:?}"
        );
    }
    Ok(())
}

/// What came of a run whose text is to have the value of the row's.
fn outcome_of_value<A: Allocator + Copy>(heap: A, row: &Row) -> Outcome {
    let (words, input, wanted) = *row;
    let Some(command) = Command::from_words(words) else {
        return Outcome::Other;
    };
    match run_on(heap, command, input.as_bytes()) {
        Ok(Some(text)) => Outcome::of_values(heap, &text, wanted),
        Ok(None) => Outcome::Other,
        Err(fault) if is_of_memory(&fault) => Outcome::Wanted,
        Err(_) => Outcome::Other,
    }
}

/// What came of the example of a number.
fn example_at<A: Allocator + Copy>(heap: A, number: usize) -> Outcome {
    match STANDARD.get(number) {
        Some(row) => outcome_of_value(heap, row),
        None => Outcome::Other,
    }
}

#[test]
fn each_example_of_the_standards_has_its_value(rt: HostRuntime) -> Result<(), Fail> {
    for number in 0..STANDARD.len() {
        assert!(rt;
            answers_in_turn(rt.alloc(), |heap| example_at(heap, number)),
            "example {number}"
        );
    }
    Ok(())
}
