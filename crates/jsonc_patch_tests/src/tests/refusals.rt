//! Each request for memory of a run, refused in turn.

use crate::tests::rows::{TOLD, WRITTEN};
use engine_runs::{is_of_memory, outcome_of, run_by};
use failing_alloc::Refusing;
use failing_alloc::awaited::{Awaited, prints};
use failing_alloc::in_turn::{answers_in_turn, is_refused_in_turn};
use failing_alloc::outcome::Outcome;
use jsonc_engine::calls::{FromReader, ToWriter};
use jsonc_engine::json::{JsonError, to_json};
use jsonc_parser::ParseOptions;
use std::alloc::Global;
use std::test::Fail;

#[test]
fn each_request_is_refused_in_turn(rt: HostRuntime) -> Result<(), Fail> {
    for (words, input, output) in &WRITTEN {
        assert!(rt;
            is_refused_in_turn(rt.alloc(), |heap| outcome_of(heap, words, input, output)),
            "{words:?} {input:?}"
        );
    }
    Ok(())
}

/// What came of writing a document as JSON.
fn outcome_of_json(heap: &Refusing<Global>) -> Outcome {
    match to_json(heap, "['a', 0x1F, b\"\\x41\"]", &ParseOptions::default()) {
        Ok(_) => Outcome::Other,
        Err(JsonError::Text(_)) => Outcome::Answered,
        Err(_) => Outcome::Other,
    }
}

#[test]
fn a_refused_text_wants_no_memory(rt: HostRuntime) -> Result<(), Fail> {
    let heap = Refusing::always(rt.alloc());
    assert!(rt; outcome_of_json(&heap) == Outcome::Answered);
    assert_eq!(rt; heap.asked(), 0);
    Ok(())
}

/// What came of a run that fails whatever memory there is. It tells its cause, or, of memory that was refused, that.
fn outcome_of_cause(
    heap: &Refusing<Global>,
    (words, input, line, _status): &(&[&str], &'static str, &str, u8),
) -> Outcome {
    let mut source = FromReader::new(input.as_bytes());
    let mut sink = ToWriter::new(Awaited { rest: b"" });
    match run_by(heap, words, &mut source, &mut sink) {
        Ok(()) => Outcome::Other,
        Err(fault) if prints(&fault, line) => Outcome::Answered,
        Err(fault) if is_of_memory(&fault) => Outcome::Wanted,
        Err(_) => Outcome::Other,
    }
}

#[test]
fn a_cause_is_told_or_want_of_memory(rt: HostRuntime) -> Result<(), Fail> {
    for told in &TOLD {
        assert!(rt;
            answers_in_turn(rt.alloc(), |heap| outcome_of_cause(heap, told)),
            "{:?} {:?}",
            told.0,
            told.1
        );
    }
    Ok(())
}
