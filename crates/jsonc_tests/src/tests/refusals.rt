//! Each request for memory of a call, refused in turn.

use crate::tests::calls::{CALLS, Call, outcome_of};
use engine_runs::run_by;
use failing_alloc::Refusing;
use failing_alloc::awaited::{Awaited, prints};
use failing_alloc::in_turn::{answers_in_turn, is_refused_in_turn};
use failing_alloc::outcome::Outcome;
use jsonc_engine::calls::{FromReader, ToWriter};
use jsonc_engine::fault::Fault;
use jsonc_parser::errors::ParseErrorKind;
use std::alloc::{Allocator, Global};
use std::test::Fail;

#[test]
fn each_request_is_refused_in_turn(rt: HostRuntime) -> Result<(), Fail> {
    for (call, name) in &CALLS {
        assert!(rt;
            is_refused_in_turn(rt.alloc(), |heap| outcome_of(*call, heap)),
            "{name}"
        );
    }
    Ok(())
}

#[test]
fn a_sort_that_collects_wants_memory_or_answers(rt: HostRuntime) -> Result<(), Fail> {
    assert!(rt; answers_in_turn(rt.alloc(), |heap| outcome_of(Call::Sorted, heap)));
    Ok(())
}

/// What is wrong, whatever memory there is, with words or with an input, and whether it is with the words.
static CAUSES: [(&[&str], &str, &str, bool); 13] = [
    (
        &["get", "1"],
        "{}",
        "jsonc: path is not a list of strings",
        true,
    ),
    (
        &["drop", "{\"a\": 1}"],
        "{}",
        "jsonc: path is not a list of strings",
        true,
    ),
    (
        &["put", "/**/", "1"],
        "{}",
        "jsonc: path is not a list of strings",
        true,
    ),
    (&["append", "/**/"], "[]", "jsonc: argument: no value", true),
    (
        &["set", "a", "1"],
        "[1]",
        "jsonc: root value is not an object",
        false,
    ),
    (
        &["append", "1"],
        "{\"a\": 1}",
        "jsonc: root value is not an array",
        false,
    ),
    (
        &["remove", "a"],
        "[1]",
        "jsonc: root value is not an object",
        false,
    ),
    (
        &["remove", "a"],
        "// one",
        "jsonc: root value is not an object",
        false,
    ),
    (
        &["sort"],
        "\"a\"",
        "jsonc: root value is not an object",
        false,
    ),
    (&["get", "[]"], "// one", "jsonc: no such setting", false),
    (&["get", "[\"a\"]"], "[1]", "jsonc: no such setting", false),
    (
        &["put", "[\"a\"]", "1"],
        "[1]",
        "jsonc: a value on the path is not an object",
        false,
    ),
    (
        &["print"],
        "[1",
        "jsonc: Unterminated array on line 1 column 1",
        false,
    ),
];

/// Whether a fault tells that a parse wanted memory.
fn is_of_a_parse<A: Allocator>(fault: &Fault<A>) -> bool {
    match fault {
        Fault::Input(error) | Fault::Path(error) | Fault::Argument(error) => {
            *error.kind() == ParseErrorKind::OutOfMemory
        }
        _ => false,
    }
}

/// What came of a run that fails whatever memory there is. It tells the cause, or that a parse wanted memory, or, where
/// the words are right, that allocation failed before the end of the input.
fn outcome_of_cause(
    heap: &Refusing<Global>,
    (words, input, line, is_of_words): &(&[&str], &'static str, &str, bool),
) -> Outcome {
    let mut source = FromReader::new(input.as_bytes());
    let mut sink = ToWriter::new(Awaited { rest: b"" });
    match run_by(heap, words, &mut source, &mut sink) {
        Ok(()) => Outcome::Other,
        Err(fault) if prints(&fault, line) => Outcome::Answered,
        Err(fault) if is_of_a_parse(&fault) => Outcome::Wanted,
        Err(fault) => {
            let is_told = prints(&fault, "jsonc: Out of memory");
            if is_told && !is_of_words && source.empty == 0 {
                return Outcome::Wanted;
            }
            Outcome::Other
        }
    }
}

#[test]
fn a_cause_is_told_before_want_of_memory(rt: HostRuntime) -> Result<(), Fail> {
    for cause in &CAUSES {
        assert!(rt;
            answers_in_turn(rt.alloc(), |heap| outcome_of_cause(heap, cause)),
            "{:?}",
            cause.0
        );
    }
    Ok(())
}
