//! Values for edits that are made of checked texts.

use crate::tests::reading::read;
use failing_alloc::in_turn::{answers_in_turn, is_refused_in_turn};
use failing_alloc::outcome::Outcome;
use jsonc_parser::ParseOptions;
use jsonc_parser::cst::{CstInputValue, input};
use std::alloc::{Allocator, Global};

/// Texts, whether they are numbers of JSON, and of all options.
static CHECKED: [(&str, bool, bool); 14] = [
    ("1e5", true, true),
    ("-0", true, true),
    ("0.25E-3", true, true),
    ("01", false, false),
    ("1.", false, true),
    (".5", false, true),
    ("+1", false, true),
    ("0x1F", false, true),
    ("-Infinity", false, true),
    ("NaN", false, true),
    ("NaN-1", false, false),
    (" 1", false, false),
    ("one", false, false),
    ("", false, false),
];

/// Whether a text is taken for a number, as it stands, where it is one.
fn is_checked<A: Allocator + Copy>(
    alloc: A,
    text: &str,
    options: &ParseOptions,
    is_number: bool,
) -> Outcome {
    match input::number(alloc, text, options) {
        Ok(Some(CstInputValue::Number(digits))) => {
            Outcome::of(is_number && digits.as_str() == text)
        }
        Ok(Some(_)) => Outcome::Other,
        Ok(None) => Outcome::of(!is_number),
        Err(error) => Outcome::from(error),
    }
}

/// Checks a few texts, under the options of JSON and under all.
fn checked_numbers<A: Allocator + Copy>(alloc: A) -> Outcome {
    let json = ParseOptions::json();
    let all = ParseOptions::default();
    let mut outcome = Outcome::Answered;
    for (text, of_json, of_all) in &CHECKED {
        outcome = outcome
            .then(is_checked(alloc, text, &json, *of_json))
            .then(is_checked(alloc, text, &all, *of_all));
    }
    outcome
}

/// Texts of values, and how the values are written into an empty document.
static VALUES: [(&str, &str); 4] = [
    ("[true, 1e5, /* none */ null]", "[true, 1e5, null]\n"),
    (
        "{\"a\": 1, \"b\": 2, \"a\": 3}",
        "{\n  \"a\": 3,\n  \"b\": 2\n}\n",
    ),
    (" 'x' // y", "\"x\"\n"),
    ("{}", "{}\n"),
];

/// Whether a value is written as this text.
fn is_written<A: Allocator + Copy>(alloc: A, value: CstInputValue<A>, text: &str) -> Outcome {
    match read(alloc, "") {
        Ok(doc) => {
            let mut doc = doc;
            match doc.set_value(value) {
                Ok(_) => Outcome::of_text(doc.text(), text),
                Err(error) => Outcome::from(error),
            }
        }
        Err(outcome) => outcome,
    }
}

/// Reads a few values of texts, and a text that has none.
fn values_of_texts<A: Allocator + Copy>(alloc: A) -> Outcome {
    let options = ParseOptions::default();
    let mut outcome = match input::from_json(alloc, "// none", &options) {
        Ok(found) => Outcome::of(found.is_none()),
        Err(error) => Outcome::from(error),
    };
    for (text, written) in &VALUES {
        let next = match input::from_json(alloc, text, &options) {
            Ok(Some(value)) => is_written(alloc, value, written),
            Ok(None) => Outcome::Other,
            Err(error) => Outcome::from(error),
        };
        outcome = outcome.then(next);
    }
    outcome
}

/// Texts, and the JSON text of their values, by RFC 8259.
static COMPACT: [(&str, &str); 4] = [
    (
        "[ 1 , -2.5e3, true, /* x */ false, null, ]",
        "[1,-2.5e3,true,false,null]",
    ),
    (
        "{\n  // a\n  \"a\": {},\n  'b': [\"\\u0041\\n\", []]\n}",
        r#"{"a":{},"b":["A\n",[]]}"#,
    ),
    (" \"\\/\" ", r#""/""#),
    ("{\"a\": 1, \"b\": 2, \"a\": 3}", r#"{"a":3,"b":2}"#),
];

/// Writes the values of a few texts on one line each.
fn lines_of_texts<A: Allocator + Copy>(alloc: A) -> Outcome {
    let options = ParseOptions::default();
    let mut outcome = Outcome::Answered;
    for (text, written) in &COMPACT {
        let next = match input::from_json(alloc, text, &options) {
            Ok(Some(value)) => Outcome::of_text(input::to_json(alloc, &value), written),
            Ok(None) => Outcome::Other,
            Err(error) => Outcome::from(error),
        };
        outcome = outcome.then(next);
    }
    outcome
}

#[test]
fn texts_are_checked(rt: HostRuntime) {
    let alloc = rt.alloc();
    assert!(rt; checked_numbers::<Global>(alloc) == Outcome::Answered);
    assert!(rt; values_of_texts::<Global>(alloc) == Outcome::Answered);
    assert!(rt; lines_of_texts::<Global>(alloc) == Outcome::Answered);
    assert!(rt; is_refused_in_turn(alloc, |heap| checked_numbers(heap)));
    assert!(rt; is_refused_in_turn(alloc, |heap| lines_of_texts(heap)));
    assert!(rt; answers_in_turn(alloc, |heap| values_of_texts(heap)));
}
