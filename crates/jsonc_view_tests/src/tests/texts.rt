//! Texts, their views beside their values, and the faults of those that have none.

use failing_alloc::awaited::prints;
use failing_alloc::outcome::Outcome;
use jsonc_text::options::ParseOptions;
use jsonc_value::to_value::parse_to_value;
use jsonc_view::{JsonView, parse_to_view};
use std::alloc::{AllocError, Allocator, Global};
use std::default::Default;
use std::test::Fail;

/// A text, and what the Rust crate says of it where that refuses it.
pub type Row = (&'static str, &'static str);

pub static ROWS: [Row; 20] = [
    ("", ""),
    (" // a\n/* b */", ""),
    ("1", ""),
    ("'a\\'b'", ""),
    ("null", ""),
    ("[]", ""),
    ("{}", ""),
    ("[1, [2, [true, {}], \"\\u00e9\\ud83d\\ude00\"], 'é']", ""),
    (
        "{\"a\": {\"b\": [{\"c\": 1}, {\"c\": 2}]}, \"d\": [[], [[]]]}",
        "",
    ),
    (
        "{a: 1, b: 2, a: 3, 'b': {a: 4, a: 5}, \"\\u0061\": [{x: 1, x: 2}]}",
        "",
    ),
    ("{\"a\": 1, // one\n \"b\": [1, 2,], }", ""),
    ("[", "Unterminated array on line 1 column 2"),
    ("{", "Unterminated object on line 1 column 2"),
    (
        "[] []",
        "Text cannot contain more than one JSON value on line 1 column 4",
    ),
    ("[:]", "Unexpected colon on line 1 column 2"),
    (
        "{ asdf  asdf: 5 }",
        "Expected colon after the string or word in object property on line 1 column 9",
    ),
    ("{ [] }", "Unexpected token in object on line 1 column 3"),
    ("/* test", "Unterminated comment block on line 1 column 1"),
    ("\" test", "Unterminated string literal on line 1 column 1"),
    ("{ \"test\": asdf }", "Unexpected word on line 1 column 11"),
];

/// Whether a view makes the value of its text, or the memory for it was wanted.
fn outcome_of_value<A: Allocator + Copy>(heap: A, text: &str, view: &JsonView<'_, A>) -> Outcome {
    let value = match parse_to_value(heap, text, &ParseOptions::default()) {
        Ok(value) => value,
        Err(error) => return Outcome::from(error),
    };
    match view.to_value(heap) {
        Ok(made) => Outcome::of(made == value && made.is_some() == view.value().is_some()),
        Err(error) => Outcome::from(error),
    }
}

/// What came of a text: its view makes its value, or it has this fault.
pub fn outcome_of<A: Allocator + Copy>(heap: A, (text, fault): Row) -> Outcome {
    match parse_to_view(heap, text, &ParseOptions::default()) {
        Ok(view) if fault.is_empty() => outcome_of_value(heap, text, &view),
        Ok(_) => Outcome::Other,
        Err(error) if prints(&error, fault) => Outcome::Answered,
        Err(error) => Outcome::from(error),
    }
}

#[test]
fn views_have_the_values_of_their_texts(rt: HostRuntime) -> Result<(), Fail> {
    for number in 0..ROWS.len() {
        assert!(rt;
            outcome_of(rt.alloc(), ROWS[number]) == Outcome::Answered,
            "row {number}"
        );
    }
    Ok(())
}

/// A number in so many arrays, one in another.
fn in_arrays(alloc: Global, count: usize) -> Result<String, AllocError> {
    let mut text = String::new(alloc);
    for _ in 0..count {
        text.push('[')?;
    }
    text.push('1')?;
    for _ in 0..count {
        text.push(']')?;
    }
    Ok(text)
}

/// What came of a number in so many arrays, which is refused where more are inside one another than a text may have.
fn outcome_of_depth(alloc: Global, count: usize) -> Outcome {
    let text = match in_arrays(alloc, count) {
        Ok(text) => text,
        Err(error) => return Outcome::from(error),
    };
    match parse_to_view(alloc, text.as_str(), &ParseOptions::default()) {
        Ok(view) => outcome_of_value(alloc, text.as_str(), &view),
        Err(error) => Outcome::of(prints(
            &error,
            "Maximum nesting depth exceeded on line 1 column 513",
        )),
    }
}

#[test]
fn the_deepest_text_has_a_view(rt: HostRuntime) -> Result<(), Fail> {
    for count in [511, 512, 513, 20000] {
        assert!(rt;
            outcome_of_depth(rt.alloc(), count) == Outcome::Answered,
            "{count}"
        );
    }
    let text = in_arrays(rt.alloc(), 512)?;
    assert!(rt; parse_to_view(rt.alloc(), text.as_str(), &ParseOptions::default()).is_ok());
    let text = in_arrays(rt.alloc(), 513)?;
    assert!(rt; parse_to_view(rt.alloc(), text.as_str(), &ParseOptions::default()).is_err());
    Ok(())
}
