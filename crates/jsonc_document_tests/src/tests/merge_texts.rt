//! The texts of merge patches.

use crate::tests::patch_texts::is_value;
use failing_alloc::in_turn::refused_in_turn;
use failing_alloc::outcome::Outcome;
use jsonc_parser::ParseOptions;
use jsonc_parser::errors::ParseErrorKind;
use jsonc_parser::patch::{MergePatchError, merge_patch_from_json};
use std::alloc::Allocator;
use std::test::Fail;

/// What a text is.
#[derive(Clone, Copy)]
enum Answer<'a> {
    /// The merge patch of its value.
    Value,
    /// No text under its options.
    Unread,
    /// One without a value.
    NoValue,
    /// One with a name twice.
    Twice(&'a str),
}

/// A text, what it is, and the line that is printed where it is no merge patch.
type Row<'a> = (&'a str, Answer<'a>, &'a str);

/// The patches of RFC 7396, 3, and others.
static ROWS: [Row; 11] = [
    (
        "{ \"title\": \"Hello!\", \"phoneNumber\": \"+01-123-456-7890\", \"author\": { \"familyName\": null }, \"tags\": [ \"example\" ] }",
        Answer::Value,
        "",
    ),
    ("null", Answer::Value, ""),
    ("/* a */ -0x1F // b", Answer::Value, ""),
    ("[{a: true}, {a: {a: 'b'},},]", Answer::Value, ""),
    (
        "[1",
        Answer::Unread,
        "Unterminated array on line 1 column 1",
    ),
    ("", Answer::NoValue, "Patch has no value"),
    ("// a\n", Answer::NoValue, "Patch has no value"),
    (
        "{a: 1, b: 2, '\\u0061': 3}",
        Answer::Twice("a"),
        "Name stands twice: \"a\"",
    ),
    (
        "{\"\": {\"b c\": 1, \"b c\": 1}}",
        Answer::Twice("b c"),
        "Name stands twice: \"b c\"",
    ),
    (
        "[[], [{\"\": 1, \"\": 1}]]",
        Answer::Twice(""),
        "Name stands twice: \"\"",
    ),
    (
        "[{é: 1, é: 2}",
        Answer::Unread,
        "Unterminated array on line 1 column 1",
    ),
];

fn outcome<A: Allocator + Copy>(alloc: A, row: &Row<'_>) -> Outcome {
    match (
        merge_patch_from_json(alloc, row.0, &ParseOptions::default()),
        row.1,
    ) {
        (Ok(value), Answer::Value) => is_value(alloc, &value, row.0),
        (Err(MergePatchError::OutOfMemory), _) => Outcome::Wanted,
        (Err(MergePatchError::Parse(error)), answer) => {
            if matches!(error.kind(), ParseErrorKind::OutOfMemory) {
                return Outcome::from(error);
            }
            Outcome::of(matches!(answer, Answer::Unread))
        }
        (Err(MergePatchError::NoValue), Answer::NoValue) => Outcome::Answered,
        (Err(MergePatchError::RepeatedName(name)), Answer::Twice(wanted)) => {
            Outcome::of(name.as_str() == wanted)
        }
        _ => Outcome::Other,
    }
}

#[test]
fn merge_patches_are_read_with_each_request_refused_in_turn(rt: HostRuntime) -> Result<(), Fail> {
    let alloc = rt.alloc();
    for row in &ROWS {
        assert!(rt;
            refused_in_turn(alloc, |heap| outcome(heap, row)).is_some(),
            "{}",
            row.0
        );
    }
    Ok(())
}

#[test]
fn faults_of_merge_patches_are_printed(rt: HostRuntime) -> Result<(), Fail> {
    let alloc = rt.alloc();
    for (text, _, wanted) in &ROWS {
        if let Err(error) = merge_patch_from_json(alloc, text, &ParseOptions::default()) {
            let line = format!(in alloc; "{error}")?;
            assert_eq!(rt; line.as_str(), *wanted);
        }
    }
    Ok(())
}
