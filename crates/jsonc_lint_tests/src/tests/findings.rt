//! What is found in some texts.

use failing_alloc::outcome::Outcome;
use jsonc_lint::{Findings, Rules, lint};
use jsonc_parser::ParseOptions;
use std::alloc::Allocator;
use std::fmt::Write;
use std::test::Fail;

/// A text, whether trailing commas are looked for, and a line for each finding: its line, its column, its message and
/// its range.
pub type Row = (&'static str, bool, &'static str);

/// The rules, from the words of `lint`; places and columns are counted by hand.
pub static ROWS: [Row; 17] = [
    ("", true, ""),
    ("{\"a\": 1, \"b\": [2, {\"a\": 3}]}", true, ""),
    ("[1, 2", true, "1:1: Unterminated array 0..5\n"),
    (
        "{\"a\": 1, \"a\": 2 // TODO",
        true,
        "1:1: Unterminated object 0..23\n",
    ),
    (
        "{\"a\": 1, \"\\u0061\": 2}",
        true,
        "1:10: Name stands twice: \"a\", first on line 1 column 2 9..20\n",
    ),
    (
        "{a: 1, \"a\": 2, a: 3}",
        true,
        "1:8: Name stands twice: \"a\", first on line 1 column 2 7..13\n1:16: Name stands twice: \"a\", first on line 1 column 2 15..19\n",
    ),
    (
        "{\"x\": {\"y\": 1, \"y\": 2}, \"x\": {\"y\": 3}}",
        true,
        "1:16: Name stands twice: \"y\", first on line 1 column 8 15..21\n1:25: Name stands twice: \"x\", first on line 1 column 2 24..37\n",
    ),
    ("[{\"a\": 1}, {\"a\": 2}]", true, ""),
    (
        "{\"é\": 1, \"é\": 2}",
        true,
        "1:10: Name stands twice: \"é\", first on line 1 column 2 10..17\n",
    ),
    (
        "{\"a\\nb\": 1, \"a\\u000ab\": 2}",
        true,
        "1:13: Name stands twice: \"a\\nb\", first on line 1 column 2 12..25\n",
    ),
    (
        "/* TODO */ 1 // todo",
        true,
        "1:1: Comment says TODO 0..10\n",
    ),
    ("[\"TODO\"]", true, ""),
    ("[1,]", false, ""),
    ("[1,]", true, "1:3: Trailing comma 2..3\n"),
    (
        "[1 /* a */ , // b\n ]",
        true,
        "1:12: Trailing comma 11..12\n",
    ),
    (
        "[1, /* TODO */]",
        true,
        "1:3: Trailing comma 2..3\n1:5: Comment says TODO 4..14\n",
    ),
    (
        "{\n  \"a\": 1, // TODO one\n  \"a\": 2,\n}",
        true,
        "2:11: Comment says TODO 12..23\n3:3: Name stands twice: \"a\", first on line 2 column 3 26..32\n3:9: Trailing comma 32..33\n",
    ),
];

/// Whether findings are printed so, each with its range.
pub fn printed_as<A: Allocator>(heap: A, findings: &Findings<A>, wanted: &str) -> Outcome {
    let mut printed = String::new(heap);
    for finding in findings.iter() {
        let (line, column, range) = (finding.line, finding.column, finding.range);
        let written = write!(
            printed,
            "{line}:{column}: {finding} {}..{}\n",
            range.start, range.end
        );
        if let Err(error) = written {
            return Outcome::from(error);
        }
    }
    Outcome::of(printed.as_str() == wanted)
}

/// What came of linting the text of a row, printed.
pub fn outcome_of<A: Allocator + Copy>(heap: A, (text, trailing_commas, wanted): Row) -> Outcome {
    match lint(
        heap,
        text,
        &ParseOptions::default(),
        Rules { trailing_commas },
    ) {
        Ok(findings) => printed_as(heap, &findings, wanted),
        Err(error) => Outcome::from(error),
    }
}

#[test]
fn rows_are_found(rt: HostRuntime) -> Result<(), Fail> {
    for number in 0..ROWS.len() {
        assert!(rt;
            outcome_of(rt.alloc(), ROWS[number]) == Outcome::Answered,
            "row {number}"
        );
    }
    Ok(())
}
