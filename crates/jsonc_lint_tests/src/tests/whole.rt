//! What is found in some texts with faults.

use crate::tests::findings::printed_as;
use failing_alloc::outcome::Outcome;
use jsonc_lint::{Rules, lint_all};
use jsonc_parser::ParseOptions;
use std::alloc::Allocator;
use std::test::Fail;

/// A text, whether it is read as JSON with comments, whether trailing commas are looked for, and a line for each finding.
pub type WholeRow = (&'static str, bool, bool, &'static str);

/// The faults are those of the recovery's model (`bench/mend`); places in the text are counted by hand.
pub static WHOLE_ROWS: [WholeRow; 9] = [
    ("", false, true, ""),
    (
        "{\"a\": 1, \"a\": 2 /* TODO */,}",
        true,
        true,
        "1:10: Name stands twice: \"a\", first on line 1 column 2 9..15\n1:17: Comment says TODO 16..26\n1:27: Trailing comma 26..27\n",
    ),
    (
        "{\"a\": 1 \"a\": 2,, }",
        true,
        true,
        "1:8: Expected comma 7..7\n1:16: Unexpected token in object 15..16\n1:9: Name stands twice: \"a\", first on line 1 column 2 8..15\n1:16: Trailing comma 15..16\n",
    ),
    (
        "[1 {\"a\": 1, \"a\": 2}]",
        true,
        false,
        "1:3: Expected comma 2..2\n1:13: Name stands twice: \"a\", first on line 1 column 5 12..18\n",
    ),
    (
        "{\"k\" 1,\r\n\"é\" 2,\r\n\"é\": [3,}",
        true,
        true,
        "1:6: Expected colon after the string or word in object property 5..6\n2:5: Expected colon after the string or word in object property 14..15\n3:9: Unexpected close brace 27..28\n3:1: Name stands twice: \"é\", first on line 2 column 1 18..27\n3:8: Trailing comma 26..27\n",
    ),
    (
        "{\"\":1,]",
        false,
        false,
        "1:7: Unexpected token in object 6..7\n1:1: Unterminated object 0..7\n",
    ),
    (
        "[1,,]",
        false,
        true,
        "1:4: Unexpected comma 3..4\n1:4: Trailing commas are not allowed 3..4\n",
    ),
    (
        "{\", ,ul, \"b\": tue}",
        true,
        false,
        "1:11: Unexpected token 10..11\n1:12: Unterminated string literal 11..18\n1:15: Unexpected token 14..17\n",
    ),
    (
        "{\"a\": 1, : 2, \"a\": 3 /* TODO",
        true,
        false,
        "1:10: Unexpected token in object 9..10\n1:22: Unterminated comment block 21..28\n1:1: Unterminated object 0..28\n1:15: Name stands twice: \"a\", first on line 1 column 2 14..20\n1:22: Comment says TODO 21..28\n",
    ),
];

/// What came of linting the text of a row, printed.
pub fn outcome_of_whole<A: Allocator + Copy>(heap: A, row: WholeRow) -> Outcome {
    let (text, has_comments, trailing_commas, wanted) = row;
    let options = if has_comments {
        ParseOptions::jsonc()
    } else {
        ParseOptions::json()
    };
    match lint_all(heap, text, &options, Rules { trailing_commas }) {
        Ok(findings) => printed_as(heap, &findings, wanted),
        Err(error) => Outcome::from(error),
    }
}

#[test]
fn texts_with_faults_are_linted(rt: HostRuntime) -> Result<(), Fail> {
    for number in 0..WHOLE_ROWS.len() {
        assert!(rt;
            outcome_of_whole(rt.alloc(), WHOLE_ROWS[number]) == Outcome::Answered,
            "row {number}"
        );
    }
    Ok(())
}
