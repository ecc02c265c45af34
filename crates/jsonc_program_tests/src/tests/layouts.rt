//! Layouts: what the program makes of texts by them, and what it mends, with memory refused in turn.

use crate::tests::edits::is_of_memory;
use failing_alloc::in_turn::{answers_in_turn, is_refused_in_turn};
use failing_alloc::outcome::Outcome;
use jsonc_engine::fault::Fault;
use jsonc_format::{Level, Style};
use jsonc_parser::ParseOptions;
use jsonc_parser::cst::TrailingCommaMode;
use jsonc_program::edit::EditFault;
use jsonc_program::formatting::{format_diff, laid_out};
use jsonc_program::layout::Layout;
use jsonc_program::mending::mends_of;
use std::alloc::Allocator;
use std::test::Fail;

const OWN: Style = Style {
    line_end: None,
    level: None,
    expand: false,
};

const TABS: Style = Style {
    line_end: None,
    level: Some(Level::Tab),
    expand: true,
};

const STAY: Option<TrailingCommaMode> = None;

const SET: Option<TrailingCommaMode> = Some(TrailingCommaMode::IfMultiline);

const GONE: Option<TrailingCommaMode> = Some(TrailingCommaMode::Never);

/// A style, what becomes of trailing commas, a text, and what it becomes.
type Row = (Style, Option<TrailingCommaMode>, &'static str, &'static str);

/// Commas are set in what the formatter has put on several lines, by the rules of both.
static ROWS: [Row; 10] = [
    (OWN, STAY, "[1,2]", "[1, 2]\n"),
    (OWN, STAY, "[1,]", "[1,]\n"),
    (OWN, SET, "[1,2]", "[1, 2]\n"),
    (OWN, SET, "[\n1,\n2 // two\n]", "[\n  1,\n  2, // two\n]\n"),
    (
        OWN,
        SET,
        "[{\"a\": 1,\n\"b\": [2]}]",
        "[\n  {\n    \"a\": 1,\n    \"b\": [2],\n  },\n]\n",
    ),
    (TABS, SET, "[[],2]", "[\n\t[],\n\t2,\n]\n"),
    (OWN, GONE, "[1,[2,\n],]", "[\n  1,\n  [\n    2\n  ]\n]\n"),
    (OWN, GONE, "", ""),
    (OWN, SET, "// one", "// one\n"),
    (TABS, GONE, "{}", "{}\n"),
];

/// What came of the layout of a number.
fn outcome_at<A: Allocator + Copy>(heap: A, number: usize) -> Outcome {
    let Some((style, trailing_commas, input, output)) = ROWS.get(number) else {
        return Outcome::Other;
    };
    let layout = Layout {
        style: *style,
        trailing_commas: *trailing_commas,
    };
    match laid_out(heap, &ParseOptions::default(), &layout, input.as_bytes()) {
        Ok(text) => Outcome::of(text.as_str() == *output),
        Err(fault) if is_of_memory(&fault) => Outcome::Wanted,
        Err(_) => Outcome::Other,
    }
}

/// The spare room of a list is given back by a request for less, and a text is formatted though that was refused.
#[test]
fn each_request_of_a_layout_is_refused_in_turn(rt: HostRuntime) -> Result<(), Fail> {
    for number in 0..ROWS.len() {
        assert!(rt;
            answers_in_turn(rt.alloc(), |heap| outcome_at(heap, number)),
            "layout {number}"
        );
    }
    Ok(())
}

/// What came of the diff of a file with a byte order mark.
fn outcome_of_diff<A: Allocator + Copy>(heap: A) -> Outcome {
    let layout = Layout {
        style: OWN,
        trailing_commas: STAY,
    };
    let old = "\u{feff}[1,2]\n";
    let diff = "--- f\n+++ f\n@@ -1 +1 @@\n-\u{feff}[1,2]\n+\u{feff}[1, 2]\n";
    match format_diff(heap, &ParseOptions::default(), &layout, "f", old.as_bytes()) {
        Ok(text) => Outcome::of(text.as_str() == diff),
        Err(fault) if is_of_memory(&fault) => Outcome::Wanted,
        Err(_) => Outcome::Other,
    }
}

#[test]
fn each_request_of_a_diff_of_a_file_is_refused_in_turn(rt: HostRuntime) -> Result<(), Fail> {
    assert!(rt; answers_in_turn(rt.alloc(), |heap| outcome_of_diff(heap)));
    Ok(())
}

/// What came of mending a text of JSONC.
fn outcome_of_mends<A: Allocator + Copy>(heap: A) -> Outcome {
    match mends_of(heap, &ParseOptions::jsonc(), b"{\"a\": 1 \"b\": 2,, }") {
        Ok(mends) => Outcome::of(
            mends.text() == "{\"a\": 1, \"b\": 2, }" && mends.list().len() == 2,
        ),
        Err(fault) if is_of_memory(&fault) => Outcome::Wanted,
        Err(_) => Outcome::Other,
    }
}

#[test]
fn each_request_of_mends_is_refused_in_turn(rt: HostRuntime) -> Result<(), Fail> {
    assert!(rt; is_refused_in_turn(rt.alloc(), |heap| outcome_of_mends(heap)));
    Ok(())
}

#[test]
fn bytes_that_are_no_text_are_refused(rt: HostRuntime) -> Result<(), Fail> {
    let layout = Layout {
        style: OWN,
        trailing_commas: STAY,
    };
    let options = ParseOptions::default();
    match laid_out(rt.alloc(), &options, &layout, b"[\xff]") {
        Err(EditFault::Engine(Fault::NotUtf8)) => {}
        _ => assert!(rt; false),
    }
    match mends_of(rt.alloc(), &options, b"[\xff]") {
        Err(EditFault::Engine(Fault::NotUtf8)) => {}
        _ => assert!(rt; false),
    }
    Ok(())
}
