//! The gaps that differ between a text and another one, by rows.

use failing_alloc::in_turn::{is_refused_in_turn, refused_in_turn};
use failing_alloc::outcome::Outcome;
use jsonc_changes::format_changes;
use jsonc_format::format::format_text;
use jsonc_format::style::Style;
use jsonc_mends::TextChange;
use jsonc_text::common::Range;
use jsonc_text::options::ParseOptions;
use std::alloc::{Allocator, Global};
use std::default::Default;

/// Where a change begins and ends, and what it writes.
type Change = (usize, usize, &'static str);

type Row = (&'static str, &'static str, &'static [Change]);

/// Texts with their formatted texts.
static FORMATTED: [Row; 4] = [
    (
        "{\"a\":1}",
        "{ \"a\": 1 }\n",
        &[(1, 1, " "), (5, 5, " "), (6, 6, " "), (7, 7, "\n")],
    ),
    (
        "[\r\n\t1 ,\r\n\r\n\r\n2]\r\n",
        "[\r\n\t1,\r\n\r\n\t2\r\n]\r\n",
        &[(5, 6, ""), (7, 13, "\r\n\r\n\t"), (14, 14, "\r\n")],
    ),
    (
        "\n\n[1] // é \u{3000}\n",
        "[1] // é\n",
        &[(0, 2, ""), (11, 16, "\n")],
    ),
    ("\u{a0}\n", "", &[(0, 3, "")]),
];

/// Texts that are their own formatted texts, which wants no memory.
static SAME: [Row; 2] = [("[1, 2]\n", "[1, 2]\n", &[]), ("", "", &[])];

/// Texts that differ in more than blanks: all from the gap before the first difference on is one change.
static OTHERS: [Row; 5] = [
    ("[1,2]", "[ 1,3]", &[(1, 1, " "), (3, 5, "3]")]),
    ("[1 ,2]", "[1 , 3]", &[(4, 6, " 3]")]),
    ("[1]", "", &[(0, 3, "")]),
    ("", " [1]", &[(0, 0, " [1]")]),
    ("[é]", "[è]", &[(1, 4, "è]")]),
];

/// Whether a row has this change at a number.
fn is_there(changes: &[Change], number: usize, change: &TextChange<'_>) -> bool {
    match changes.get(number) {
        Some((start, end, text)) => {
            change.range == Range::new(*start, *end) && change.new_text == *text
        }
        None => false,
    }
}

/// Whether these are the row's changes.
fn are_there(changes: &[Change], found: &[TextChange<'_>]) -> bool {
    if found.len() != changes.len() {
        return false;
    }
    for (number, change) in found.iter().enumerate() {
        if !is_there(changes, number, change) {
            return false;
        }
    }
    true
}

/// What came of a row under an allocator.
fn comes<A: Allocator + Copy>(alloc: A, row: &Row) -> Outcome {
    let (old, new, changes) = row;
    match format_changes(alloc, old, new) {
        Ok(found) => Outcome::of(are_there(changes, found.as_slice())),
        Err(error) => error.into(),
    }
}

/// What came of the row of a number.
fn comes_at<A: Allocator + Copy>(alloc: A, rows: &[Row], number: usize) -> Outcome {
    match rows.get(number) {
        Some(row) => comes(alloc, row),
        None => Outcome::Other,
    }
}

fn formatted_comes<A: Allocator + Copy>(alloc: A, number: usize) -> Outcome {
    comes_at(alloc, &FORMATTED, number)
}

fn same_comes<A: Allocator + Copy>(alloc: A, number: usize) -> Outcome {
    comes_at(alloc, &SAME, number)
}

fn other_comes<A: Allocator + Copy>(alloc: A, number: usize) -> Outcome {
    comes_at(alloc, &OTHERS, number)
}

/// Whether the new text of each row is what the old one is formatted to.
fn is_formatted(alloc: Global, rows: &[Row]) -> bool {
    for row in rows {
        let made = format_text(alloc, row.0, &ParseOptions::default(), &Style::default());
        if Outcome::of_text(made, row.1) != Outcome::Answered {
            return false;
        }
    }
    true
}

#[test]
fn gaps_that_differ_are_changes(rt: HostRuntime) {
    for number in 0..FORMATTED.len() {
        assert!(rt; is_refused_in_turn(rt.alloc(), |heap| formatted_comes(heap, number)));
    }
    assert!(rt; is_formatted(rt.alloc(), &FORMATTED));
}

#[test]
fn a_formatted_text_has_no_changes(rt: HostRuntime) {
    for number in 0..SAME.len() {
        assert!(rt; refused_in_turn(rt.alloc(), |heap| same_comes(heap, number)) == Some(0));
    }
    assert!(rt; is_formatted(rt.alloc(), &SAME));
}

#[test]
fn other_differences_are_one_change(rt: HostRuntime) {
    for number in 0..OTHERS.len() {
        assert!(rt; is_refused_in_turn(rt.alloc(), |heap| other_comes(heap, number)));
    }
}
