//! Each rule of the layout by its rows: a text, how it is formatted, and what it becomes.

use failing_alloc::in_turn::answers_in_turn;
use failing_alloc::outcome::Outcome;
use jsonc_format::format::format_text;
use jsonc_format::style::{Level, LineEnd, Style};
use jsonc_text::options::ParseOptions;
use std::alloc::{Allocator, Global};

/// Nothing is asked for.
const OWN: Style = Style {
    line_end: None,
    level: None,
    expand: false,
};

const EXPANDED: Style = Style {
    line_end: None,
    level: None,
    expand: true,
};

const FOUR: Style = Style {
    line_end: None,
    level: Some(Level::Spaces(4)),
    expand: false,
};

const TABS: Style = Style {
    line_end: Some(LineEnd::CrLf),
    level: Some(Level::Tab),
    expand: true,
};

type Row = (&'static str, Style, &'static str);

/// Containers on one line and on several, commas, colons and brackets.
static ENTRIES: [Row; 12] = [
    (
        "{\"a\":1,\"b\":[1,2]}",
        OWN,
        "{ \"a\": 1, \"b\": [1, 2] }\n",
    ),
    (
        "{ \"a\": 1,\n\"b\": [1,2] }",
        OWN,
        "{\n  \"a\": 1,\n  \"b\": [1, 2]\n}\n",
    ),
    ("[ 1 , 2 ]", EXPANDED, "[\n  1,\n  2\n]\n"),
    ("[\n]", OWN, "[]\n"),
    ("{ \"a\": [ ] }", EXPANDED, "{\n  \"a\": []\n}\n"),
    (
        "[[1,\n2],[3]]",
        OWN,
        "[\n  [\n    1,\n    2\n  ],\n  [3]\n]\n",
    ),
    ("[\"\n\", 1]", OWN, "[\n  \"\n\",\n  1\n]\n"),
    ("{\"a\"\n:\n1}", OWN, "{\n  \"a\": 1\n}\n"),
    ("[1 2\n]", OWN, "[\n  1\n  2\n]\n"),
    ("[1 2]", OWN, "[1 2]\n"),
    ("[1,2,]", OWN, "[1, 2,]\n"),
    (" \n ", OWN, ""),
];

/// Indents, ends of lines and blank lines.
static LINES: [Row; 10] = [
    (
        "{\n\t\"a\": [\n1\n]\n}",
        OWN,
        "{\n\t\"a\": [\n\t\t1\n\t]\n}\n",
    ),
    ("[\n1]", FOUR, "[\n    1\n]\n"),
    ("[1]", TABS, "[\r\n\t1\r\n]\r\n"),
    ("[\r\n1, 2]", OWN, "[\r\n  1,\r\n  2\r\n]\r\n"),
    ("[\r1]", OWN, "[\r  1\r]\r"),
    ("[1]\r\n", OWN, "[1]\r\n"),
    ("[\n\n\n1,\n\n\n2\n\n]", OWN, "[\n  1,\n\n  2\n]\n"),
    ("\n\n[1]\n\n", OWN, "[1]\n"),
    ("[\r\n1,\r\n\r\n2]", OWN, "[\r\n  1,\r\n\r\n  2\r\n]\r\n"),
    (
        "[\n1, /* a\n      b */ 2]",
        OWN,
        "[\n  1,\n  /* a\n      b */ 2\n]\n",
    ),
];

/// Comments stay on their lines, and after a line comment a line begins.
static COMMENTS: [Row; 12] = [
    (
        "{ // head\n\n\"a\": 1 } // end",
        OWN,
        "{ // head\n\n  \"a\": 1\n} // end\n",
    ),
    (
        "[1 /* one */, /* two */ 2\n]",
        OWN,
        "[\n  1 /* one */,\n  /* two */ 2\n]\n",
    ),
    ("[1 // one\n, 2]", OWN, "[\n  1 // one\n  ,\n  2\n]\n"),
    ("[1, // one  \n2]", OWN, "[\n  1, // one\n  2\n]\n"),
    ("[/* a */1/* b */,2]", OWN, "[/* a */ 1 /* b */, 2]\n"),
    ("{/* a */}", OWN, "{ /* a */ }\n"),
    ("[// a\n]", OWN, "[ // a\n]\n"),
    ("// a\n\n\n// b\n[1]", OWN, "// a\n\n// b\n[1]\n"),
    ("{\n\"a\": // c\n1 }", OWN, "{\n  \"a\": // c\n    1\n}\n"),
    (
        "{\"a\" // c\n: // d\n{ \"b\": [\n1] } }",
        OWN,
        "{\n  \"a\" // c\n    : // d\n    {\n      \"b\": [\n        1\n      ]\n    }\n}\n",
    ),
    (
        "{\"a\": // c\n[], \"b\": 1 }",
        OWN,
        "{\n  \"a\": // c\n    [],\n  \"b\": 1\n}\n",
    ),
    ("{\"a\":\n/* c */\n1}", OWN, "{\n  \"a\": /* c */ 1\n}\n"),
];

/// What came of a row under an allocator.
fn comes<A: Allocator + Copy>(alloc: A, row: &Row) -> Outcome {
    let (text, style, formatted) = row;
    Outcome::of_text(
        format_text(alloc, text, &ParseOptions::default(), style),
        formatted,
    )
}

/// Whether each row becomes its text, once more as it is, and with each request for memory refused in turn.
///
/// The spare room of a list is given back by a request for less, and a text is formatted though that was refused.
fn holds(alloc: Global, rows: &[Row]) -> bool {
    for row in rows {
        let again = (row.2, row.1, row.2);
        if !answers_in_turn(alloc, |heap| comes(heap, row)) {
            return false;
        }
        if comes(alloc, &again) != Outcome::Answered {
            return false;
        }
    }
    true
}

#[test]
fn entries_have_lines(rt: HostRuntime) {
    assert!(rt; holds(rt.alloc(), &ENTRIES));
}

#[test]
fn lines_begin_and_end(rt: HostRuntime) {
    assert!(rt; holds(rt.alloc(), &LINES));
}

#[test]
fn comments_stay(rt: HostRuntime) {
    assert!(rt; holds(rt.alloc(), &COMMENTS));
}
