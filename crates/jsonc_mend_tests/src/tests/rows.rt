//! Texts with faults, the texts that their changes make, and how many these are, by a second implementation of the rules.

use jsonc_text::options::ParseOptions;
use std::default::Default;

/// Which options a text is read with.
#[derive(Clone, Copy)]
pub enum Dialect {
    Json,
    Jsonc,
    All,
}

/// The options of a dialect.
pub fn options_of(dialect: Dialect) -> ParseOptions {
    match dialect {
        Dialect::Json => ParseOptions::json(),
        Dialect::Jsonc => ParseOptions::jsonc(),
        Dialect::All => ParseOptions::default(),
    }
}

/// Options, a text, the text with all changes made, and their number.
pub type Row = (Dialect, &'static str, &'static str, usize);

/// Faults of containers, strings and names.
pub static CONTAINERS: [Row; 37] = [
    (Dialect::Jsonc, "{\"a\": }", "{\"a\": null }", 1),
    (Dialect::Jsonc, "{\"a\"", "{\"a\": null}", 1),
    (Dialect::Jsonc, "{\"a\":", "{\"a\": null}", 1),
    (
        Dialect::Jsonc,
        "{\"a\": 1, \"b",
        "{\"a\": 1, \"b\": null}",
        2,
    ),
    (Dialect::Jsonc, "[1, 2 // c", "[1, 2 // c\n]", 1),
    (Dialect::Jsonc, "{\"a\": 1,", "{\"a\": 1,}", 1),
    (
        Dialect::Jsonc,
        "{\"a\": 1\n \"b\": 2}",
        "{\"a\": 1,\n \"b\": 2}",
        1,
    ),
    (
        Dialect::Jsonc,
        "{\"a\": [1, 2, \"b\": 3}",
        "{\"a\": [1, 2], \"b\": 3}",
        1,
    ),
    (
        Dialect::Jsonc,
        "{\"a\": [1, 2}, \"b\": 3}",
        "{\"a\": [1, 2], \"b\": 3}",
        1,
    ),
    (
        Dialect::Jsonc,
        "{\"a\": [1, 2]], \"b\": 3}",
        "{\"a\": [1, 2], \"b\": 3}",
        1,
    ),
    (
        Dialect::Jsonc,
        "[{\"a\": 1, {\"b\": 2}]",
        "[{\"a\": 1}, {\"b\": 2}]",
        1,
    ),
    (Dialect::Jsonc, "[\"b\": 1]", "{\"b\": 1}", 2),
    (
        Dialect::Jsonc,
        "{\"a\": ]1, 2], \"b\": 3}",
        "{\"a\": [1, 2], \"b\": 3}",
        1,
    ),
    (
        Dialect::Jsonc,
        "{\"a\": {\"b\": 1}}, \"c\": 2}",
        "{\"a\": {\"b\": 1}, \"c\": 2}",
        1,
    ),
    (Dialect::Jsonc, "{\"a\": 1} {\"b\": 2}", "{\"a\": 1} ", 1),
    (
        Dialect::Jsonc,
        "\"a\": 1, \"b\": 2",
        "{\"a\": 1, \"b\": 2}",
        2,
    ),
    (
        Dialect::Jsonc,
        "{\"a\":\n \"b\": 1}",
        "{\"a\": null,\n \"b\": 1}",
        1,
    ),
    (
        Dialect::Jsonc,
        "{\"a\": \"x,\n \"b\": 1}",
        "{\"a\": \"x\",\n \"b\": 1}",
        1,
    ),
    (
        Dialect::Jsonc,
        "{\"a: 1,\n \"b\": 2}",
        "{\"a\": 1,\n \"b\": 2}",
        1,
    ),
    (
        Dialect::Jsonc,
        "{\"a\": \"x\"\", \"b\": 2}",
        "{\"a\": \"x\", \"b\": 2}",
        1,
    ),
    (
        Dialect::Jsonc,
        "{\"a\": \"\"x\", \"b\": 2}",
        "{\"a\": \"x\", \"b\": 2}",
        1,
    ),
    (Dialect::Jsonc, "{a\": 1}", "{\"a\": 1}", 1),
    (
        Dialect::Jsonc,
        "{\"a\": hello world\", \"b\": 2}",
        "{\"a\": \"hello world\", \"b\": 2}",
        1,
    ),
    (Dialect::Jsonc, "[\"abc]", "[\"abc\"]", 1),
    (Dialect::Jsonc, "{\"a\" = 1}", "{\"a\" : 1}", 1),
    (
        Dialect::Jsonc,
        "{\"a\", \"b\": 1}",
        "{\"a\": null, \"b\": 1}",
        1,
    ),
    (Dialect::Jsonc, "{\"a\":: 1}", "{\"a\": 1}", 1),
    (
        Dialect::Jsonc,
        "{\"a\": 1;\n\"b\": 2;}",
        "{\"a\": 1,\n\"b\": 2}",
        2,
    ),
    (Dialect::Jsonc, "{: 1}", "{\"\": 1}", 1),
    (Dialect::Jsonc, "{{\"a\": 1}}", "{\"a\": 1}", 2),
    (Dialect::Jsonc, "[,1]", "[1]", 1),
    (
        Dialect::Jsonc,
        "module.exports = {\"a\": 1};",
        " {\"a\": 1}",
        2,
    ),
    (Dialect::Jsonc, "\u{feff}{}", "{}", 1),
    (Dialect::Jsonc, "[[[", "[[[]]]", 1),
    (Dialect::Jsonc, "@", "", 1),
    (Dialect::All, "{a: 1, foo}", "{a: 1, foo: null}", 1),
    (Dialect::Json, "[1,, 2,]", "[1, 2]", 2),
];

/// Faults of commas, words, numbers, escapes and comments.
pub static LEXEMES: [Row; 17] = [
    (
        Dialect::Jsonc,
        "[01, 007, 1.5.2, 1e, 1e+, -, 0x]",
        "[1, 7, \"1.5.2\", 1e0, 1e+0, -0, 0]",
        7,
    ),
    (
        Dialect::Jsonc,
        "[0x1F, +1, .5, 5., 12px, 2024-01-02]",
        "[31, 1, 0.5, 5, \"12px\", \"2024-01-02\"]",
        6,
    ),
    (
        Dialect::Jsonc,
        "[tru, True, None, NaN, -Infinity, foo bar, a\\b]",
        "[\"tru\", true, null, null, null, \"foo bar\", \"a\\\\b\"]",
        7,
    ),
    (
        Dialect::Jsonc,
        "[\"C:\\path\\u12\"]",
        "[\"C:\\\\path\\\\u12\"]",
        2,
    ),
    (
        Dialect::Jsonc,
        "[\"it\\'s\", \"\\uD834\"]",
        "[\"it's\", \"\\ufffd\"]",
        2,
    ),
    (Dialect::Jsonc, "{'a': 'b\"c'}", "{\"a\": \"b\\\"c\"}", 2),
    (Dialect::Jsonc, "[it's]", "[\"it's\"]", 1),
    (
        Dialect::Jsonc,
        "{\"a\": /* x\n \"b\": 1}",
        "{\"a\": /* x*/ null,\n \"b\": 1}",
        2,
    ),
    (
        Dialect::Jsonc,
        "/*\n * a\n * b\n{}",
        "/*\n * a\n * b*/\n{}",
        1,
    ),
    (Dialect::Jsonc, "[1/**/2]", "[1,/**/2]", 1),
    (
        Dialect::Jsonc,
        "[\"\u{e9}\" \"\u{4e2d}\", \u{1f600}]",
        "[\"\u{e9}\", \"\u{4e2d}\", ]",
        2,
    ),
    (Dialect::Json, "[1 // c\n]", "[1 \n]", 1),
    (Dialect::Json, "[1, // c\n]", "[1\n]", 1),
    (Dialect::Json, "[1/**/2]", "[1 ,2]", 2),
    (Dialect::All, "['a\n b", "['a'\n \"b\"]", 3),
    (Dialect::All, "{a=1, b 2}", "{a:1, b: 2}", 2),
    (Dialect::All, "[\"\\q\", '\\x4']", "[\"\\q\", '\\\\x4']", 1),
];
