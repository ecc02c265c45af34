//! Lines and columns of places in a text.
ghost use Rattle.std.specs.Prelude.{◌≡◌, IsCharBoundary, chars};
ghost use Rattle.jsonc_text.specs.Text.{rest};
ghost use Rattle.jsonc_text.specs.Places.{LineColumn, ends_line};

use crate::chars::char_at;

/// A line and a column in it, both counted from 1; the call that tells it says what a column counts.
#[derive(Clone, Copy, Debug, PartialEq, Eq)]
pub struct LineAndColumn {
    pub line: usize,
    pub column: usize,
}

/// Whether the character before these ones ends a line: an LF, or a CR that no LF follows.
pub fn ends_line(c: char, rest: &str) -> bool
    ensures { result ≡ ends_line c (chars rest.now) }
{
    c == '\n' || c == '\r' && rest.chars().next() != Some('\n')
}

/// The line and the column of a place that is counted in bytes, as in a `ParseError`.
///
/// LF, CR LF and CR alone end a line. Nothing is allocated; the characters before the place are
/// passed once. In `{\n  "a": 1\n}` place 4 is in line 2, column 3.
pub fn line_and_column(text: &str, place: usize) -> LineAndColumn
    requires { IsCharBoundary text.now place }
    ensures { LineColumn (chars text.now) place result.line result.column }
{
    let before = &text[..place];
    let mut line = 1;
    let mut column = 1;
    let mut at = 0;
    while let Some(c) = char_at(before, at) {
        at += c.len_utf8();
        if ends_line(c, &text[at..]) {
            line += 1;
            column = 1;
        } else {
            column += 1;
        }
    }
    LineAndColumn { line, column }
}
