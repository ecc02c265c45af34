//! Lines and columns of places in a text, and places by line and column.

ghost use Rattle.std.specs.Prelude.{◌≡◌, ◌+◌, ◌<◌, ◌≤◌, ◌^◌, ℕ, chars, length, IfNone, IfSome, IsCharBoundary, IsTrue};
ghost use Rattle.jsonc_text.specs.Places.{LineColumn};
ghost use Rattle.jsonc_text.specs.Text.{Spans};
ghost use Rattle.jsonc_parser.specs.Places.{LineColumnBy, LineColumnUtf16, StepsPast, past, units};

pub mod laws;

use jsonc_text::chars::char_at;
use jsonc_text::line::ends_line;
pub use jsonc_text::line::{LineAndColumn, line_and_column};

/// What a column counts.
#[derive(Clone, Copy)]
pub(crate) enum ColumnUnit {
    /// Characters, whatever their size.
    Character,
    /// UTF-16 code units, of which a character above U+FFFF takes two.
    Utf16,
}

impl ColumnUnit {
    /// How many of these units a character takes.
    fn units(self, c: char) -> usize
        ensures { result ≡ units self c }
    {
        match self {
            ColumnUnit::Character => 1,
            ColumnUnit::Utf16 => c.len_utf16(),
        }
    }
}

/// The line and column after the character `c`, which is at `at` and before `rest`.
fn past(at: LineAndColumn, c: char, rest: &str, unit: ColumnUnit) -> LineAndColumn
    requires line { at.line + 1 < 2 ^ 64 }
    requires column { at.column + 2 < 2 ^ 64 }
    ensures { (result.line, result.column) ≡ past (units unit) (at.line, at.column) c (chars rest.now) }
{
    if ends_line(c, rest) {
        LineAndColumn {
            line: at.line + 1,
            column: 1,
        }
    } else {
        LineAndColumn {
            line: at.line,
            column: at.column + unit.units(c),
        }
    }
}

/// A place that a walk has reached, and its line and column.
#[derive(Clone, Copy)]
struct Reached {
    place: usize,
    at: LineAndColumn,
}

/// Whether a byte is a character that takes one column, in any unit, and ends no line.
fn is_plain(byte: u8) -> bool
    ensures { IsTrue result → (0x20 ≤ byte) × (byte < 0x7F) }
{
    byte >= b' ' && byte <= b'~'
}

/// A walk's next step, over one character. A plain one is not decoded.
#[inline(always)]
fn step(text: &str, from: Reached, unit: ColumnUnit) -> Reached
    requires boundary { IsCharBoundary text.now from.place }
    requires inside { from.place < length text.now }
    requires line { from.at.line + 1 < 2 ^ 64 }
    requires column { from.at.column + 2 < 2 ^ 64 }
    ensures { StepsPast (units unit) text.now from result }
{
    let bytes = text.as_bytes();
    let byte = bytes[from.place];
    if is_plain(byte) {
        let at = LineAndColumn {
            line: from.at.line,
            column: from.at.column + 1,
        };
        return Reached {
            place: from.place + 1,
            at,
        };
    }
    let Some(c) = char_at(text, from.place) else {
        unreachable!()
    };
    let place = from.place + c.len_utf8();
    let at = past(from.at, c, &text[place..], unit);
    Reached { place, at }
}

/// The line and column of a place, by a walk from a place before it, or from itself, which is in the line and column `at`.
pub(crate) fn walk_to(
    text: &str,
    from: usize,
    at: LineAndColumn,
    place: usize,
    unit: ColumnUnit,
) -> LineAndColumn
    requires spans { Spans text.now from place }
    requires at { LineColumnBy (units unit) (chars text.now) from at.line at.column }
    ensures { LineColumnBy (units unit) (chars text.now) place result.line result.column }
{
    let mut reached = Reached { place: from, at };
    while reached.place < place {
        reached = step(text, reached, unit);
    }
    reached.at
}

/// The place of a line and column, looked for from a place that is in the line and column `at` and not after it.
pub(crate) fn place_from(
    text: &str,
    from: usize,
    at: LineAndColumn,
    target: LineAndColumn,
    unit: ColumnUnit,
) -> Option<usize>
    requires boundary { IsCharBoundary text.now from }
    requires at { LineColumnBy (units unit) (chars text.now) from at.line at.column }
    requires ahead { (p : ℕ)
        → LineColumnBy (units unit) (chars text.now) p target.line target.column → from ≤ p }
    ensures found { IfSome result
        (λ p. LineColumnBy (units unit) (chars text.now) p target.line target.column) }
    ensures boundary { IfSome result (IsCharBoundary text.now) }
    ensures none { IfNone result
        ((p : ℕ) → LineColumnBy (units unit) (chars text.now) p target.line target.column → ⊥) }
{
    let mut rest = text[from..].chars();
    let mut here = at;
    loop {
        let left = rest.as_str();
        if here.line == target.line && here.column == target.column {
            return Some(text.len() - left.len());
        }
        if here.line > target.line {
            return None;
        }
        let Some(c) = rest.next() else {
            return None;
        };
        here = past(here, c, rest.as_str(), unit);
    }
}

/// The place of a line and column, both counted from 1, if the text has them.
///
/// The place is counted in bytes and the column in characters, as in a `ParseError`. LF, CR LF and CR
/// alone end a line. Its last place is the one before its LF or CR; of CR LF it is the one between the two, which
/// in `a\r\nb` is line 1, column 3. Nothing is allocated. In `{\n  "a": 1\n}` line 2, column 3 is place 4, and
/// line 2 has no column 10.
pub fn place_of(text: &str, line: usize, column: usize) -> Option<usize>
    ensures found { IfSome result (λ p. LineColumn (chars text.now) p line column) }
    ensures boundary { IfSome result (IsCharBoundary text.now) }
    ensures none { IfNone result ((p : ℕ) → LineColumn (chars text.now) p line column → ⊥) }
{
    let start = LineAndColumn { line: 1, column: 1 };
    let target = LineAndColumn { line, column };
    place_from(text, 0, start, target, ColumnUnit::Character)
}

/// The place of a line and a UTF-16 column, if the text has them.
///
/// Line and column are counted from 1, the column in UTF-16 code units, and the place in bytes. A
/// character above U+FFFF takes two units, and no place is within it. A language server counts lines
/// and columns from 0, so add 1 to both of its numbers. Lines end as in [`place_of`], and nothing is
/// allocated. In `a😀b` line 1, column 4 is place 5, and column 3 is no place.
pub fn place_of_utf16(text: &str, line: usize, column: usize) -> Option<usize>
    ensures found { IfSome result (λ p. LineColumnUtf16 (chars text.now) p line column) }
    ensures boundary { IfSome result (IsCharBoundary text.now) }
    ensures none { IfNone result ((p : ℕ) → LineColumnUtf16 (chars text.now) p line column → ⊥) }
{
    let start = LineAndColumn { line: 1, column: 1 };
    let target = LineAndColumn { line, column };
    place_from(text, 0, start, target, ColumnUnit::Utf16)
}

/// The line and the UTF-16 column of a place.
///
/// Line and column are counted from 1, the column in UTF-16 code units and not in characters, and the
/// place in bytes. A character above U+FFFF takes two units. A language server counts lines and
/// columns from 0, so take 1 off both. Lines end as in [`line_and_column`]. Nothing is allocated; the
/// characters before the place are passed once. In `a😀b` place 5 is in line 1, column 4.
pub fn line_and_column_utf16(text: &str, place: usize) -> LineAndColumn
    requires { IsCharBoundary text.now place }
    ensures { LineColumnUtf16 (chars text.now) place result.line result.column }
{
    let start = LineAndColumn { line: 1, column: 1 };
    walk_to(text, 0, start, place, ColumnUnit::Utf16)
}
