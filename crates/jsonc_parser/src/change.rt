//! What has changed between two texts.

ghost use Rattle.std.specs.Bool.{Decides};
ghost use Rattle.std.specs.Prelude.{chars, IsCharBoundary, IsUtf8};
ghost use Rattle.jsonc_text.specs.Text.{Spans};
ghost use Rattle.jsonc_parser.specs.Changes.{BeginsApart, EndsApart, EndsOutside, IsInsideCrLf, IsLeastChange, IsOnLines};
ghost use Rattle.jsonc_parser.specs.Changes.{IsLeastOutside, IsUtf16Change, StartsOutside};

use crate::places::{ColumnUnit, walk_to};
use jsonc_mends::TextChange;
use jsonc_text::common::Range;
use jsonc_text::line::LineAndColumn;

// What follows the longest common beginning of two texts, in each.
fn after_common_start<'o, 'n>(old: &'o str, new: &'n str) -> (&'o str, &'n str)
    ensures utf8 { IsUtf8 result.0.now × IsUtf8 result.1.now }
    ensures parts { BeginsApart (chars old.now) (chars new.now) (chars result.0.now) (chars result.1.now) }
{
    let mut olds = old.chars();
    let mut news = new.chars();
    loop {
        let (was, now) = (olds.as_str(), news.as_str());
        let Some(first) = olds.next() else {
            return (was, now);
        };
        let Some(other) = news.next() else {
            return (was, now);
        };
        if other != first {
            return (was, now);
        }
    }
}

// What is before the longest common end of two texts, in each.
fn before_common_end<'o, 'n>(old: &'o str, new: &'n str) -> (&'o str, &'n str)
    ensures utf8 { IsUtf8 result.0.now × IsUtf8 result.1.now }
    ensures parts { EndsApart (chars old.now) (chars new.now) (chars result.0.now) (chars result.1.now) }
{
    let (mut was, mut now) = (old, new);
    let mut olds = old.chars();
    let mut news = new.chars();
    loop {
        let Some(last) = olds.next_back() else {
            return (was, now);
        };
        let Some(other) = news.next_back() else {
            return (was, now);
        };
        let (old_left, new_left) = (olds.as_str(), news.as_str());
        if other != last {
            return (was, now);
        }
        was = old_left;
        now = new_left;
    }
}

/// The smallest change that makes the new text of the old one, which may begin or end inside a CR LF.
///
/// With the bytes `range` of `old` replaced by `new_text` it is `new`. The range lies between
/// characters. No other change of whole characters replaces fewer bytes or begins later. An editor
/// hands the change to its buffer, and the cursor stays. Nothing is allocated.
///
/// From `{"a": 1}` to `{"a": 12}` it is `2` at the empty range from 7 to 7.
pub fn text_change<'n>(old: &str, new: &'n str) -> TextChange<'n>
    ensures least { IsLeastChange (chars old.now) (chars new.now) result.range.start result.range.end (chars result.new_text.now) }
    ensures span { Spans old.now result.range.start result.range.end }
{
    let (was, now) = after_common_start(old, new);
    let start = old.len() - was.len();
    let (was, now) = before_common_end(was, now);
    TextChange {
        range: Range::new(start, start + was.len()),
        new_text: now,
    }
}

/// A stretch of a text by lines and columns, and the text that replaces it.
///
/// Lines and columns count from 1, and a column counts UTF-16 code units. A language server counts both
/// from 0, so take 1 off each.
#[derive(Clone, Copy, Debug, PartialEq, Eq)]
pub struct Utf16Change<'n> {
    /// Where in the old text the stretch begins.
    pub start: LineAndColumn,
    /// Where in the old text it ends.
    pub end: LineAndColumn,
    /// The text in its place.
    pub new_text: &'n str,
}

impl<'n> Utf16Change<'n> {
    /// Whether it touches a line from the first to the last of these, both counted from 1.
    ///
    /// It does where the stretch begins no later than the last line and ends no earlier than the first one. The change of a gap
    /// from the end of line 2 to the indent of line 3 is on both.
    pub fn is_on_lines(&self, first: usize, last: usize) -> bool
        ensures { Decides result (IsOnLines self.now first last) }
    {
        self.start.line <= last && first <= self.end.line
    }
}

// Whether a place of a text is between the CR and the LF of a CR LF.
fn is_inside_cr_lf(text: &str, place: usize) -> bool
    requires { IsCharBoundary text.now place }
    ensures { Decides result (IsInsideCrLf (chars text.now) place) }
{
    if !text[..place].ends_with('\r') {
        return false;
    }
    text[place..].starts_with('\n')
}

// The place, or that before the CR where it is inside a CR LF.
fn start_outside(text: &str, place: usize) -> usize
    requires { IsCharBoundary text.now place }
    ensures { StartsOutside (chars text.now) place result }
{
    if is_inside_cr_lf(text, place) {
        return place - 1;
    }
    place
}

// The place, or that after the LF where it is inside a CR LF.
fn end_outside(text: &str, place: usize) -> usize
    requires { IsCharBoundary text.now place }
    ensures { EndsOutside (chars text.now) place result }
{
    if is_inside_cr_lf(text, place) {
        return place + 1;
    }
    place
}

// The smallest change that neither begins nor ends inside a CR LF of the old text.
fn change_outside_cr_lf<'n>(old: &str, new: &'n str) -> TextChange<'n>
    ensures least { IsLeastOutside (chars old.now) (chars new.now) result.range.start result.range.end
        (chars result.new_text.now) }
    ensures span { Spans old.now result.range.start result.range.end }
{
    let (differing, _) = after_common_start(old, new);
    let start = start_outside(old, old.len() - differing.len());
    let (was, _) = before_common_end(&old[start..], &new[start..]);
    let end = end_outside(old, start + was.len());
    let kept = old.len() - end;
    TextChange {
        range: Range::new(start, end),
        new_text: &new[start..new.len() - kept],
    }
}

/// The change that makes the new text of the old one, by lines and UTF-16 columns, as a language server sends it.
///
/// With the text from `start` to `end` of `old` replaced by `new_text` it is `new`. Lines and columns count
/// from 1, a column in UTF-16 code units. A line ends at an LF, a CR LF or a CR, as in the Language Server
/// Protocol.
///
/// It neither begins nor ends within a character, or between the CR and the LF of a CR LF, which is no
/// position there. No other such change begins later, and none that begins at the same place ends
/// earlier. Nothing is allocated. The time is linear in the texts.
///
/// From `{"a": 1}` to `{"a": 12}` it is `2` from line 1, column 8 to the same place.
pub fn utf16_change<'n>(old: &str, new: &'n str) -> Utf16Change<'n>
    ensures { IsUtf16Change (chars old.now) (chars new.now) result.start result.end (chars result.new_text.now) }
{
    let TextChange { range, new_text } = change_outside_cr_lf(old, new);
    let first = LineAndColumn { line: 1, column: 1 };
    let start = walk_to(old, 0, first, range.start, ColumnUnit::Utf16);
    let end = walk_to(old, range.start, start, range.end, ColumnUnit::Utf16);
    Utf16Change {
        start,
        end,
        new_text,
    }
}
