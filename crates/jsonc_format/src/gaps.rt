//! The blanks between two pieces.
ghost use Rattle.std.specs.Prelude.{◌≡◌, ℕ, List, IsCharBoundary, chars, not, nat_lt, option_map, slice_range};
ghost use Rattle.jsonc_text.specs.Text.{Spans};
ghost use Rattle.jsonc_text.specs.string.Between.{LacksAt, is_neither};
ghost use Rattle.jsonc_format.specs.Format.{in_line, lines};
ghost use Rattle.jsonc_format.specs.Styles.{first_end, last_line, or_else};
ghost use Rattle.jsonc_format.specs.Gaps.{AreEnds, IsNextEnd, IsPastLine};
ghost use Rattle.jsonc_format.specs.Wishes.{line_end_text};

use crate::style::LineEnd;
use jsonc_text::chars::has_byte;
use jsonc_text::string::stops::stop_place;

/// Whether a line ends in a text.
#[inline(always)]
pub(crate) fn has_line_end(text: &str) -> bool
    ensures { result ≡ not (in_line (chars text.now)) }
{
    if text.is_empty() {
        return false;
    }
    stop_place(text, 0, b'\n', b'\r') < text.len()
}

/// Whether a line ends between two places. Where a line ends from the one on is known, and then from the other on.
#[inline(always)]
pub(crate) fn ends_between(text: &str, from: usize, to: usize, line_end: &mut usize) -> bool
    requires span { Spans text.now from to }
    requires known { IsNextEnd text.now from line_end.old }
    ensures ends { result ≡ not (in_line (chars (slice_range text.now from to))) }
    ensures known { IsNextEnd text.now to line_end.new }
{
    if to <= *line_end {
        return false;
    }
    *line_end = stop_place(text, to, b'\n', b'\r');
    true
}

/// What ends in the blanks before a piece: a line, and more than one.
#[derive(Clone, Copy, Drop)]
pub(crate) struct Ends {
    pub any: bool,
    pub several: bool,
}

/// What ends between two places, as [`ends_between`] tells it. Mostly the line after the first end goes on past the other place:
/// then one search tells that no second line ends, and where the next one does.
#[inline(always)]
pub(crate) fn ends_in(text: &str, from: usize, to: usize, line_end: &mut usize) -> Ends
    requires span { Spans text.now from to }
    requires known { IsNextEnd text.now from line_end.old }
    ensures ends { AreEnds result (chars (slice_range text.now from to)) }
    ensures known { IsNextEnd text.now to line_end.new }
{
    let first = *line_end;
    if first < to {
        let next = stop_place(text, first + 1, b'\n', b'\r');
        if to <= next {
            *line_end = next;
            return Ends {
                any: true,
                several: false,
            };
        }
    }
    if !ends_between(text, from, to, line_end) {
        return Ends {
            any: false,
            several: false,
        };
    }
    Ends {
        any: true,
        several: has_blank_line(&text[from..to]),
    }
}

/// The place after the end of a line that is at a place, or the place itself at the end of the text.
pub(crate) fn past_line_end(text: &str, place: usize) -> usize
    requires boundary { IsCharBoundary text.now place }
    requires end { LacksAt (is_neither 0x0A 0x0D) text.now place }
    ensures { IsPastLine text.now place result }
{
    if place == text.len() {
        return place;
    }
    if !has_byte(text, place, b'\r') {
        return place + 1;
    }
    if has_byte(text, place + 1, b'\n') {
        return place + 2;
    }
    place + 1
}

/// Whether more than one line ends in a text.
pub(crate) fn has_blank_line(gap: &str) -> bool
    ensures { result ≡ nat_lt 1 (lines (chars gap.now)) }
{
    let end = stop_place(gap, 0, b'\n', b'\r');
    let next = past_line_end(gap, end);
    has_line_end(&gap[next..])
}

/// How the first line that ends in a text does, if one does.
pub(crate) fn first_line_end(gap: &str) -> Option<LineEnd>
    ensures { (other : List ℕ) → first_end (chars gap.now) other ≡ or_else (option_map line_end_text result) other }
{
    let end = stop_place(gap, 0, b'\n', b'\r');
    if end == gap.len() {
        return None;
    }
    if !has_byte(gap, end, b'\r') {
        return Some(LineEnd::Lf);
    }
    if has_byte(gap, end + 1, b'\n') {
        return Some(LineEnd::CrLf);
    }
    Some(LineEnd::Cr)
}

/// What follows the last end of a line in a text, or nothing where no line ends in it.
pub(crate) fn last_line<'a>(gap: &'a str) -> &'a str
    ensures { chars result.now ≡ last_line (chars gap.now) }
{
    let mut line = "";
    let mut next = stop_place(gap, 0, b'\n', b'\r');
    while next < gap.len() {
        line = &gap[next + 1..];
        next = stop_place(gap, next + 1, b'\n', b'\r');
    }
    line
}
