//! Lines and columns of many places of a text, by one walk over it.
ghost use Rattle.std.specs.Prelude.{◌<◌, ◌+◌, IfOk, IfSome, IsCharBoundary, chars, length};
ghost use Rattle.std.specs.Char.{len_utf8};
ghost use Rattle.std.specs.List.{All};
ghost use Rattle.jsonc_text.specs.Chars.{Steps};
ghost use Rattle.jsonc_text.specs.Places.{LineColumn};
ghost use Rattle.jsonc_mend.specs.Places.{IsKnown};

use jsonc_text::chars::char_at;
use jsonc_text::line::{LineAndColumn, ends_line, line_and_column};
use std::alloc::{AllocError, Allocator};

/// A place of a text, and its line and column.
#[derive(Clone, Copy, Debug, PartialEq, Eq)]
pub struct Known {
    pub place: usize,
    pub line: usize,
    pub column: usize,
}

// The character at a place, where that is before an end.
fn char_below(text: &str, place: usize, end: usize) -> Option<char>
    requires { IsCharBoundary text.now place }
    ensures { IfSome result (λ c. Steps text.now place c (place + len_utf8 c)) }
{
    if place >= end {
        return None;
    }
    char_at(text, place)
}

// The first place from a known one on that is not before `end`, with its line and column.
fn walk_on(text: &str, from: Known, end: usize) -> Known
    requires { IsKnown text.now from }
    ensures { IsKnown text.now result }
{
    let mut place = from.place;
    let mut line = from.line;
    let mut column = from.column;
    while let Some(c) = char_below(text, place, end) {
        place += c.len_utf8();
        if ends_line(c, &text[place..]) {
            line += 1;
            column = 1;
        } else {
            column += 1;
        }
    }
    Known {
        place,
        line,
        column,
    }
}

/// Lines and columns of places, by one walk over the text where these are in order.
pub fn known_places<A: Allocator>(
    alloc: A,
    text: &str,
    places: &[usize],
) -> Result<Vec<Known, A>, AllocError>
    ensures { IfOk result (λ known. All (IsKnown text.now) known.items) }
{
    let mut known = Vec::new(alloc);
    let mut last = Known {
        place: 0,
        line: 1,
        column: 1,
    };
    for place in places {
        last = walk_on(text, last, *place);
        known.push(last)?;
    }
    Ok(known)
}

// The index of a place among known ones in order.
fn index_of(known: &[Known], place: usize) -> Option<usize>
    ensures { IfSome result (λ index. index < length known.now) }
{
    let index = known.partition_point(|k| k.place < place);
    if index < known.len() {
        return Some(index);
    }
    None
}

/// The line and column of a place, looked for among known ones. The time is logarithmic where it is there.
pub fn position_of(text: &str, known: &[Known], place: usize) -> LineAndColumn
    requires boundary { IsCharBoundary text.now place }
    requires known { All (IsKnown text.now) known.now }
    ensures { LineColumn (chars text.now) place result.line result.column }
{
    if let Some(index) = index_of(known, place) {
        let found = known[index];
        if found.place == place {
            return LineAndColumn {
                line: found.line,
                column: found.column,
            };
        }
    }
    line_and_column(text, place)
}
