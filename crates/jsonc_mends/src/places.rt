//! Places of a text and of its mended text, by the changes between the two.
ghost use Rattle.std.specs.Bool.{Decides};
ghost use Rattle.std.specs.Prelude.{◌+◌, ◌-◌, ◌<◌, ◌≤◌, ◌≡◌, IfNone, IfSome, ℕ, length};
ghost use Rattle.std.specs.List.Sorted.{IsNonDecreasingBy};
ghost use Rattle.jsonc_text.specs.Text.{Spans};
ghost use Rattle.jsonc_mends.specs.Places.{Apart, Begun, GoesWith, IsPart, IsWrittenBy, bytes_in, other};
ghost use Rattle.jsonc_mends.specs.declared.places.Side.TheVariants.{Mended};

use crate::told::Mend;
use jsonc_text::common::Range;

/// One of the two texts.
#[derive(Clone, Copy)]
pub(crate) enum Side {
    Text,
    Mended,
}

// How many changes begin at a place or before it, where each begins no earlier than the one before it.
fn count_to(list: &[Mend], side: Side, place: usize) -> usize
    ensures within { result ≤ length list.now }
    ensures begun { IsNonDecreasingBy (λ m. (bytes_in side m).start) list.now → Begun side list.now place result }
{
    match side {
        Side::Text => list.partition_point(|mend| mend.range.start <= place),
        Side::Mended => list.partition_point(|mend| mend.written.start <= place),
    }
}

// The place of the other text that goes with one behind the start of a change, at most `limit`.
fn place_by(from: Range, to: Range, place: usize, limit: usize) -> usize
    ensures within { place < from.end → result ≡ to.start }
    ensures behind { from.end ≤ place → (place - from.end) + to.end ≤ limit
        → result ≡ (place - from.end) + to.end }
{
    if place < from.end {
        return to.start;
    }
    let other = (place - from.end).saturating_add(to.end);
    if other < limit { other } else { limit }
}

// The place of the other text that goes with one behind the start of this change.
fn place_after(mend: &Mend, side: Side, place: usize, limit: usize) -> usize
    ensures within { place < (bytes_in side mend.now).end → result ≡ (bytes_in (other side) mend.now).start }
    ensures behind { (bytes_in side mend.now).end ≤ place
        → (place - (bytes_in side mend.now).end) + (bytes_in (other side) mend.now).end ≤ limit
        → result ≡ (place - (bytes_in side mend.now).end) + (bytes_in (other side) mend.now).end }
{
    match side {
        Side::Text => place_by(mend.range, mend.written, place, limit),
        Side::Mended => place_by(mend.written, mend.range, place, limit),
    }
}

/// The place of the other text, which has `limit` bytes, that goes with a place of the text on this side.
pub(crate) fn place_in(list: &[Mend], side: Side, place: usize, limit: usize) -> usize
    ensures { (n : ℕ) → Apart side 0 0 list.now n limit → place ≤ n → GoesWith side list.now place result }
{
    let count = count_to(list, side, place);
    if count == 0 {
        return place;
    }
    place_after(&list[count - 1], side, place, limit)
}

/// Whether a range of the mended text has bytes, and lies within what one change writes.
pub(crate) fn lies_in(list: &[Mend], range: Range) -> bool
    ensures { (n k : ℕ) → Apart Mended 0 0 list.now n k → Decides result (IsWrittenBy list.now range.start range.end) }
{
    if range.end <= range.start {
        return false;
    }
    let count = count_to(list, Side::Mended, range.start);
    if count == 0 {
        return false;
    }
    range.end <= list[count - 1].written.end
}

/// A part of a text.
pub(crate) fn part_of(text: &str, range: Range) -> Option<&str>
    ensures part { IfSome result (λ part. IsPart text.now range part.now) }
    ensures none { IfNone result (Spans text.now range.start range.end → ⊥) }
{
    if range.end < range.start {
        return None;
    }
    if !text.is_char_boundary(range.start) || !text.is_char_boundary(range.end) {
        return None;
    }
    Some(&text[range.start..range.end])
}
