//! Room for the tokens, or the elements, that are still to come.
ghost use Rattle.std.specs.Prelude.{◌≡◌};

use jsonc_text::common::Ranged;
use std::alloc::{AllocError, Allocator};

/// Of fewer items than these the rest of a text is not guessed: they grow as any vector does.
const FEWEST: usize = 64;

// How many items to make room for: as many as the rest of a text has where it goes on as up to this place, and
// somewhat more. No more than seven times as many as there are already, as a guess may be wrong, and no less than
// half of those, so that items move seldom.
fn items_to_come(count: usize, place: usize, len: usize) -> usize {
    let left = len.saturating_sub(place);
    let expected = count.saturating_mul(left) / place.max(1);
    let most = expected.saturating_add(expected / 16).max(count / 2);
    most.min(count.saturating_mul(7))
}

// Makes room for the rest of a text's items, of which the next begins at a place.
#[cold]
fn reserve_for_rest<T, A: Allocator>(
    items: &mut Vec<T, A>,
    place: usize,
    len: usize,
) -> Result<(), AllocError>
    ensures { items.new.items ≡ items.old.items }
{
    let count = items.len();
    if count < FEWEST {
        return Ok(());
    }
    items.reserve_exact(items_to_come(count, place, len))
}

/// Makes room for more items of a text so long, where there is none for the next.
#[inline(always)]
pub fn make_room<T: Ranged, A: Allocator>(
    items: &mut Vec<T, A>,
    next: &T,
    len: usize,
) -> Result<(), AllocError>
    ensures { items.new.items ≡ items.old.items }
{
    if items.len() < items.capacity() {
        return Ok(());
    }
    reserve_for_rest(items, next.range().start, len)
}
