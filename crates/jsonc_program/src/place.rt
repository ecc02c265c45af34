//! The words of places.
ghost use Rattle.std.specs.Prelude.{MatchOption};
ghost use Rattle.jsonc_program.specs.Place.{IsNoPlace, IsPlace};

use jsonc_engine::command::Place;

/// The place that a word names: a JSON Pointer where it is empty or begins with `/`, an array of names where it begins
/// with `[`. Any other word names none.
pub fn place_of<'a>(word: &'a str) -> Option<Place<'a>>
    ensures { MatchOption result (IsNoPlace word.now) (IsPlace word.now) }
{
    match word.as_bytes().first() {
        None | Some(b'/') => Some(Place::Pointer(word)),
        Some(b'[') => Some(Place::Names(word)),
        Some(_) => None,
    }
}
