//! Text that is written, by its characters.
ghost use Rattle.std.specs.Prelude.{◌≡◌, ◌++◌, [], ◌∷◌, OnOk, chars};
ghost use Rattle.jsonc_engine.specs.Texts.{text_of};

use std::alloc::{AllocError, Allocator};

// Writes a character.
pub(super) fn put<A: Allocator>(written: &mut String<A>, c: char) -> Result<(), AllocError>
    ensures { OnOk result (text_of written.new ≡ text_of written.old ++ c ∷ []) }
{
    match written.push(c) {
        Ok(()) => Ok(()),
        Err(error) => Err(error),
    }
}

// Writes characters.
pub(super) fn put_all<A: Allocator>(written: &mut String<A>, text: &str) -> Result<(), AllocError>
    ensures { OnOk result (text_of written.new ≡ text_of written.old ++ chars text.now) }
{
    match written.push_str(text) {
        Ok(()) => Ok(()),
        Err(error) => Err(error),
    }
}
