//! A law of mends: the contract of a function that does nothing.
ghost use Rattle.std.specs.Prelude.{ℕ, List};
ghost use Rattle.jsonc_text.specs.Options.{Options};
ghost use Rattle.jsonc_mends.specs.Laws.{NoneOfDocument};

use crate::mends::Mends;
use std::alloc::Allocator;

/// A text has no mend exactly where it is a document of the options, within the depth.
pub fn none_of_documents<A: Allocator>()
    ensures { (o : Options) (s : List ℕ) (r : Mends A) → NoneOfDocument o s r }
{}
