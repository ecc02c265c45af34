//! Laws of the definitions: each is the contract of a function that does nothing.

ghost use Rattle.std.specs.Prelude.{List, Some, [], ℕ};
ghost use Rattle.jsonc_text.specs.Grammar.{IsDocument};
ghost use Rattle.jsonc_text.specs.Options.{all_on};
ghost use Rattle.jsonc_text.specs.Plain.{Plain};
ghost use Rattle.jsonc_engine.specs.Json.{IsJson};
ghost use Rattle.jsonc_engine.specs.Rewritten.{Rewritten};
ghost use Rattle.jsonc_engine.specs.Same.{SameValue};

/// What is written of a document with a value is JSON, and the value is the same but for how its numbers are written.
pub fn documents_are_written()
    ensures { (t w : List ℕ) (v : Plain) → IsDocument all_on t (Some v) → Rewritten [] t w → (x : Plain) × IsJson w x × SameValue v x }
{}
