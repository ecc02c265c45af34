//! Laws of lines and columns.

ghost use Rattle.std.specs.Prelude.{List, ℕ};
ghost use Rattle.jsonc_parser.specs.Places.{HasOnePlace};
ghost use Rattle.jsonc_parser.specs.declared.places.ColumnUnit.{ColumnUnit};

/// A line and a column of a text, in characters or in UTF-16 code units, are those of at most one place.
pub fn one_place()
    ensures { (unit : ColumnUnit) (t : List ℕ) → HasOnePlace unit t }
{}
