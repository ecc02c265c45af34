//! Laws of the changes of formatted texts.
ghost use Rattle.std.specs.Prelude.{List, ℕ};
ghost use Rattle.jsonc_text.specs.Options.{Options};
ghost use Rattle.jsonc_format.specs.declared.style.Style.{Style};
ghost use Rattle.jsonc_format.specs.Styles.{IsFormattedAs};
ghost use Rattle.jsonc_format.specs.Wishes.{wish_of};
ghost use Rattle.jsonc_changes.specs.Changes.{DifferInBlanks};

/// A text and its formatted text differ in blanks alone.
pub fn formatted_texts_differ_in_blanks()
    ensures { (o : Options) (s : Style) (t f : List ℕ) → IsFormattedAs o (wish_of s) t f → DifferInBlanks t f }
{}
