//! Laws of formatted texts.
ghost use Rattle.std.specs.Prelude.{◌≡◌, List, [], ℕ, Option};
ghost use Rattle.jsonc_text.specs.Options.{Options};
ghost use Rattle.jsonc_text.specs.Grammar.{IsDocument};
ghost use Rattle.jsonc_text.specs.Plain.{Plain};
ghost use Rattle.jsonc_text.specs.Marks.{MarksTo};
ghost use Rattle.jsonc_format.specs.declared.style.Style as asked;
ghost use Rattle.jsonc_format.specs.Format.{Style, State, IsFormatted, Piece, IsPieces};
ghost use Rattle.jsonc_format.specs.Styles.{IsProper, IsWrittenAgain, IsFormattedAs, Wish};
ghost use Rattle.jsonc_format.specs.Wishes.{wish_of};
ghost use Rattle.jsonc_format.specs.Laws.{BecomesTheSame, HasStyle, IsItsOwn, KeepsDocument, KeepsMarks, marks_of};

/// A text has at most one formatted text of a style.
pub fn one_text()
    ensures { (o : Options) (y : Style) (t r s : List ℕ) → IsFormatted o y t r → IsFormatted o y t s → r ≡ s }
{}

/// The marks of a text are those of its pieces.
pub fn pieces_have_the_marks()
    ensures { (o : Options) (tail t : List ℕ) (ps : List Piece) → IsPieces o tail t ps → MarksTo o [] t (marks_of ps) }
{}

/// The gap before a piece on several lines is written again where the text is formatted again.
pub fn gaps_are_written_again()
    ensures { (y : Style) (s : State) (p : Piece) (ps qs : List Piece) → IsProper y → IsWrittenAgain y s p ps qs }
{}

/// Pieces that are formatted twice become what they become when they are formatted once.
pub fn formatting_twice_is_formatting_once()
    ensures { (y : Style) (ps : List Piece) → IsProper y → BecomesTheSame y ps }
{}

/// A formatted text whose pieces end before what is written after them is its own formatted text.
pub fn formatted_texts_stay()
    ensures { (o : Options) (y : Style) (t f : List ℕ) → IsProper y → IsItsOwn o y t f }
{}

/// Such a text has the marks of the text that it was made from.
pub fn formatting_keeps_the_marks()
    ensures { (o : Options) (y : Style) (t f : List ℕ) → IsProper y → KeepsMarks o y t f }
{}

/// A text has at most one formatted text of what is asked for.
pub fn one_text_as_asked()
    ensures { (o : Options) (wish : Wish) (t r s : List ℕ) → IsFormattedAs o wish t r → IsFormattedAs o wish t s → r ≡ s }
{}

/// What is formatted as a caller asks is formatted in a style whose lines end as lines do and whose indents are blanks.
pub fn styles_are_proper()
    ensures { (o : Options) (s : asked.Style) (t f : List ℕ) → IsFormattedAs o (wish_of s) t f → HasStyle o t f }
{}

/// The formatted text of a document is a document of the same options with the same value and the same marks. Its pieces are those of the
/// document, but for the blanks before them and those that end line comments, and it is its own formatted text.
pub fn documents_stay()
    ensures { (o : Options) (y : Style) (t f : List ℕ) (v : Option Plain) → IsProper y → IsDocument o t v → IsFormatted o y t f → KeepsDocument o y t f v }
{}
