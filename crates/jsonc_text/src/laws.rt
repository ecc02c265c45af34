//! Laws of the definitions: each is the contract of a function that does nothing.
ghost use Rattle.std.specs.Prelude.{◌≡◌, ◌≤◌, ◌↔◌, ◌++◌, ◌∷◌, [], List, ℕ, Option, Some, codes};
ghost use Rattle.jsonc_text.specs.Options.{Options, AgreeOnLexemes, AllowsMore, with_commas, all_on};
ghost use Rattle.jsonc_text.specs.Gaps.{BlockComment, HasNoEndInside, IsComment};
ghost use Rattle.jsonc_text.specs.Numbers.{Number, NumberLit, MayFollow};
ghost use Rattle.jsonc_text.specs.Strings.{Decodes, IsQuote};
ghost use Rattle.jsonc_text.specs.Lexemes.{LexemeKind, Lexeme, number, word, Scanned};
ghost use Rattle.jsonc_text.specs.Grammar.{IsDocument};
ghost use Rattle.jsonc_text.specs.Places.{LineColumn};
ghost use Rattle.jsonc_text.specs.Plain.{Plain, depth, around};
ghost use Rattle.jsonc_text.specs.Laws.{HasOneValue, BeginsWithOneLexeme, BeginsWithNo};
ghost use Rattle.jsonc_text.specs.Laws.{HasOneTokenList, HasOneGapList, HasLexemesOf, HasDocumentsOf};
ghost use Rattle.jsonc_text.specs.Laws.{in_block, DecodesToOne, DecodesAnywhere, AreDecodedText};
ghost use Rattle.jsonc_text.specs.Laws.{HoldsSome, StandsAlone};
ghost use Rattle.jsonc_text.specs.Rows.{five_five, true_keyword, infinity_x, clef_escaped};
ghost use Rattle.jsonc_text.specs.Rows.{low_escaped, accented, after_carriage_return};

/// A text has at most one value, whatever the options.
pub fn one_value()
    ensures { (o : Options) (t : List ℕ) → HasOneValue o t }
{}

/// A value at most 256 deep has at most 512 containers and properties around any value in it.
pub fn around_is_within_twice_depth()
    ensures { (v : Plain) → depth v ≤ 256 → around v ≤ 512 }
{}

/// At a place stands at most one lexeme or comment, and it ends at one place.
pub fn one_lexeme()
    ensures { (o : Options) (t : List ℕ) → BeginsWithOneLexeme o t }
{}

/// A text has at most one list of lexemes and comments, and at most one list of gaps with comments.
pub fn one_list_of_tokens()
    ensures tokens { (o : Options) (t : List ℕ) → HasOneTokenList o t }
    ensures gaps { (o : Options) (t : List ℕ) → HasOneGapList o t }
{}

/// A block comment is `/*`, a text and `*/`, and ends at the first `*/` after its opening.
pub fn block_comment_ends_first()
    ensures text { (t r : List ℕ) → BlockComment t r → (s : List ℕ) × (t ≡ in_block s r) }
    ensures first { (s r : List ℕ) → BlockComment (in_block s r) r ↔ HasNoEndInside s }
{}

/// What stands between two quotes stands for one string, the same whatever follows the second
/// quote; and pieces that stand before a quote are such a text.
pub fn strings_end_at_their_quote()
    ensures one { (o : Options) (q : ℕ) (s : List ℕ) → IsQuote o q → DecodesToOne o q s }
    ensures anywhere { (o : Options) (q : ℕ) (s v : List ℕ) → DecodesAnywhere o q s v }
    ensures text { (o : Options) (q : ℕ) (t v : List ℕ) → AreDecodedText o q t v }
{}

/// A number at the front of a text is a number by itself, before what may follow it.
pub fn numbers_end_at_their_followers()
    ensures { (o : Options) (s r : List ℕ) → Number o (s ++ r) r ↔ NumberLit o s × MayFollow s r }
{}

/// A lexeme or comment holds at least one character; and at the front of a text it is one by
/// itself, before what it can end before.
pub fn lexemes_stand_alone()
    ensures some { (o : Options) (w : Scanned) (t : List ℕ) → HoldsSome o w t }
    ensures alone { (o : Options) (w : Scanned) (s r : List ℕ) → StandsAlone o w s r }
{}

/// Lexemes look at six options: single quotes, hexadecimal, plus, bare points, `Infinity` and
/// `NaN`, and the extended escapes.
pub fn lexemes_look_at_six_options()
    ensures { (o p : Options) → AgreeOnLexemes o p → HasLexemesOf p o }
{}

/// A document stays one, of the same value, where more is allowed around the same lexemes; so a
/// document with commas between all neighbours is one where they may be missing.
pub fn documents_stay_where_more_is_allowed()
    ensures more { (o p : Options) → AllowsMore o p → HasDocumentsOf p o }
    ensures commas { (o : Options) → HasDocumentsOf o (with_commas o) }
{}

/// Worked rows: `[5..5]` has the elements `5.` and `.5`; `01` is `0` and then `1`; `1e` is none.
pub fn worked_numbers()
    ensures five_five { IsDocument all_on (codes "[5..5]") (Some five_five) }
    ensures zero { (o : Options) → Lexeme o (number (codes "0")) (codes "01") (codes "1") }
    ensures zero_one { (o : Options) → BeginsWithNo o (number (codes "01")) (codes "01") }
    ensures one_e { (o : Options) (k : LexemeKind) → BeginsWithNo o k (codes "1e") }
{}

/// Worked rows: `true_` is `true` and then the word `_`, and no word; `Infinity-x` is a name.
pub fn worked_words()
    ensures keyword { (o : Options) → Lexeme o true_keyword (codes "true_") (codes "_") }
    ensures word { (o : Options) → Lexeme o (word (codes "_")) (codes "_") [] }
    ensures no_word { (o : Options) (s : List ℕ) → BeginsWithNo o (word s) (codes "true_") }
    ensures infinity_x { IsDocument all_on (codes "{Infinity-x: 1}") (Some infinity_x) }
{}

/// Worked rows: `\uD834\uDD1E` stands for U+1D11E, and `\uDC00` alone for nothing.
pub fn worked_strings()
    ensures pair { (o : Options) → Decodes o 0x22 clef_escaped (0x1D11E ∷ []) }
    ensures lone { (o : Options) (v : List ℕ) → Decodes o 0x22 low_escaped v → ⊥ }
{}

/// Worked rows: `/*/` is no comment; `[1,,2]` is no document, nor is `{a/*c*/:1}`, where the word
/// has a wrong follower.
pub fn worked_refusals()
    ensures comment { (r : List ℕ) → IsComment (codes "/*/") r → ⊥ }
    ensures commas { (o : Options) (v : Option Plain) → IsDocument o (codes "[1,,2]") v → ⊥ }
    ensures follower { (o : Options) (v : Option Plain) → IsDocument o (codes "{a/*c*/:1}") v → ⊥ }
{}

/// Worked rows: the `@` of `["é" @]`, at place 6, is in line 1 and column 6; a CR with no LF after
/// it ends a line.
pub fn worked_places()
    ensures characters { LineColumn accented 6 1 6 }
    ensures line { LineColumn after_carriage_return 4 2 1 }
{}
