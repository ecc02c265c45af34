//! Laws of the definitions: each is the contract of a function that does nothing.
ghost use Rattle.std.specs.Prelude.{◌≡◌, List, ℕ, ◌++◌, codes};
ghost use Rattle.jsonc_text.specs.Options.{Options};
ghost use Rattle.jsonc_text.specs.Lexemes.{Lexeme, string};
ghost use Rattle.jsonc_text.specs.Strings.{Decodes};
ghost use Rattle.jsonc_text.specs.Spelling.{spelled, spelled_inside};
ghost use Rattle.jsonc_layout.specs.input.Rows.{mixed};

/// What is spelled for a string stands for it between its quotes, and is a string token of that
/// value, under all options and whatever follows.
pub fn spelled_strings_are_strings()
    ensures inside { (o : Options) (v : List ℕ) → Decodes o 0x22 (spelled_inside v) v }
    ensures lexeme { (o : Options) (v r : List ℕ) → Lexeme o (string v) (spelled v ++ r) r }
{}

/// A worked row: the string of `a`, `"`, `\`, U+0001 and U+007F is written `"a\"\\\u0001\u007f"`.
pub fn worked_spelling()
    ensures { spelled mixed ≡ codes "\"a\\\"\\\\\\u0001\\u007f\"" }
{}
