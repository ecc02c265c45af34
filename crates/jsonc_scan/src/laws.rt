//! Laws of the faults: each is the contract of a function that does nothing.
ghost use Rattle.std.specs.Prelude.{List, ℕ};
ghost use Rattle.jsonc_text.specs.Options.{Options};
ghost use Rattle.jsonc_scan.specs.Laws.{HasNoLexemeToo, HasOneFault};

/// At a place at most one fault is told, of one range; and where one is, no lexeme and no comment
/// stands.
pub fn one_fault()
    ensures one { (o : Options) (s : List ℕ) → HasOneFault o s }
    ensures none { (o : Options) (s : List ℕ) → HasNoLexemeToo o s }
{}
