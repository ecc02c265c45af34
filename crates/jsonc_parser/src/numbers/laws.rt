//! Laws of the values of numbers: each is the contract of a function that does nothing.

ghost use Rattle.std.specs.Prelude.{◌≡◌, ◌↔◌, List, ℕ, ℤ};
ghost use Rattle.std.specs.Float.Ieee.{Float};
ghost use Rattle.jsonc_text.specs.Options.{all_on};
ghost use Rattle.jsonc_text.specs.Numbers.{NumberLit};
ghost use Rattle.jsonc_parser.specs.Numbers.{WritesFloat, WritesInteger};

/// The texts that write a float are the numbers of the grammar, with all of its options, and each
/// writes one. A text writes at most one integer.
pub fn numbers_have_one_value()
    ensures grammar { (s : List ℕ) → NumberLit all_on s ↔ (x : Float) × WritesFloat s x }
    ensures float { (s : List ℕ) (x y : Float) → WritesFloat s x → WritesFloat s y → x ≡ y }
    ensures integer { (s : List ℕ) (y z : ℤ) → WritesInteger s y → WritesInteger s z → y ≡ z }
{}
