//! Laws of the edits of documents as changes of their texts.
ghost use Rattle.std.specs.Prelude.{List, ℕ};
ghost use Rattle.jsonc_text.specs.declared.common.Range.{Range};
ghost use Rattle.jsonc_tree.specs.Tree.{IsTree, Node};
ghost use Rattle.jsonc_ranges.specs.Edits.{IsUntouchedAlike};

/// A leaf that prints what it printed when the ranges were noted is untouched.
pub fn leaves_as_they_were_are_untouched()
    ensures { (was ns : List Node) (rs : List Range) (n : ℕ) → IsTree was → IsUntouchedAlike was ns rs n }
{}
