//! Laws of elements that are taken out: each is the contract of a function that does nothing.
ghost use Rattle.std.specs.Prelude.{List, ℕ};
ghost use Rattle.jsonc_text.specs.Options.{Options};
ghost use Rattle.jsonc_tree.specs.OrderedTree.{OrderedTree};
ghost use Rattle.jsonc_tree.specs.Tree.{Node};
ghost use Rattle.jsonc_tree.specs.OrderedTree.{Top};
ghost use Rattle.jsonc_edit.specs.remove.CommentLaws.{ClearsComments};
ghost use Rattle.jsonc_edit.specs.remove.Laws.{RemovesEntry, RemovesValue, TakesEntry, TakesValue};

/// Where an element of a container at a path of a sound document is taken out, spaces are inserted where
/// two literals without quotes would meet, and then it is removed from the container's row, with what goes
/// with it; and so is the document's value. No whitespace and no comment stays directly before it on its
/// line, and no comment after it where its line ends there.
pub fn elements_are_taken_out()
    ensures entry { (o : Options) (old new : List Node) (path : List ℕ) (c i n : ℕ) → TakesEntry o old new path c i n }
    ensures value { (o : Options) (old new : List Node) (n : ℕ) → TakesValue o old new n }
{}

/// The text is a document again, without that entry, and of its literals and comments those of the entry
/// are removed, and comments beside it; and the document is sound. It is so under all options.
pub fn removed_elements_are_gone()
    ensures entry { (o : Options) (t u : OrderedTree) (path : List ℕ) (i : ℕ) (top : Top)
        → RemovesEntry o t u path i top }
    ensures value { (o : Options) (t u : OrderedTree) (top : Top) → RemovesValue o t u top }
{}

/// Where comments of an array or object of a sound document are removed, the text is a document again, with
/// the value that it had, or none as before; of its leaves comments alone are gone, with whitespace and ends
/// of lines beside them; and the document is sound. It is so under all options.
pub fn comments_are_cleared()
    ensures { (o : Options) (old new : List Node) (c : ℕ) (ns : List ℕ) → ClearsComments o old new c ns }
{}
