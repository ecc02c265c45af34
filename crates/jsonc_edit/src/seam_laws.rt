//! Laws of where spaces come: each is the contract of a function that does nothing.

ghost use Rattle.std.specs.Prelude.{List, ℕ};
ghost use Rattle.jsonc_text.specs.Options.{Options};
ghost use Rattle.jsonc_tree.specs.Content.{Content};
ghost use Rattle.jsonc_tree.specs.OrderedTree.{Top};
ghost use Rattle.jsonc_tree.specs.Tree.{Node};
ghost use Rattle.jsonc_edit.specs.SeamLaws.{CommentHasSeam, HasSeams, TellsWhatIsPrinted};
ghost use Rattle.jsonc_edit.specs.Seams.{SpacesStandAround, SpaceStandsBetween};

/// The spaces that are due around a node stand directly before it, and directly before what is printed
/// after it.
pub fn spaces_stand_around()
    ensures { (ready spaced : List Node) (n : ℕ) (content : Content) → SpacesStandAround ready spaced n content }
{}

/// The space that is due where siblings are removed stands directly before what is printed after them.
pub fn space_stands_between()
    ensures { (ready spaced : List Node) (from to : ℕ) → SpaceStandsBetween ready spaced from to }
{}

/// Where a node at a path is replaced, so is the value at that path, and spaces are inserted at the seams
/// alone; in a sound document each of them parts two literals without quotes.
pub fn values_give_way_with_seams()
    ensures { (old new : List Node) (n m : ℕ) (now : Top) → HasSeams old new n m now }
{}

/// Where a comment is taken out, a space is inserted where it stood, or none, and nothing else; before the
/// comment of a number stand so many. In a sound document a block comment is removed alone, and a line
/// comment with the whitespace before it and the newline before that, if one stands there.
pub fn comments_leave_with_seam()
    ensures { (old new : List Node) (n : ℕ) → CommentHasSeam old new n }
{}

/// What is seen beside a node of a sound document is printed beside it: a space that is due parts two
/// literals without quotes.
pub fn what_is_seen_is_printed()
    ensures { (o : Options) (ns : List Node) (n : ℕ) → TellsWhatIsPrinted o ns n }
{}
