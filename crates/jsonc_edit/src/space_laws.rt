//! Laws of spaces that come in, and of where one is due: each is the contract of a function that does
//! nothing.

ghost use Rattle.std.specs.Prelude.{◌≡◌, false, List, ℕ};
ghost use Rattle.jsonc_text.specs.Options.{Options};
ghost use Rattle.jsonc_tree.specs.Content.{Content};
ghost use Rattle.jsonc_tree.specs.Tree.{Node};
ghost use Rattle.jsonc_edit.specs.SpaceLaws.{KeepsElements, NoneDueAround, PutsSpace};
ghost use Rattle.jsonc_edit.specs.Meeting.{NearestTell, NoneDueWithCommas};
ghost use Rattle.jsonc_edit.specs.remove.Laws.{CommentWantsNone, ElementWantsNone};

/// A space that is put before an element, after another child, is inserted into the document there, and
/// nothing else is.
pub fn spaces_come_before_elements()
    ensures { (old new : List Node) (n space : ℕ) → PutsSpace old new n space }
{}

/// Each node has the elements that it had.
pub fn spaces_are_no_elements()
    ensures { (old new : List Node) (n space : ℕ) → KeepsElements old new n space }
{}

/// Where the spaces that are due around a node have been inserted, none is due any more.
pub fn no_further_space_is_due()
    ensures { (old new : List Node) (n : ℕ) (content : Content) → NoneDueAround old new n content }
{}

/// The nearest children that print something tell whether two literals without quotes meet in a row.
/// Where commas may not be missing, no space is due where children are removed and the row goes on.
pub fn nearest_tell()
    ensures meet { (o : Options) (ns : List Node) → NearestTell o ns }
    ensures none { (o : Options) (ns : List Node) → o.missing_commas ≡ false → NoneDueWithCommas o ns }
{}

/// So in a sound document in which commas may not be missing no space is due where a value, a property, a
/// name or a comment is removed: so a removal wants no memory, and is not refused for want of it.
pub fn removals_want_no_memory()
    ensures element { (o : Options) (ns : List Node) (n : ℕ) → ElementWantsNone o ns n }
    ensures comment { (o : Options) (ns : List Node) (n : ℕ) → CommentWantsNone o ns n }
{}
