//! Laws of the definitions: each is the contract of a function that does nothing.
ghost use Rattle.std.specs.Prelude.{◌≡◌, List, [], ◌∷◌, ℕ};
ghost use Rattle.std.specs.Prelude.{codes, Option};
ghost use Rattle.jsonc_text.specs.Options.{Options};
ghost use Rattle.jsonc_text.specs.Plain.{Plain};
ghost use Rattle.jsonc_tree.specs.OrderedTree.{OrderedTree, printed};
ghost use Rattle.jsonc_tree.specs.Tree.{Node};
ghost use Rattle.jsonc_layout.specs.input.Numbers.{IsAlwaysNumber};
ghost use Rattle.jsonc_layout.specs.input.Views.{plain};
ghost use Rattle.jsonc_layout.specs.from_input.Layout.{Layout};
ghost use Rattle.jsonc_edit.specs.Laws.{AllStand, HasOneNode, HasOnePath, ShowsBelow};
ghost use Rattle.jsonc_edit.specs.Laws.{ReplacesAtPath, KeepsReplacement};
ghost use Rattle.jsonc_edit.specs.Laws.{ChangesElementsOver, ChangesOver, KeepsOthers, HasNewContent, HasNewRow};
ghost use Rattle.jsonc_edit.specs.Laws.{ChangesValueAt, StaysSoundAt};
ghost use Rattle.jsonc_edit.specs.Laws.{LaysOutWhole, LaysOutWholeNamed};
ghost use Rattle.jsonc_edit.specs.Laws.{HasFittingLayout, HasOneValue};
ghost use Rattle.jsonc_edit.specs.Laws.{ChangesValueLaidOut, ChangesValueReplaced};
ghost use Rattle.jsonc_edit.specs.Laws.{TakesPath, WritesLaidOut, WritesReplaced};
ghost use Rattle.jsonc_edit.specs.Changes.{LeafChanged, Respliced};
ghost use Rattle.jsonc_edit.specs.Comments.{commented, removed_from, CommentRemoved, HasLeavesWithout, HasValueWithout, IsSoundWithout, TakesTrivia};
ghost use Rattle.jsonc_edit.specs.Paths.{IsAt};
ghost use Rattle.jsonc_layout.specs.from_input.Laid.{laid};
ghost use Rattle.jsonc_edit.specs.Worked.{worked_nodes};
ghost use Rattle.jsonc_edit.specs.WorkedValue.{two_spaces, worked_value};
ghost use Rattle.jsonc_edit.specs.Writing.{FitsLayout, IsOfNumbers, IsWritable};

use jsonc_layout::input::CstInputValue;
use std::alloc::Allocator;

/// A path leads to at most one node, and in a tree at most one path leads to a node.
pub fn one_path()
    ensures node { (ns : List Node) (path : List ℕ) → HasOneNode ns path }
    ensures path { (ns : List Node) (n : ℕ) → HasOnePath ns n }
{}

/// A worked row: in `{a:[1,2]}` the path 0, 1 leads to the 2, which is node 10.
pub fn worked_path()
    ensures { IsAt worked_nodes (0 ∷ 1 ∷ []) 10 }
{}

/// In a tree of a document's shape each node below the root is a value at a path, a property of an
/// object at a path, the name of a property, trivia or a token.
pub fn each_node_has_its_place()
    ensures { (o : Options) (ns : List Node) → AllStand o ns }
{}

/// The children of a node stand for the row of ordered trees below it.
pub fn children_stand_for_the_row_below()
    ensures { (ns : List Node) (n : ℕ) → ShowsBelow ns n }
{}

/// An element that is replaced by another node changes the document at its path, to that node with
/// the row below it; and this node and its row are what they were.
pub fn replaced_nodes_change_their_place()
    ensures changed { (old new : List Node) (n m : ℕ) → ReplacesAtPath old new n m }
    ensures kept { (old new : List Node) (n m : ℕ) → KeepsReplacement old new n m }
{}

/// A splice of a container's children changes the document at the path of the container, or of each
/// value over it, to the row that is now below. The container's is what stood before the stretch,
/// what was put in, and what stood after. Any other node is what it was.
pub fn spliced_rows_change_their_place()
    ensures changed { (old new : List Node) (c : ℕ) → Respliced old new c → ChangesOver old new c }
    ensures row { (old new : List Node) (c : ℕ) (s : Respliced old new c) → HasNewRow s }
    ensures kept { (old new : List Node) (c : ℕ) → Respliced old new c → KeepsOthers old new c }
{}

/// A leaf that becomes another changes the document at the path of each value over it, and at its
/// own if it is a value still, to the row that is now below. The leaf is what it became, and any
/// other node is what it was.
pub fn changed_leaves_change_their_place()
    ensures changed { (old new : List Node) (n : ℕ) → LeafChanged old new n → ChangesElementsOver old new n }
    ensures content { (old new : List Node) (n : ℕ) (r : LeafChanged old new n) → HasNewContent r }
    ensures kept { (old new : List Node) (n : ℕ) → LeafChanged old new n → KeepsOthers old new n }
{}

/// Where in a sound document a node that may stand there takes the place of a value, and no literal
/// without quotes comes to stand directly beside another, the document that this makes is sound.
pub fn documents_stay_sound()
    ensures { (o : Options) (old new : List Node) (path : List ℕ) (n m : ℕ) → StaysSoundAt o old new path n m }
{}

/// Where a value of a document is replaced by another, so is its plain value at the same path, and
/// nothing else does.
pub fn documents_have_changed_values()
    ensures { (o : Options) (old new : List Node) (path : List ℕ) (n : ℕ) (x : Plain)
        → ChangesValueAt o old new path n x }
{}

/// What a value is laid out as is a whole value, which may stand in a document where another stood,
/// and what a name and a value are laid out as is a whole property: if the layout is one that the
/// document may have, and each number in the value is a number under its options.
pub fn laid_values_may_stand()
    ensures value { (o : Options) (l : Layout) (v : Plain) → LaysOutWhole o l v }
    ensures property { (o : Options) (l : Layout) (s : List ℕ) (v : Plain) → LaysOutWholeNamed o l s v }
{}

/// A value for an edit may be written where each number in it is a number, so a number that was made
/// from an integer may be under all options.
pub fn values_may_be_written<A: Allocator>(value: &CstInputValue<A>)
    ensures numbers { (o : Options) → IsOfNumbers o (plain value.now) → IsWritable o (plain value.now) }
    ensures always { (o : Options) → IsAlwaysNumber (plain value.now) → IsWritable o (plain value.now) }
{}

/// A worked row: with two spaces a level `{"a":[1]}` is written on three lines, with a space after
/// the colon; the layout and the value fit all options.
pub fn worked_writing()
    ensures text { printed (laid two_spaces worked_value).below ≡ codes "{\n  \"a\": [1]\n}" }
    ensures layout { (o : Options) → FitsLayout o two_spaces }
    ensures value { (o : Options) → IsWritable o worked_value }
{}

/// The layout that is read from a document for what replaces a node of it is one that documents of
/// these options may have: its indents are blanks within a line, and it has trailing commas only
/// where they are allowed.
pub fn documents_have_fitting_layouts()
    ensures { (o : Options) (ns : List Node) (c n : ℕ) → HasFittingLayout o ns c n }
{}

/// A document has at most one value, whatever the options.
pub fn documents_have_one_value()
    ensures { (o : Options) (t : OrderedTree) → HasOneValue o t }
{}

/// Where the value at a path has been replaced, by `replace_with` in any layout or by `replace`, the
/// document's value is what it was, but that at the path the new value stands. It is so under all
/// options.
pub fn replaced_values_change_the_document()
    ensures laid_out { (o : Options) (old new : List Node) (n m : ℕ) (l : Layout) (v : Plain)
        → ChangesValueLaidOut o old new n m l v }
    ensures replaced { (o : Options) (old new : List Node) (n m : ℕ) (v : Plain)
        → ChangesValueReplaced o old new n m v }
{}

/// The node that a value is laid out as, by `replace` or `replace_with`, stands at the path of the node
/// that was replaced by it.
pub fn replaced_values_take_the_path()
    ensures { (old new : List Node) (n m : ℕ) (l : Layout) (v : Plain) → TakesPath old new n m l v }
{}

/// What an edit makes of a text: in a sound document the value at a path has been replaced, by
/// `replace`, or by `replace_with` in a layout that fits. Where the numbers of the new value are
/// numbers, the text is a document again. Its value is what it was, but that at the path the new value
/// stands. Spaces have been inserted where two literals without quotes would have met; all other leaves
/// before and after are what they were, comments among them. And the document is sound again.
pub fn replaced_values_are_written()
    ensures laid_out { (o : Options) (old new : List Node) (n m : ℕ) (l : Layout) (v : Plain)
        → WritesLaidOut o old new n m l v }
    ensures replaced { (o : Options) (old new : List Node) (n m : ℕ) (v : Plain) → WritesReplaced o old new n m v }
{}

/// What is removed with a comment of the document is trivia that ends in it, and nothing is put in its
/// place but a space where two literals without quotes would have met; so a sound document stays
/// sound, and has the value that it had. All other leaves stay, in order, and before it stand as many
/// comments as its number says.
pub fn documents_without_a_comment()
    ensures trivia { (old new : List Node) (n : ℕ) (r : CommentRemoved old new n) → TakesTrivia r }
    ensures sound { (o : Options) (old new : List Node) (n : ℕ) → IsSoundWithout o old new n }
    ensures value { (o : Options) (old new : List Node) (n : ℕ) (w : Option Plain) → HasValueWithout o old new n w }
    ensures kept { (old new : List Node) (n : ℕ) → HasLeavesWithout old new n }
{}

/// Worked rows: of `[`, two newlines, two whitespace leaves and a comment, a line comment is removed with
/// all from the second newline on, which stands at place 2, and a block comment is removed alone.
pub fn worked_comments()
    ensures line { removed_from (commented (codes "// c")) 1 7 ≡ 2 }
    ensures block { removed_from (commented (codes "/* c */")) 1 7 ≡ 5 }
{}
