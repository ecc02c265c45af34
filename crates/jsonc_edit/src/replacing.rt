//! Nodes that are replaced by new ones.

ghost use Rattle.std.specs.Prelude.{◌≡◌, ◌∷◌, ◌++◌, ◌+◌, ◌<◌, IfErr, IfNone, IfOk, IfSome, List, None, OnErr, Some, [], length, if◌then◌else◌};
ghost use Rattle.jsonc_text.specs.Options.{Options};
ghost use Rattle.jsonc_tree.specs.Building.{Keeps};
ghost use Rattle.jsonc_tree.specs.Changes.{CanJoin, Splices};
ghost use Rattle.jsonc_tree.specs.OrderedTree.{ordered_tree};
ghost use Rattle.jsonc_tree.specs.Tree.{content_at, parent_at, place_at};
ghost use Rattle.jsonc_layout.specs.input.Views.{plain};
ghost use Rattle.jsonc_layout.specs.from_input.Layout.{layout_of};
ghost use Rattle.jsonc_sound.specs.Spaces.{is_bare};
ghost use Rattle.jsonc_edit.specs.Due.{listed};
ghost use Rattle.jsonc_edit.specs.Put.{AreAtHand, Extends};
ghost use Rattle.jsonc_edit.specs.Reading.{IsReplaced, IsReplacedRaw};
ghost use Rattle.jsonc_layout.specs.from_input.Laid.{laid};
ghost use Rattle.jsonc_edit.specs.Replacing.{ReplacedBy, ReplacedByRaw};
ghost use Rattle.jsonc_edit.specs.Written.{Writes};

use crate::EditError;
use crate::due::{is_bare, space_needed_after, space_needed_before};
use crate::put::{Spaces, make_spaces, put_spaces};
use crate::reading::layout_for_value;
use jsonc_layout::from_input::{Layout, lay_out};
use jsonc_layout::input::CstInputValue;
use jsonc_tree::Tree;
use std::alloc::{AllocError, Allocator};

/// Puts a detached node in the place of a child. No memory is wanted.
pub fn put_in_place<A: Allocator>(tree: &mut Tree<A>, container: usize, node: usize, new: usize)
    requires child { parent_at tree.old.nodes node ≡ Some container }
    requires join { CanJoin tree.old.nodes container (place_at tree.old.nodes node)
        (place_at tree.old.nodes node + 1) (new ∷ []) }
    ensures put { Splices tree.old.nodes tree.new.nodes container (place_at tree.old.nodes node)
        (place_at tree.old.nodes node + 1) (new ∷ []) }
{
    tree.replace(node, &[new]);
}

/// Makes the spaces that are due before a new node and after it, if it is a literal without quotes. No
/// node has changed.
pub fn spaces_for<A: Allocator + Copy>(
    alloc: A,
    tree: &mut Tree<A>,
    new: usize,
    before: Option<usize>,
    behind: Option<usize>,
) -> Result<Spaces, AllocError>
    requires { new < length tree.old.nodes }
    ensures hand { IfOk result
        (λ s. AreAtHand tree.new.nodes
        (if is_bare (content_at tree.old.nodes new) then listed before
        ++ listed behind else []) s) }
    ensures prepared { Extends tree.old.nodes tree.new.nodes }
{
    if !is_bare(tree.kind(new)) {
        return make_spaces(alloc, tree, None, None);
    }
    make_spaces(alloc, tree, before, behind)
}

/// Lays a value out as a new node, which replaces a child, and answers the number of the new node.
///
/// Where a literal without quotes would come to stand directly beside another, a space is inserted between
/// them. The child is detached then. Where the node has no parent the answer is None, and no node
/// changes. An error leaves the document, and every node that was there, as it was.
pub fn replace_with<A: Allocator + Copy>(
    alloc: A,
    tree: &mut Tree<A>,
    node: usize,
    value: &CstInputValue<A>,
    layout: &Layout<A>,
) -> Result<Option<usize>, EditError>
    requires { node < length tree.old.nodes }
    ensures replaced { IfOk result
        (λ o. IfSome o (λ m. ReplacedBy tree.old.nodes tree.new.nodes node m
        (laid (layout_of layout.now) (plain value.now)))) }
    ensures none { IfOk result (λ o. IfNone o (parent_at tree.old.nodes node ≡ None)) }
    ensures untouched { IfOk result (λ o. IfNone o (tree.new.nodes ≡ tree.old.nodes)) }
    ensures memory { IfErr result (λ e. e ≡ EditError.OutOfMemory) }
    ensures kept { OnErr result (Keeps (length tree.old.nodes) tree.old.nodes tree.new.nodes) }
    ensures document { OnErr result (ordered_tree tree.new.nodes 0 ≡ ordered_tree tree.old.nodes 0) }
{
    let Some(container) = tree.parent(node) else {
        return Ok(None);
    };
    let before = space_needed_before(tree, node);
    let behind = space_needed_after(tree, node);
    let new = lay_out(alloc, tree, value, layout)?;
    let spaces = spaces_for(alloc, tree, new, before, behind)?;
    put_spaces(tree, spaces);
    put_in_place(tree, container, node, new);
    Ok(Some(new))
}

/// Lays a value out as a new node, which replaces a child, and answers the number of the new node.
///
/// Where the child is the value at a path of a sound document, the text is a document again, whose
/// value is the old one with the new value at the path. Where a literal without quotes would come to
/// stand directly beside another, a space is inserted between them.
///
/// The document tells how: the indents are those at the container that the child stands in, lines end
/// as the document's do, and the last of several lines has a comma where that is so in the container,
/// or, for the value of a property, in the old value. Where the node has no parent the answer is None,
/// and no node changes. An error leaves the document, and every node that was there, as it was.
pub fn replace<A: Allocator + Copy>(
    alloc: A,
    tree: &mut Tree<A>,
    node: usize,
    value: &CstInputValue<A>,
) -> Result<Option<usize>, EditError>
    requires { node < length tree.old.nodes }
    ensures replaced { IfOk result (λ o. IfSome o (IsReplaced tree.old.nodes tree.new.nodes node (plain value.now))) }
    ensures written { (p : Options)
        → IfOk result (λ o. IfSome o (λ m. Writes p tree.old.nodes tree.new.nodes node m (plain value.now))) }
    ensures none { IfOk result (λ o. IfNone o (parent_at tree.old.nodes node ≡ None)) }
    ensures untouched { IfOk result (λ o. IfNone o (tree.new.nodes ≡ tree.old.nodes)) }
    ensures memory { IfErr result (λ e. e ≡ EditError.OutOfMemory) }
    ensures kept { OnErr result (Keeps (length tree.old.nodes) tree.old.nodes tree.new.nodes) }
    ensures document { OnErr result (ordered_tree tree.new.nodes 0 ≡ ordered_tree tree.old.nodes 0) }
{
    let Some(container) = tree.parent(node) else {
        return Ok(None);
    };
    let layout = layout_for_value(alloc, tree, container, node, value)?;
    replace_with(alloc, tree, node, value, &layout)
}

// Lays a value out as a new node, which a child is replaced by, without a space.
fn replace_raw<A: Allocator + Copy>(
    alloc: A,
    tree: &mut Tree<A>,
    container: usize,
    node: usize,
    value: &CstInputValue<A>,
    layout: &Layout<A>,
) -> Result<usize, EditError>
    requires { parent_at tree.old.nodes node ≡ Some container }
    ensures replaced { IfOk result
        (λ m. ReplacedByRaw tree.old.nodes tree.new.nodes node m
        (laid (layout_of layout.now) (plain value.now))) }
    ensures memory { IfErr result (λ e. e ≡ EditError.OutOfMemory) }
    ensures kept { OnErr result (Keeps (length tree.old.nodes) tree.old.nodes tree.new.nodes) }
    ensures document { OnErr result (ordered_tree tree.new.nodes 0 ≡ ordered_tree tree.old.nodes 0) }
{
    let new = lay_out(alloc, tree, value, layout)?;
    put_in_place(tree, container, node, new);
    Ok(new)
}

/// Lays a value out as a new node, which replaces the name of a property, and answers the number of
/// the new node.
///
/// The document tells how: the indents are those at the property that the name stands in, lines end as
/// the document's do, and the last of several lines has a comma where that is so in the property. No
/// space is inserted beside the new node: `{a:1"b":2}` with 7 for its second name is `{a:17:2}`. Where the
/// node has no parent the answer is None, and no node changes. An error leaves the document, and every node
/// that was there, as it was.
pub fn replace_name<A: Allocator + Copy>(
    alloc: A,
    tree: &mut Tree<A>,
    node: usize,
    value: &CstInputValue<A>,
) -> Result<Option<usize>, EditError>
    requires { node < length tree.old.nodes }
    ensures replaced { IfOk result
        (λ o. IfSome o (IsReplacedRaw tree.old.nodes tree.new.nodes node (plain value.now))) }
    ensures none { IfOk result (λ o. IfNone o (parent_at tree.old.nodes node ≡ None)) }
    ensures untouched { IfOk result (λ o. IfNone o (tree.new.nodes ≡ tree.old.nodes)) }
    ensures memory { IfErr result (λ e. e ≡ EditError.OutOfMemory) }
    ensures kept { OnErr result (Keeps (length tree.old.nodes) tree.old.nodes tree.new.nodes) }
    ensures document { OnErr result (ordered_tree tree.new.nodes 0 ≡ ordered_tree tree.old.nodes 0) }
{
    let Some(container) = tree.parent(node) else {
        return Ok(None);
    };
    let told = layout_for_value(alloc, tree, container, container, value)?;
    let raw = replace_raw(alloc, tree, container, node, value, &told)?;
    Ok(Some(raw))
}
