//! The document's value, set or taken away.

ghost use Rattle.std.specs.Prelude.{◌≡◌, ◌≢◌, [], IfErr, IfNone, IfOk, IfSome, None, OnErr, OnOk, length};
ghost use Rattle.jsonc_text.specs.Options.{Options};
ghost use Rattle.jsonc_tree.specs.Building.{Keeps};
ghost use Rattle.jsonc_tree.specs.Changes.{Splices};
ghost use Rattle.jsonc_tree.specs.OrderedTree.{ordered_tree};
ghost use Rattle.jsonc_tree.specs.Tree.{children_at, parent_at};
ghost use Rattle.jsonc_layout.specs.input.Views.{plain};
ghost use Rattle.jsonc_layout.specs.nodes.Properties.{value_at};
ghost use Rattle.jsonc_edit.specs.Reading.{IsReplaced};
ghost use Rattle.jsonc_edit.specs.Written.{Writes};
ghost use Rattle.jsonc_edit.specs.set.RootSet.{FirstValue, KeepsNodes};

use crate::set::first::set_first;
use crate::{EditError, clear_row, replace};
use jsonc_layout::input::CstInputValue;
use jsonc_layout::nodes::value_of;
use jsonc_tree::Tree;
use std::alloc::Allocator;

// Lets a child of a container are replaced by a value.
pub(crate) fn replace_child<A: Allocator + Copy>(
    alloc: A,
    tree: &mut Tree<A>,
    node: usize,
    value: &CstInputValue<A>,
) -> Result<usize, EditError>
    requires { parent_at tree.old.nodes node ≢ None }
    ensures replaced { IfOk result (IsReplaced tree.old.nodes tree.new.nodes node (plain value.now)) }
    ensures written { (p : Options)
        → IfOk result (λ m. Writes p tree.old.nodes tree.new.nodes node m (plain value.now)) }
    ensures memory { IfErr result (λ e. e ≡ EditError.OutOfMemory) }
    ensures kept { OnErr result (Keeps (length tree.old.nodes) tree.old.nodes tree.new.nodes) }
    ensures document { OnErr result (ordered_tree tree.new.nodes 0 ≡ ordered_tree tree.old.nodes 0) }
{
    let Some(new) = replace(alloc, tree, node, value)? else {
        unreachable!()
    };
    Ok(new)
}

/// Sets the document's value, and answers the number of its node.
///
/// Where a value stands, it is replaced by the new one, as by [`replace`]. Where none does, the new value
/// is laid out as the document tells and is put before the last of the root's children, if that is a
/// newline, and else after them all. Where a comment stands directly before that place, a newline is put
/// between them, and where nothing stands after it, a newline is put after the value.
///
/// An error leaves the document, and every node that was there, as it was.
pub fn set_root<A: Allocator + Copy>(
    alloc: A,
    tree: &mut Tree<A>,
    value: &CstInputValue<A>,
) -> Result<usize, EditError>
    ensures replaced { IfOk result
        (λ m. IfSome (value_at tree.old.nodes 0)
        (λ n. IsReplaced tree.old.nodes tree.new.nodes n (plain value.now) m)) }
    ensures written { (p : Options)
        → IfOk result (λ m. IfSome (value_at tree.old.nodes 0)
        (λ n. Writes p tree.old.nodes tree.new.nodes n m (plain value.now))) }
    ensures first { IfOk result
        (λ m. IfNone (value_at tree.old.nodes 0)
        (FirstValue tree.old.nodes tree.new.nodes (plain value.now) m)) }
    ensures others { OnOk result (IfNone (value_at tree.old.nodes 0) (KeepsNodes tree.old.nodes tree.new.nodes)) }
    ensures memory { IfErr result (λ e. e ≡ EditError.OutOfMemory) }
    ensures kept { OnErr result (Keeps (length tree.old.nodes) tree.old.nodes tree.new.nodes) }
    ensures document { OnErr result (ordered_tree tree.new.nodes 0 ≡ ordered_tree tree.old.nodes 0) }
{
    match value_of(tree, 0) {
        Some(node) => replace_child(alloc, tree, node, value),
        None => set_first(alloc, tree, value),
    }
}

/// Takes every child of the root out of it. No memory is wanted.
pub fn clear_root<A: Allocator>(tree: &mut Tree<A>)
    ensures cleared { children_at tree.new.nodes 0 ≡ [] }
    ensures taken { Splices tree.old.nodes tree.new.nodes 0 0 (length (children_at tree.old.nodes 0)) [] }
{
    clear_row(tree, 0);
}
