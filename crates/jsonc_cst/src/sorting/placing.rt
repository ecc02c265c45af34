//! Elements that are put in an order.

ghost use Rattle.std.specs.Prelude.{◌≡◌, ◌<◌, IfErr, IsTrue, OnErr, OnOk, length};
ghost use Rattle.jsonc_tree.specs.Building.{Keeps};
ghost use Rattle.jsonc_tree.specs.OrderedTree.{ordered_tree};
ghost use Rattle.jsonc_tree.specs.Tree.{content_at};
ghost use Rattle.jsonc_layout.specs.lines.Kinds.{is_array_or_object};
ghost use Rattle.jsonc_sort.specs.Rearranged.{headers_of, IsOrderIn};
ghost use Rattle.jsonc_cst.specs.typed.Edits.{NodesStillThere};
ghost use Rattle.jsonc_cst.specs.sorting.Sorted.{IsPlaced};

use crate::cst::EditError;
use jsonc_sort::rearrange;
use jsonc_tree::Tree;
use std::alloc::Allocator;

// Puts the elements of an array or object in an order.
pub(crate) fn put_in_order<A: Allocator + Copy>(
    alloc: A,
    tree: &mut Tree<A>,
    container: usize,
    pinned: &[Option<usize>],
    groups: bool,
    order: &[usize],
) -> Result<(), EditError>
    requires in_tree { container < length tree.old.nodes }
    requires holds { IsTrue (is_array_or_object (content_at tree.old.nodes container)) }
    requires order { IsOrderIn tree.old.nodes container order.now }
    ensures placed { OnOk result
        (IsPlaced tree.old.nodes tree.new.nodes container (headers_of pinned.now groups) order.now) }
    ensures memory { IfErr result (λ e. e ≡ EditError.OutOfMemory) }
    ensures handles { NodesStillThere tree.old.nodes tree.new.nodes }
    ensures kept { OnErr result (Keeps (length tree.old.nodes) tree.old.nodes tree.new.nodes) }
    ensures document { OnErr result (ordered_tree tree.new.nodes 0 ≡ ordered_tree tree.old.nodes 0) }
{
    let Ok(()) = rearrange(alloc, tree, container, pinned, groups, order) else {
        return Err(EditError::OutOfMemory);
    };
    Ok(())
}
