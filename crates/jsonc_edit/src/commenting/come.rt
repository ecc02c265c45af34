//! Leaves that are made, and inserted into a row.

ghost use Rattle.std.specs.Prelude.{◌≡◌, ◌+◌, Some};
ghost use Rattle.jsonc_tree.specs.Changes.{CanJoin, Splices};
ghost use Rattle.jsonc_tree.specs.Tree.{parent_at, place_at};

use jsonc_tree::Tree;
use std::alloc::Allocator;

// Puts leaves directly before a child of a container. No memory is wanted.
pub(super) fn come_before<A: Allocator>(
    tree: &mut Tree<A>,
    container: usize,
    node: usize,
    row: &[usize],
)
    requires child { parent_at tree.old.nodes node ≡ Some container }
    requires join { let place = place_at tree.old.nodes node in CanJoin tree.old.nodes container place place row.now }
    ensures { let place = place_at tree.old.nodes node
        in Splices tree.old.nodes tree.new.nodes container place place row.now }
{
    let before = tree.previous_sibling(node);
    tree.insert_between(container, before, Some(node), row);
}

// Puts them directly after it.
pub(super) fn come_behind<A: Allocator>(
    tree: &mut Tree<A>,
    container: usize,
    node: usize,
    row: &[usize],
)
    requires child { parent_at tree.old.nodes node ≡ Some container }
    requires join { let place = place_at tree.old.nodes node + 1 in CanJoin tree.old.nodes container place place row.now }
    ensures { let place = place_at tree.old.nodes node + 1
        in Splices tree.old.nodes tree.new.nodes container place place row.now }
{
    let behind = tree.next_sibling(node);
    tree.insert_between(container, Some(node), behind, row);
}
