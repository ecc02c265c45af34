//! A walk below a node in the order of the document, which passes over what is too deep.

ghost use Rattle.std.specs.Prelude.{◌≡◌, ◌<◌, ◌≤◌, ◌+◌, IfSome};
ghost use Rattle.jsonc_tree.specs.Order.{following, rest_at};
ghost use Rattle.jsonc_layout.specs.lines.Walk.{depth_at, node_of, HasCome, Passes};

use jsonc_tree::Tree;
use std::alloc::Allocator;

/// Where a walk has come to: a node, so many levels below the one that the walk began at.
#[derive(Clone, Copy)]
pub(crate) struct Reached {
    pub(crate) node: usize,
    pub(crate) depth: usize,
}

// The node after all below a node.
fn next_past<A: Allocator>(tree: &Tree<A>, top: usize, from: Reached) -> Option<Reached>
    requires come { HasCome tree.now.nodes top from }
    ensures next { following tree.now.nodes top from.node ≡ rest_at tree.now.nodes top (node_of result) }
    ensures come { IfSome result (HasCome tree.now.nodes top) }
    ensures depth { IfSome result (λ r. r.depth ≤ from.depth) }
{
    let mut at = from;
    while at.node != top {
        let Some(parent) = tree.parent(at.node) else {
            return None;
        };
        if let Some(next) = tree.next_sibling(at.node) {
            return Some(Reached {
                node: next,
                depth: at.depth,
            });
        }
        at = Reached {
            node: parent,
            depth: at.depth - 1,
        };
    }
    None
}

// Of the nodes after one, the first that is less deep than it.
pub(crate) fn next_higher<A: Allocator>(
    tree: &Tree<A>,
    top: usize,
    here: Reached,
) -> Option<Reached>
    requires come { HasCome tree.now.nodes top here }
    ensures passes { Passes tree.now.nodes top (depth_at tree.now.nodes here.node) here.node (node_of result) }
    ensures come { IfSome result (HasCome tree.now.nodes top) }
    ensures depth { IfSome result (λ r. r.depth < here.depth) }
{
    if here.node == top {
        return None;
    }
    let Some(parent) = tree.parent(here.node) else {
        return None;
    };
    let above = Reached {
        node: parent,
        depth: here.depth - 1,
    };
    next_past(tree, top, above)
}

// Of the nodes after one, the first that is less deep than a bound.
pub(crate) fn next_within<A: Allocator>(
    tree: &Tree<A>,
    top: usize,
    here: Reached,
    bound: usize,
) -> Option<Reached>
    requires come { HasCome tree.now.nodes top here }
    requires depth { here.depth < bound }
    ensures passes { Passes tree.now.nodes top (depth_at tree.now.nodes top + bound) here.node (node_of result) }
    ensures come { IfSome result (HasCome tree.now.nodes top) }
    ensures depth { IfSome result (λ r. r.depth < bound) }
{
    let depth = here.depth + 1;
    if depth < bound {
        if let Some(node) = tree.first_child(here.node) {
            return Some(Reached { node, depth });
        }
    }
    next_past(tree, top, here)
}
