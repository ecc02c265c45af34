//! Spaces that come in.

ghost use Rattle.std.specs.Prelude.{◌≡◌, ◌≤◌, ◌++◌, IfOk, IfSome, OnErr, OnOk, Some, length};
ghost use Rattle.jsonc_tree.specs.Changes.{Adds};
ghost use Rattle.jsonc_tree.specs.Tree.{parent_at};
ghost use Rattle.jsonc_edit.specs.Due.{listed};
ghost use Rattle.jsonc_edit.specs.Put.{a_space, AreAtHand, AreChildren, AreDue, AreSpaced, IfDue};
ghost use Rattle.jsonc_edit.specs.Put.{IsFree, IsFreeSpace, IsPut, Extends, StandsBefore, node_of, nodes_of};

use jsonc_tree::{Kind, Tree};
use std::alloc::{AllocError, Allocator};

/// A leaf of one space, which has no parent yet, and the node before which it is to stand.
#[derive(Drop)]
pub struct Space {
    /// The node.
    pub node: usize,
    /// The leaf.
    pub leaf: usize,
}

/// The spaces that a change needs.
#[derive(Drop)]
pub struct Spaces {
    /// Before what is inserted.
    pub before: Option<Space>,
    /// Before what stands after it.
    pub behind: Option<Space>,
}

// Makes a leaf of one space, which is detached.
fn add_space<A: Allocator + Copy>(alloc: A, tree: &mut Tree<A>) -> Result<usize, AllocError>
    ensures number { IfOk result (λ n. n ≡ length tree.old.nodes) }
    ensures added { OnOk result (Adds tree.old.nodes tree.new.nodes a_space) }
    ensures err { OnErr result (tree.new.nodes ≡ tree.old.nodes) }
{
    let text = String::from_str(alloc, " ")?;
    tree.add(Kind::Whitespace(text))
}

// Makes a space for a node, if one is due before it.
fn make_space<A: Allocator + Copy>(
    alloc: A,
    tree: &mut Tree<A>,
    due: Option<usize>,
) -> Result<Option<Space>, AllocError>
    ensures due { IfOk result (λ s. node_of s ≡ listed due) }
    ensures free { IfOk result (λ s. IsFree tree.new.nodes s) }
    ensures later { IfOk result (λ s. IfSome s (λ space. length tree.old.nodes ≤ space.leaf)) }
    ensures prepared { Extends tree.old.nodes tree.new.nodes }
    ensures oom_only_if { OnErr result (IfDue due) }
{
    let Some(node) = due else {
        return Ok(None);
    };
    let leaf = add_space(alloc, tree)?;
    Ok(Some(Space { node, leaf }))
}

/// Makes the spaces that are due before two nodes, if they are: no node has changed, and memory is
/// wanted only where one is due.
pub fn make_spaces<A: Allocator + Copy>(
    alloc: A,
    tree: &mut Tree<A>,
    before: Option<usize>,
    behind: Option<usize>,
) -> Result<Spaces, AllocError>
    ensures hand { IfOk result (λ s. AreAtHand tree.new.nodes (listed before ++ listed behind) s) }
    ensures prepared { Extends tree.old.nodes tree.new.nodes }
    ensures oom_only_if { OnErr result (AreDue before behind) }
{
    let before = make_space(alloc, tree, before)?;
    let behind = make_space(alloc, tree, behind)?;
    Ok(Spaces { before, behind })
}

// Puts a leaf of one space, which is detached, directly before a node that is somebody's.
fn put_before<A: Allocator>(tree: &mut Tree<A>, space: Space, container: usize)
    requires child { parent_at tree.old.nodes space.node ≡ Some container }
    requires space { IsFreeSpace tree.old.nodes space.leaf }
    ensures put { StandsBefore tree.old.nodes tree.new.nodes space.node space.leaf }
{
    let before = tree.previous_sibling(space.node);
    tree.insert_between(container, before, Some(space.node), &[space.leaf]);
}

// Puts a space in, if there is one.
fn put_space<A: Allocator>(tree: &mut Tree<A>, space: Option<Space>)
    requires free { IsFree tree.old.nodes space }
    requires child { AreChildren tree.old.nodes (node_of space) }
    ensures put { IsPut tree.old.nodes space tree.new.nodes }
{
    let Some(space) = space else {
        return;
    };
    let Some(container) = tree.parent(space.node) else {
        return;
    };
    put_before(tree, space, container);
}

/// Puts spaces in, each directly before its node: first the one before what is inserted, then the
/// one after it. No memory is wanted.
pub fn put_spaces<A: Allocator>(tree: &mut Tree<A>, spaces: Spaces)
    requires hand { AreAtHand tree.old.nodes (nodes_of spaces) spaces }
    requires children { AreChildren tree.old.nodes (nodes_of spaces) }
    ensures put { AreSpaced tree.old.nodes (nodes_of spaces) tree.new.nodes }
{
    put_space(tree, spaces.before);
    put_space(tree, spaces.behind);
}
