//! Children and siblings, one after another.

ghost use Rattle.std.specs.Prelude.{◌≡◌, ◌<◌, ◌^◌, drop, length};
ghost use Rattle.std.specs.List.{find, slice_get};
ghost use Rattle.std.specs.Iterator.{YieldsFirst, item_count};
ghost use Rattle.jsonc_tree.specs.Tree.{children_at};
ghost use Rattle.jsonc_layout.specs.nodes.Kinds.{is_newline_at};
ghost use Rattle.jsonc_layout.specs.nodes.Siblings.{AreThere, IsThere, first, line_before, root_above};
ghost use Rattle.jsonc_layout.specs.nodes.Siblings.{row_from_line, siblings_after, siblings_before};

use crate::nodes::kinds::is_newline;
use jsonc_tree::{Children, PreviousSiblings, Tree};
use std::alloc::Allocator;
use std::marker::Model;

/// The siblings before a node on its line, first to last, seen as the list of those that are left.
#[derive(Drop)]
pub struct LineBefore<'a, A: Allocator> {
    rest: Children<'a, A>,
    left: usize,
}

impl<'a, A: Allocator> Model for LineBefore<'a, A> {
    ghost use Rattle.std.specs.Prelude.{ℕ, List, take};

    ghost Value = { List ℕ };

    ghost view = { λ it. take it.left it.rest };
}

impl<'a, A: Allocator> Iterator for LineBefore<'a, A> {
    type Item = usize;

    ghost next_gives = { YieldsFirst (λ rest. rest) };

    ghost remaining = { item_count (λ rest. rest) };

    fn next(&mut self) -> Option<usize> {
        if self.left == 0 {
            return None;
        }
        self.left -= 1;
        self.rest.next()
    }
}

/// The children of a container from a place on, first to last.
pub fn children_from<A: Allocator>(
    tree: &Tree<A>,
    container: usize,
    place: usize,
) -> Children<'_, A>
    requires { container < length tree.now.nodes }
    ensures children { result ≡ drop place (children_at tree.now.nodes container) }
    ensures in_tree { AreThere tree.now.nodes result }
    ensures countable { length result < 2 ^ 64 }
{
    let mut children = tree.children(container);
    for _passed in 0..place {
        let Some(_) = children.next() else {
            return children;
        };
    }
    children
}

/// The siblings after a node, nearest first.
pub fn next_siblings<A: Allocator>(tree: &Tree<A>, node: usize) -> Children<'_, A>
    requires { node < length tree.now.nodes }
    ensures siblings { result ≡ siblings_after tree.now.nodes node }
    ensures in_tree { AreThere tree.now.nodes result }
    ensures countable { length result < 2 ^ 64 }
{
    tree.next_siblings(node)
}

/// The siblings before a node, nearest first.
pub fn previous_siblings<A: Allocator>(tree: &Tree<A>, node: usize) -> PreviousSiblings<'_, A>
    requires { node < length tree.now.nodes }
    ensures siblings { result ≡ siblings_before tree.now.nodes node }
    ensures in_tree { AreThere tree.now.nodes result }
    ensures countable { length result < 2 ^ 64 }
{
    tree.previous_siblings(node)
}

// How many siblings stand before a node on its line.
fn count_on_line<A: Allocator>(tree: &Tree<A>, node: usize) -> usize
    requires { node < length tree.now.nodes }
    ensures { result ≡ length (line_before tree.now.nodes node) }
{
    let mut count = 0;
    for sibling in previous_siblings(tree, node) {
        if is_newline(tree, sibling) {
            return count;
        }
        count += 1;
    }
    count
}

// The line's end nearest before a node.
fn newline_before<A: Allocator>(tree: &Tree<A>, node: usize) -> Option<usize>
    requires { node < length tree.now.nodes }
    ensures newline { result ≡ find (is_newline_at tree.now.nodes) (siblings_before tree.now.nodes node) }
    ensures in_tree { IsThere tree.now.nodes result }
{
    previous_siblings(tree, node).find(|sibling| is_newline(tree, *sibling))
}

// The children of a node's parent from the first on the node's line on.
fn from_line_start<A: Allocator>(tree: &Tree<A>, node: usize) -> Children<'_, A>
    requires { node < length tree.now.nodes }
    ensures { result ≡ row_from_line tree.now.nodes node }
{
    if let Some(newline) = newline_before(tree, node) {
        return tree.next_siblings(newline);
    }
    match tree.parent(node) {
        Some(container) => tree.children(container),
        None => tree.next_siblings(node),
    }
}

/// The siblings before a node on its line, first to last.
pub fn line_before<A: Allocator>(tree: &Tree<A>, node: usize) -> LineBefore<'_, A>
    requires { node < length tree.now.nodes }
    ensures siblings { result ≡ line_before tree.now.nodes node }
    ensures in_tree { AreThere tree.now.nodes result }
{
    let left = count_on_line(tree, node);
    LineBefore {
        rest: from_line_start(tree, node),
        left,
    }
}

/// The sibling directly after a node.
pub fn next_sibling<A: Allocator>(tree: &Tree<A>, node: usize) -> Option<usize>
    requires { node < length tree.now.nodes }
    ensures sibling { result ≡ first (siblings_after tree.now.nodes node) }
    ensures in_tree { IsThere tree.now.nodes result }
{
    next_siblings(tree, node).next()
}

/// The sibling directly before a node.
pub fn previous_sibling<A: Allocator>(tree: &Tree<A>, node: usize) -> Option<usize>
    requires { node < length tree.now.nodes }
    ensures sibling { result ≡ first (siblings_before tree.now.nodes node) }
    ensures in_tree { IsThere tree.now.nodes result }
{
    previous_siblings(tree, node).next()
}

/// The child at a place, counted from 0, or none where there is no child.
pub fn child_at_index<A: Allocator>(tree: &Tree<A>, node: usize, index: usize) -> Option<usize>
    requires { node < length tree.now.nodes }
    ensures child { result ≡ slice_get (children_at tree.now.nodes node) index }
    ensures in_tree { IsThere tree.now.nodes result }
{
    children_from(tree, node, index).next()
}

/// The root, if the node stands below it: none of the root itself and of what was taken out.
pub fn root_node<A: Allocator>(tree: &Tree<A>, node: usize) -> Option<usize>
    requires { node < length tree.now.nodes }
    ensures root { result ≡ root_above tree.now.nodes node }
    ensures in_tree { IsThere tree.now.nodes result }
{
    tree.ancestors(node).find(|ancestor| *ancestor == 0)
}
