//! Walks along a row: the children of a node, and its siblings.

ghost use Rattle.std.specs.Prelude.{◌≡◌, ◌<◌, ◌^◌, length, reverse, vec_len};
ghost use Rattle.std.specs.Iterator.{YieldsFirst, item_count};
ghost use Rattle.std.specs.List.{list_any};
ghost use Rattle.jsonc_tree.specs.Tree.{children_at, is_newline_at};
ghost use Rattle.jsonc_tree.specs.Siblings.{first, siblings_after, siblings_before};
ghost use Rattle.jsonc_tree.specs.Stored.{nodes_in, IsStored};

use crate::links::{first_of, last_of, lines_of, next_of, previous_of};
use crate::node::Node;
use crate::tree::Tree;
use std::alloc::Allocator;
use std::marker::Model;

pub(crate) fn first_in<A: Allocator>(nodes: &Vec<Node<A>, A>, c: usize) -> Option<usize>
    requires stored { IsStored nodes.now.items }
    requires in_tree { c < vec_len nodes.now }
    ensures { result ≡ first (children_at (nodes_in nodes.now) c) }
{
    first_of(nodes, c)
}

fn last_in<A: Allocator>(nodes: &Vec<Node<A>, A>, c: usize) -> Option<usize>
    requires stored { IsStored nodes.now.items }
    requires in_tree { c < vec_len nodes.now }
    ensures { result ≡ first (reverse (children_at (nodes_in nodes.now) c)) }
{
    last_of(nodes, c)
}

fn next_in<A: Allocator>(nodes: &Vec<Node<A>, A>, n: usize) -> Option<usize>
    requires stored { IsStored nodes.now.items }
    requires in_tree { n < vec_len nodes.now }
    ensures { result ≡ first (siblings_after (nodes_in nodes.now) n) }
{
    next_of(nodes, n)
}

fn previous_in<A: Allocator>(nodes: &Vec<Node<A>, A>, n: usize) -> Option<usize>
    requires stored { IsStored nodes.now.items }
    requires in_tree { n < vec_len nodes.now }
    ensures { result ≡ first (siblings_before (nodes_in nodes.now) n) }
{
    previous_of(nodes, n)
}

// Whether a container counts any end of a line.
fn has_line_end_in<A: Allocator>(nodes: &Vec<Node<A>, A>, c: usize) -> bool
    requires stored { IsStored nodes.now.items }
    requires in_tree { c < vec_len nodes.now }
    ensures { result ≡ list_any (is_newline_at (nodes_in nodes.now)) (children_at (nodes_in nodes.now) c) }
{
    lines_of(nodes, c) > 0
}

impl<A: Allocator> Tree<A> {
    /// Whether a line ends among the children of a container, in constant time.
    pub fn has_line_end(&self, container: usize) -> bool
        requires { container < length self.now.nodes }
        ensures { result ≡ list_any (is_newline_at self.now.nodes) (children_at self.now.nodes container) }
    {
        has_line_end_in(&self.nodes, container)
    }

    /// A container's first child, if it has any.
    pub fn first_child(&self, node: usize) -> Option<usize>
        requires { node < length self.now.nodes }
        ensures { result ≡ first (children_at self.now.nodes node) }
    {
        first_in(&self.nodes, node)
    }

    /// A container's last child, if it has any.
    pub fn last_child(&self, node: usize) -> Option<usize>
        requires { node < length self.now.nodes }
        ensures { result ≡ first (reverse (children_at self.now.nodes node)) }
    {
        last_in(&self.nodes, node)
    }

    /// The next child of the same parent.
    pub fn next_sibling(&self, node: usize) -> Option<usize>
        requires { node < length self.now.nodes }
        ensures { result ≡ first (siblings_after self.now.nodes node) }
    {
        next_in(&self.nodes, node)
    }

    /// The previous child of the same parent.
    pub fn previous_sibling(&self, node: usize) -> Option<usize>
        requires { node < length self.now.nodes }
        ensures { result ≡ first (siblings_before self.now.nodes node) }
    {
        previous_in(&self.nodes, node)
    }

    /// The children of a node, first to last.
    pub fn children(&self, node: usize) -> Children<'_, A>
        requires { node < length self.now.nodes }
        ensures children { result ≡ children_at self.now.nodes node }
        ensures countable { length result < 2 ^ 64 }
    {
        Children {
            nodes: &self.nodes,
            next: first_of(&self.nodes, node),
        }
    }

    /// The children of a node, last to first.
    pub fn children_reversed(&self, node: usize) -> PreviousSiblings<'_, A>
        requires { node < length self.now.nodes }
        ensures children { result ≡ reverse (children_at self.now.nodes node) }
        ensures countable { length result < 2 ^ 64 }
    {
        PreviousSiblings {
            nodes: &self.nodes,
            next: last_of(&self.nodes, node),
        }
    }

    /// The siblings after a node, nearest first.
    pub fn next_siblings(&self, node: usize) -> Children<'_, A>
        requires { node < length self.now.nodes }
        ensures siblings { result ≡ siblings_after self.now.nodes node }
        ensures countable { length result < 2 ^ 64 }
    {
        Children {
            nodes: &self.nodes,
            next: next_of(&self.nodes, node),
        }
    }

    /// The siblings before a node, nearest first.
    pub fn previous_siblings(&self, node: usize) -> PreviousSiblings<'_, A>
        requires { node < length self.now.nodes }
        ensures siblings { result ≡ siblings_before self.now.nodes node }
        ensures countable { length result < 2 ^ 64 }
    {
        PreviousSiblings {
            nodes: &self.nodes,
            next: previous_of(&self.nodes, node),
        }
    }
}

/// Children of a container from one on, seen as the list of those that are left.
#[derive(Drop)]
pub struct Children<'a, A: Allocator> {
    nodes: &'a Vec<Node<A>, A>,
    next: Option<usize>,
}

impl<'a, A: Allocator> Model for Children<'a, A> {
    ghost use Rattle.std.specs.Prelude.{ℕ, List, length};

    ghost Value = { List ℕ };

    ghost use Rattle.jsonc_tree.specs.Stored.{chain, IsStored, Stands};

    ghost view = { λ it. chain (length it.nodes.now.items) it.nodes.now.items it.next };

    ghost invariant = { λ it. IsStored it.nodes.now.items × Stands it.nodes.now.items it.next };
}

impl<'a, A: Allocator> Iterator for Children<'a, A> {
    type Item = usize;

    ghost next_gives = { YieldsFirst (λ rest. rest) };

    ghost remaining = { item_count (λ rest. rest) };

    fn next(&mut self) -> Option<usize> {
        let nodes = self.nodes;
        let Some(n) = self.next else {
            return None;
        };
        self.next = next_of(nodes, n);
        Some(n)
    }
}

/// Children of a container from one back, seen as the list of those that are left.
#[derive(Drop)]
pub struct PreviousSiblings<'a, A: Allocator> {
    nodes: &'a Vec<Node<A>, A>,
    next: Option<usize>,
}

impl<'a, A: Allocator> Model for PreviousSiblings<'a, A> {
    ghost use Rattle.std.specs.Prelude.{ℕ, List, length};

    ghost Value = { List ℕ };

    ghost use Rattle.jsonc_tree.specs.Stored.{chain_back, IsStored, StandsBefore};

    ghost view = { λ it. chain_back (length it.nodes.now.items) it.nodes.now.items it.next };

    ghost invariant = { λ it. IsStored it.nodes.now.items × StandsBefore it.nodes.now.items it.next };
}

impl<'a, A: Allocator> Iterator for PreviousSiblings<'a, A> {
    type Item = usize;

    ghost next_gives = { YieldsFirst (λ rest. rest) };

    ghost remaining = { item_count (λ rest. rest) };

    fn next(&mut self) -> Option<usize> {
        let nodes = self.nodes;
        let Some(n) = self.next else {
            return None;
        };
        self.next = previous_of(nodes, n);
        Some(n)
    }
}
