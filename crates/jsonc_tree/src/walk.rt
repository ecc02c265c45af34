//! Walks over a tree: up, along a row and in the order of the document.

ghost use Rattle.std.specs.Prelude.{◌≡◌, ◌<◌, ◌≤◌, ◌∷◌, length, slice_index, slice_get, Some, IfSome};
ghost use Rattle.std.specs.Prelude.{vec_len};
ghost use Rattle.std.specs.Iterator.{YieldsFirst, item_count};
ghost use Rattle.jsonc_tree.specs.Tree.{children_at, content_at, parent_at, place_at, IsOver};
ghost use Rattle.jsonc_tree.specs.Order.{following, rest_at, upward};
ghost use Rattle.jsonc_tree.specs.Stored.{content_of, nodes_in, IsStored};

use crate::links::{first_of, next_of, parent_of, previous_of};
use crate::node::{Kind, Node};
use crate::siblings::first_in;
use crate::tree::Tree;
use std::alloc::Allocator;
use std::marker::Model;

pub(crate) fn kind_of<A: Allocator>(nodes: &Vec<Node<A>, A>, n: usize) -> &Kind<A>
    requires { n < vec_len nodes.now }
    ensures { content_of result.now ≡ content_at (nodes_in nodes.now) n }
{
    let node = &nodes[n];
    node.kind()
}

pub(crate) fn parent_in<A: Allocator>(nodes: &Vec<Node<A>, A>, n: usize) -> Option<usize>
    requires { n < vec_len nodes.now }
    ensures { result ≡ parent_at (nodes_in nodes.now) n }
{
    parent_of(nodes, n)
}

// How many children a node has, counted along the links.
fn count_of<A: Allocator>(nodes: &Vec<Node<A>, A>, c: usize) -> usize
    requires stored { IsStored nodes.now.items }
    requires in_tree { c < vec_len nodes.now }
    ensures { result ≡ length (children_at (nodes_in nodes.now) c) }
{
    let mut count = 0;
    let mut at = first_of(nodes, c);
    while let Some(n) = at {
        count += 1;
        at = next_of(nodes, n);
    }
    count
}

// A node's place among its parent's children, or 0, counted along the links.
fn place_of<A: Allocator>(nodes: &Vec<Node<A>, A>, n: usize) -> usize
    requires stored { IsStored nodes.now.items }
    requires in_tree { n < vec_len nodes.now }
    ensures { result ≡ place_at (nodes_in nodes.now) n }
{
    let mut count = 0;
    let mut at = previous_of(nodes, n);
    while let Some(m) = at {
        count += 1;
        at = previous_of(nodes, m);
    }
    count
}

// The child at a place, if there is one, counted along the links.
pub(crate) fn child_from<A: Allocator>(
    nodes: &Vec<Node<A>, A>,
    c: usize,
    place: usize,
) -> Option<usize>
    requires stored { IsStored nodes.now.items }
    requires in_tree { c < vec_len nodes.now }
    requires within { place ≤ length (children_at (nodes_in nodes.now) c) }
    ensures { result ≡ slice_get (children_at (nodes_in nodes.now) c) place }
{
    let mut at = first_of(nodes, c);
    for _i in 0..place {
        let Some(n) = at else { unreachable!() };
        at = next_of(nodes, n);
    }
    at
}

// The child at a place, counted along the links.
fn child_of<A: Allocator>(nodes: &Vec<Node<A>, A>, c: usize, place: usize) -> usize
    requires stored { IsStored nodes.now.items }
    requires in_tree { c < vec_len nodes.now }
    requires within { place < length (children_at (nodes_in nodes.now) c) }
    ensures child { result ≡ slice_index (children_at (nodes_in nodes.now) c) place }
    ensures in_tree { result < vec_len nodes.now }
{
    let Some(n) = child_from(nodes, c, place) else {
        unreachable!()
    };
    n
}

// The node after those below `n`, before what is below `end` is over.
fn next_after<A: Allocator>(nodes: &Vec<Node<A>, A>, end: usize, n: usize) -> Option<usize>
    requires stored { IsStored nodes.now.items }
    requires in_tree { n < vec_len nodes.now }
    requires over { IsOver (nodes_in nodes.now) end n }
    ensures next { following (nodes_in nodes.now) end n ≡ rest_at (nodes_in nodes.now) end result }
    ensures in_tree { IfSome result (λ m. m < vec_len nodes.now) }
    ensures over { IfSome result (λ m. IsOver (nodes_in nodes.now) end m) }
{
    let mut at = n;
    while at != end {
        let Some(parent) = parent_in(nodes, at) else {
            return None;
        };
        if let Some(next) = next_of(nodes, at) {
            return Some(next);
        }
        at = parent;
    }
    None
}

// The node after `n` where what is below `end` is walked in order.
pub(crate) fn node_after<A: Allocator>(
    nodes: &Vec<Node<A>, A>,
    end: usize,
    n: usize,
) -> Option<usize>
    requires stored { IsStored nodes.now.items }
    requires in_tree { n < vec_len nodes.now }
    requires over { IsOver (nodes_in nodes.now) end n }
    ensures rest { rest_at (nodes_in nodes.now) end (Some n) ≡ n ∷ rest_at (nodes_in nodes.now) end result }
    ensures in_tree { IfSome result (λ m. m < vec_len nodes.now) }
    ensures over { IfSome result (λ m. IsOver (nodes_in nodes.now) end m) }
{
    if let Some(first) = first_in(nodes, n) {
        return Some(first);
    }
    next_after(nodes, end, n)
}

impl<A: Allocator> Tree<A> {
    /// What a node is.
    pub fn kind(&self, node: usize) -> &Kind<A>
        requires { node < length self.now.nodes }
        ensures { content_of result.now ≡ content_at self.now.nodes node }
    {
        kind_of(&self.nodes, node)
    }

    /// The container that a node is a child of, if there is one.
    pub fn parent(&self, node: usize) -> Option<usize>
        requires { node < length self.now.nodes }
        ensures { result ≡ parent_at self.now.nodes node }
    {
        parent_in(&self.nodes, node)
    }

    /// A node's place among its parent's children, or 0.
    pub fn child_index(&self, node: usize) -> usize
        requires { node < length self.now.nodes }
        ensures { result ≡ place_at self.now.nodes node }
    {
        place_of(&self.nodes, node)
    }

    /// How many children a node has.
    pub fn child_count(&self, node: usize) -> usize
        requires { node < length self.now.nodes }
        ensures { result ≡ length (children_at self.now.nodes node) }
    {
        count_of(&self.nodes, node)
    }

    /// The child at a place, counted from 0.
    pub fn child_at(&self, node: usize, place: usize) -> usize
        requires in_tree { node < length self.now.nodes }
        requires within { place < length (children_at self.now.nodes node) }
        ensures child { result ≡ slice_index (children_at self.now.nodes node) place }
        ensures in_tree { result < length self.now.nodes }
    {
        child_of(&self.nodes, node, place)
    }

    /// The node after `node` in the order of the document, where a node comes before its children.
    ///
    /// The walk begins at `end` and ends with what is below it.
    pub fn next_in_order(&self, end: usize, node: usize) -> Option<usize>
        requires in_tree { node < length self.now.nodes }
        requires over { IsOver self.now.nodes end node }
        ensures rest { rest_at self.now.nodes end (Some node) ≡ node ∷ rest_at self.now.nodes end result }
        ensures in_tree { IfSome result (λ m. m < length self.now.nodes) }
        ensures over { IfSome result (λ m. IsOver self.now.nodes end m) }
    {
        node_after(&self.nodes, end, node)
    }

    /// The nodes above a node, nearest first.
    pub fn ancestors(&self, node: usize) -> Ancestors<'_, A>
        requires { node < length self.now.nodes }
        ensures { result ≡ upward self.now.nodes (parent_at self.now.nodes node) }
    {
        Ancestors {
            nodes: &self.nodes,
            next: parent_in(&self.nodes, node),
        }
    }
}

/// The nodes above a node, nearest first, seen as the list of those that are left.
#[derive(Drop)]
pub struct Ancestors<'a, A: Allocator> {
    nodes: &'a Vec<Node<A>, A>,
    next: Option<usize>,
}

impl<'a, A: Allocator> Model for Ancestors<'a, A> {
    ghost use Rattle.std.specs.Prelude.{ℕ, List, IfSome, ◌<◌, vec_len};

    ghost Value = { List ℕ };

    ghost use Rattle.jsonc_tree.specs.Stored.{nodes_of, IsStored};
    ghost use Rattle.jsonc_tree.specs.Order.{upward};

    ghost view = { λ it. upward (nodes_of it.nodes.now.items) it.next };

    ghost invariant = { λ it. IsStored it.nodes.now.items × IfSome it.next (λ n. n < vec_len it.nodes.now) };
}

impl<'a, A: Allocator> Iterator for Ancestors<'a, A> {
    type Item = usize;

    ghost next_gives = { YieldsFirst (λ rest. rest) };

    ghost remaining = { item_count (λ rest. rest) };

    fn next(&mut self) -> Option<usize> {
        let nodes = self.nodes;
        let Some(n) = self.next else {
            return None;
        };
        self.next = parent_in(nodes, n);
        Some(n)
    }
}
