//! A node and all below it, in the order of the document.

ghost use Rattle.std.specs.Prelude.{◌≡◌, map};
ghost use Rattle.std.specs.List.{All};
ghost use Rattle.std.specs.Iterator.{YieldsFirst, item_count};
ghost use Rattle.jsonc_cst.specs.Document.{nodes_of, HasNode};
ghost use Rattle.jsonc_cst.specs.Nodes.{number_of};
ghost use Rattle.jsonc_cst.specs.Ranges.{IsRangeOf, IsStartOf};
ghost use Rattle.jsonc_cst.specs.Readings.{descendants_of};

use super::CstRootNode;
use super::access::node_at;
use super::node::CstNode;
use super::ranges::{bytes_before, own_length, place_past, range_from};
use jsonc_text::common::Range;
use jsonc_tree::Tree;
use std::alloc::Allocator;
use std::marker::Model;

/// An iterator over a node and all below it, in the order of the document.
///
/// It is seen as the list of those that remain.
#[derive(Drop)]
pub struct DescendantIterator<'a, A: Allocator> {
    tree: &'a Tree<A>,
    end: usize,
    next: Option<usize>,
}

impl<'a, A: Allocator> Model for DescendantIterator<'a, A> {
    ghost use Rattle.std.specs.Prelude.{◌<◌, length, IfSome, List};
    ghost use Rattle.jsonc_tree.specs.Order.{rest_at};
    ghost use Rattle.jsonc_tree.specs.Tree.{IsOver};
    ghost use Rattle.jsonc_cst.specs.declared.cst.node.CstNode.{CstNode};
    ghost use Rattle.jsonc_cst.specs.Readings.{typed_all};

    ghost Value = { List CstNode };

    ghost view = { λ it. typed_all it.tree.now.nodes (rest_at it.tree.now.nodes it.end it.next) };

    ghost invariant = { λ it. IfSome it.next (λ n. n < length it.tree.now.nodes)
        × IfSome it.next (λ n. IsOver it.tree.now.nodes it.end n) };
}

impl<'a, A: Allocator> Iterator for DescendantIterator<'a, A> {
    type Item = CstNode;

    ghost next_gives = { YieldsFirst (λ rest. rest) };

    ghost remaining = { item_count (λ rest. rest) };

    fn next(&mut self) -> Option<CstNode> {
        let Some(number) = self.next else {
            return None;
        };
        self.next = self.tree.next_in_order(self.end, number);
        Some(node_at(self.tree, number))
    }
}

/// An iterator over a node and all below it, each with its range, in the order of the document.
///
/// It is seen as the list of those that remain.
#[derive(Drop)]
pub struct RangedDescendantIterator<'a, A: Allocator> {
    tree: &'a Tree<A>,
    end: usize,
    next: Option<usize>,
    at: Option<usize>,
}

impl<'a, A: Allocator> Model for RangedDescendantIterator<'a, A> {
    ghost use Rattle.std.specs.Prelude.{◌<◌, length, IfSome, List, Option};
    ghost use Rattle.jsonc_text.specs.declared.common.Range.{Range};
    ghost use Rattle.jsonc_tree.specs.Order.{rest_at};
    ghost use Rattle.jsonc_tree.specs.Tree.{IsOver};
    ghost use Rattle.jsonc_cst.specs.declared.cst.node.CstNode.{CstNode};
    ghost use Rattle.jsonc_cst.specs.Ranges.{with_ranges};

    ghost Value = { List (CstNode × Option Range) };

    ghost view = { λ it. with_ranges it.tree.now.nodes it.at (rest_at it.tree.now.nodes it.end it.next) };

    ghost invariant = { λ it. IfSome it.next (λ n. n < length it.tree.now.nodes)
        × IfSome it.next (λ n. IsOver it.tree.now.nodes it.end n) };
}

impl<'a, A: Allocator> Iterator for RangedDescendantIterator<'a, A> {
    type Item = (CstNode, Option<Range>);

    ghost next_gives = { YieldsFirst (λ rest. rest) };

    ghost remaining = { item_count (λ rest. rest) };

    fn next(&mut self) -> Option<(CstNode, Option<Range>)> {
        let tree = self.tree;
        let at = self.at;
        let Some(number) = self.next else {
            return None;
        };
        self.at = place_past(at, own_length(tree.kind(number)));
        self.next = tree.next_in_order(self.end, number);
        Some((node_at(tree, number), range_from(tree, at, number)))
    }
}

/// An iterator over a node and all below it, each with the place where it begins, in the order of the document.
///
/// It is seen as the list of those that remain.
#[derive(Drop)]
pub struct PlacedDescendantIterator<'a, A: Allocator> {
    tree: &'a Tree<A>,
    end: usize,
    next: Option<usize>,
    at: Option<usize>,
}

impl<'a, A: Allocator> Model for PlacedDescendantIterator<'a, A> {
    ghost use Rattle.std.specs.Prelude.{◌<◌, ℕ, length, IfSome, List, Option};
    ghost use Rattle.jsonc_tree.specs.Order.{rest_at};
    ghost use Rattle.jsonc_tree.specs.Tree.{IsOver};
    ghost use Rattle.jsonc_cst.specs.declared.cst.node.CstNode.{CstNode};
    ghost use Rattle.jsonc_cst.specs.Ranges.{with_starts};

    ghost Value = { List (CstNode × Option ℕ) };

    ghost view = { λ it. with_starts it.tree.now.nodes it.at (rest_at it.tree.now.nodes it.end it.next) };

    ghost invariant = { λ it. IfSome it.next (λ n. n < length it.tree.now.nodes)
        × IfSome it.next (λ n. IsOver it.tree.now.nodes it.end n) };
}

impl<'a, A: Allocator> Iterator for PlacedDescendantIterator<'a, A> {
    type Item = (CstNode, Option<usize>);

    ghost next_gives = { YieldsFirst (λ rest. rest) };

    ghost remaining = { item_count (λ rest. rest) };

    fn next(&mut self) -> Option<(CstNode, Option<usize>)> {
        let nodes = self.tree;
        let at = self.at;
        let Some(number) = self.next else {
            return None;
        };
        self.at = place_past(at, own_length(nodes.kind(number)));
        self.next = nodes.next_in_order(self.end, number);
        Some((node_at(nodes, number), at))
    }
}

impl<A: Allocator> CstRootNode<A> {
    /// An iterator over a node and all below it, in the order of the document.
    ///
    /// A node is before its children, and each is given once; tokens, blanks and comments are among them.
    /// Nothing is allocated. In `{"a": [1]}` the property's are itself, `"a"`, `:`, a blank, the array, `[`,
    /// `1` and `]`.
    pub fn descendants(&self, node: CstNode) -> DescendantIterator<'_, A>
        requires { HasNode self.now node }
        ensures nodes { result ≡ descendants_of self.now node }
        ensures in_document { All (HasNode self.now) result }
    {
        let number = node.number();
        DescendantIterator {
            tree: &self.tree,
            end: number,
            next: Some(number),
        }
    }

    /// An iterator over a node and all below it, in the order of the document, each with the place where it begins.
    ///
    /// The place counts the bytes of the document's text before it, None throughout for a detached node. The nodes
    /// before the node are passed once, and those below it once: it takes a fraction of the time of
    /// [`CstRootNode::descendants_with_ranges`], which looks for the end of each container too. Nothing is allocated.
    pub fn descendants_with_starts(&self, node: CstNode) -> PlacedDescendantIterator<'_, A>
        requires { HasNode self.now node }
        ensures nodes { map (λ x. x.0) result ≡ descendants_of self.now node }
        ensures in_document { All (λ x. HasNode self.now x.0) result }
        ensures starts { All (λ x. IsStartOf (nodes_of self.now) (number_of x.0) x.1) result }
    {
        let first = node.number();
        PlacedDescendantIterator {
            tree: &self.tree,
            end: first,
            next: Some(first),
            at: bytes_before(&self.tree, first),
        }
    }

    /// An iterator over a node and all below it, in the order of the document, each with its range.
    ///
    /// The ranges are those that [`CstRootNode::range`] answers, None throughout for a detached node. The nodes
    /// before the node are passed once, those below it once, and those below a container once more for its range.
    /// Nothing is allocated.
    pub fn descendants_with_ranges(&self, node: CstNode) -> RangedDescendantIterator<'_, A>
        requires { HasNode self.now node }
        ensures nodes { map (λ x. x.0) result ≡ descendants_of self.now node }
        ensures in_document { All (λ x. HasNode self.now x.0) result }
        ensures ranges { All (λ x. IsRangeOf (nodes_of self.now) (number_of x.0) x.1) result }
    {
        let top = node.number();
        RangedDescendantIterator {
            tree: &self.tree,
            end: top,
            next: Some(top),
            at: bytes_before(&self.tree, top),
        }
    }
}
