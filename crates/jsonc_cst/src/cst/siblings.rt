//! The siblings of a node, one after another.

ghost use Rattle.std.specs.Iterator.{YieldsFirst, item_count};

use super::access::node_at;
use super::node::CstNode;
use jsonc_layout::nodes::{Children, PreviousSiblings};
use jsonc_tree::Tree;
use std::alloc::Allocator;
use std::marker::Model;

/// An iterator over the siblings before a node, nearest first.
///
/// It is seen as the list of those that remain.
#[derive(Drop)]
pub struct PreviousSiblingIterator<'a, A: Allocator> {
    pub(super) tree: &'a Tree<A>,
    pub(super) before: PreviousSiblings<'a, A>,
}

impl<'a, A: Allocator> Model for PreviousSiblingIterator<'a, A> {
    ghost use Rattle.std.specs.Prelude.{List};
    ghost use Rattle.jsonc_layout.specs.nodes.Siblings.{AreThere};
    ghost use Rattle.jsonc_cst.specs.declared.cst.node.CstNode.{CstNode};
    ghost use Rattle.jsonc_cst.specs.Readings.{typed_all};

    ghost Value = { List CstNode };

    ghost view = { λ it. typed_all it.tree.now.nodes it.before };

    ghost invariant = { λ it. AreThere it.tree.now.nodes it.before };
}

impl<'a, A: Allocator> Iterator for PreviousSiblingIterator<'a, A> {
    type Item = CstNode;

    ghost next_gives = { YieldsFirst (λ rest. rest) };

    ghost remaining = { item_count (λ rest. rest) };

    fn next(&mut self) -> Option<CstNode> {
        let Some(number) = self.before.next() else {
            return None;
        };
        Some(node_at(self.tree, number))
    }
}

/// An iterator over the siblings after a node, nearest first.
///
/// It is seen as the list of those that remain.
#[derive(Drop)]
pub struct NextSiblingIterator<'a, A: Allocator> {
    pub(super) tree: &'a Tree<A>,
    pub(super) after: Children<'a, A>,
}

impl<'a, A: Allocator> Model for NextSiblingIterator<'a, A> {
    ghost use Rattle.std.specs.Prelude.{List};
    ghost use Rattle.jsonc_layout.specs.nodes.Siblings.{AreThere};
    ghost use Rattle.jsonc_cst.specs.declared.cst.node.CstNode.{CstNode};
    ghost use Rattle.jsonc_cst.specs.Readings.{typed_all};

    ghost Value = { List CstNode };

    ghost view = { λ it. typed_all it.tree.now.nodes it.after };

    ghost invariant = { λ it. AreThere it.tree.now.nodes it.after };
}

impl<'a, A: Allocator> Iterator for NextSiblingIterator<'a, A> {
    type Item = CstNode;

    ghost next_gives = { YieldsFirst (λ rest. rest) };

    ghost remaining = { item_count (λ rest. rest) };

    fn next(&mut self) -> Option<CstNode> {
        let Some(number) = self.after.next() else {
            return None;
        };
        Some(node_at(self.tree, number))
    }
}
