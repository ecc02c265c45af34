//! The pieces of a document: the bytes that each leaf prints, lent one leaf after another.

ghost use Rattle.std.specs.List.{concat};
ghost use Rattle.std.specs.Prelude.{◌≡◌, ◌<◌, false, length, vec_len, IfSome};
ghost use Rattle.std.specs.Iterator.{YieldsFirstRef, item_count};
ghost use Rattle.jsonc_tree.specs.Content.{text_of};
ghost use Rattle.jsonc_tree.specs.Order.{pieces_from};
ghost use Rattle.jsonc_tree.specs.OrderedTree.{leaves, ordered_tree, pieces, printed};
ghost use Rattle.jsonc_tree.specs.Stored.{content_of, nodes_in, IsStored};
ghost use Rattle.jsonc_tree.specs.Tree.{is_container_at, IsOver};

use crate::node::{Kind, Node};
use crate::tree::Tree;
use crate::walk::{kind_of, node_after};
use std::alloc::Allocator;
use std::marker::Model;

// The bytes that a node prints itself.
fn own_bytes<A: Allocator>(kind: &Kind<A>) -> &[u8]
    ensures { result.now ≡ text_of (content_of kind.now) }
{
    match kind {
        Kind::Root(_) | Kind::Object(_) | Kind::Array(_) | Kind::Property(_) => "".as_bytes(),
        Kind::String(s) => s.as_str().as_bytes(),
        Kind::Word(s) => s.as_str().as_bytes(),
        Kind::Number(s) => s.as_str().as_bytes(),
        Kind::Boolean(true) => "true".as_bytes(),
        Kind::Boolean(false) => "false".as_bytes(),
        Kind::Null => "null".as_bytes(),
        Kind::Token(c) => c.as_bytes(),
        Kind::Whitespace(s) => s.as_str().as_bytes(),
        Kind::Newline(kind) => kind.as_str().as_bytes(),
        Kind::Comment(s) => s.as_str().as_bytes(),
        Kind::StringPart(s) => s.as_str().as_bytes(),
        Kind::WordPart(s) => s.as_str().as_bytes(),
        Kind::NumberPart(s) => s.as_str().as_bytes(),
        Kind::WhitespacePart(s) => s.as_str().as_bytes(),
        Kind::CommentPart(s) => s.as_str().as_bytes(),
    }
}

// The first leaf from a node of the document on.
fn leaf_from<A: Allocator>(nodes: &Vec<Node<A>, A>, from: Option<usize>) -> Option<usize>
    requires stored { IsStored nodes.now.items }
    requires in_tree { IfSome from (λ n. n < vec_len nodes.now) }
    requires over { IfSome from (λ n. IsOver (nodes_in nodes.now) 0 n) }
    ensures same { pieces_from (nodes_in nodes.now) from ≡ pieces_from (nodes_in nodes.now) result }
    ensures leaf { IfSome result (λ n. is_container_at (nodes_in nodes.now) n ≡ false) }
    ensures in_tree { IfSome result (λ n. n < vec_len nodes.now) }
    ensures over { IfSome result (λ n. IsOver (nodes_in nodes.now) 0 n) }
{
    let mut next = from;
    while let Some(n) = next {
        if !kind_of(nodes, n).is_container() {
            return Some(n);
        }
        next = node_after(nodes, 0, n);
    }
    None
}

impl<A: Allocator> Tree<A> {
    /// The bytes that each leaf of the document prints, in order, a leaf that prints nothing included.
    pub fn pieces(&self) -> Pieces<'_, A>
        ensures pieces { result ≡ pieces (ordered_tree self.now.nodes 0) }
        ensures joined { concat result ≡ printed (ordered_tree self.now.nodes 0) }
        ensures count { length result ≡ length (leaves (ordered_tree self.now.nodes 0)) }
    {
        Pieces {
            nodes: &self.nodes,
            next: Some(0),
        }
    }
}

/// An iterator over the pieces that the leaves of a document print, in order.
///
/// It is seen as the list of those that are left.
#[derive(Drop)]
pub struct Pieces<'a, A: Allocator> {
    nodes: &'a Vec<Node<A>, A>,
    next: Option<usize>,
}

impl<'a, A: Allocator> Model for Pieces<'a, A> {
    ghost use Rattle.std.specs.Prelude.{ℕ, List, IfSome, ◌<◌, vec_len};

    ghost Value = { List (List ℕ) };

    ghost use Rattle.jsonc_tree.specs.Order.{pieces_from};
    ghost use Rattle.jsonc_tree.specs.Stored.{nodes_of, IsStored};
    ghost use Rattle.jsonc_tree.specs.Tree.{IsOver};

    ghost view = { λ it. pieces_from (nodes_of it.nodes.now.items) it.next };

    ghost invariant = { λ it. IsStored it.nodes.now.items
        × IfSome it.next (λ n. n < vec_len it.nodes.now)
        × IfSome it.next (λ n. IsOver (nodes_of it.nodes.now.items) 0 n) };
}

impl<'a, A: Allocator> Iterator for Pieces<'a, A> {
    type Item = &'a [u8];

    ghost next_gives = { YieldsFirstRef (λ rest. rest) };

    ghost remaining = { item_count (λ rest. rest) };

    fn next(&mut self) -> Option<&'a [u8]> {
        let nodes = self.nodes;
        let Some(n) = leaf_from(nodes, self.next) else {
            self.next = None;
            return None;
        };
        self.next = node_after(nodes, 0, n);
        Some(own_bytes(kind_of(nodes, n)))
    }
}
