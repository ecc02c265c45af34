//! The nodes of a document, and their changes.

ghost use Rattle.std.specs.Prelude.{◌≡◌, false, IsTrue, ◌<◌, ◌≤◌, []};
ghost use Rattle.std.specs.Prelude.{length, vec_len, IfOk, OnErr, OnOk};
ghost use Rattle.jsonc_tree.specs.Content.{is_container};
ghost use Rattle.jsonc_tree.specs.Tree.{children_at, is_container_at};
ghost use Rattle.jsonc_tree.specs.Changes.{Adds, Appends, CanAppend};
ghost use Rattle.jsonc_tree.specs.Changes.{LeafBecomes, Pushes};
ghost use Rattle.jsonc_tree.specs.Siblings.{CanFill, CanReplace, Fills, IsStretch, Replaces};
ghost use Rattle.jsonc_tree.specs.Siblings.{TakesStretch};
ghost use Rattle.jsonc_tree.specs.Stored.{content_of, leaf_set, link_at, nodes_in, IsStored};
ghost use Rattle.jsonc_tree.specs.StoredOnce.{IsStored-prop};

use crate::links::{count_in, count_out, is_newline, next_number, parent_of};
use crate::node::{Ends, Kind, Node, bare_node};
use crate::splice::{append_node, put_row, replace_child, take_between};
use std::alloc::{AllocError, Allocator};
use std::marker::Model;

/// The nodes of a document, each named by its number. Node 0 is the root.
///
/// A node that was taken out stays, without a parent.
#[derive(Drop)]
pub struct Tree<A: Allocator> {
    pub(crate) nodes: Vec<Node<A>, A>,
    ghost stored: { IsStored nodes.items } by { IsStored-prop nodes.items },
}

impl<A: Allocator> Model for Tree<A> {
    ghost use Rattle.jsonc_tree.specs.Tree.{Tree as Nodes};
    ghost use Rattle.jsonc_tree.specs.Codes.{tree_code};

    ghost Value = { Nodes };

    ghost coded = { tree_code };

    ghost use Rattle.jsonc_tree.specs.Stored.{nodes_of};

    ghost view = { λ t. record {
      nodes = nodes_of t.nodes.items;
      tree = t.stored.tree;
    } };
}

// Writes what a leaf is now.
fn write_leaf<A: Allocator>(nodes: &mut Vec<Node<A>, A>, leaf: usize, kind: Kind<A>)
    requires in_tree { leaf < vec_len nodes.old }
    requires leaf { is_container (link_at nodes.old.items leaf).content ≡ false }
    requires stays { is_container (content_of kind) ≡ false }
    ensures nodes { nodes.new.items ≡ leaf_set nodes.old.items leaf (content_of kind) }
    ensures len { vec_len nodes.new ≡ vec_len nodes.old }
{
    let node = &mut nodes[leaf];
    node.set_leaf(kind);
}

// Lets a leaf become another.
fn set_leaf_at<A: Allocator>(nodes: &mut Vec<Node<A>, A>, leaf: usize, kind: Kind<A>)
    requires stored { IsStored nodes.old.items }
    requires in_tree { leaf < vec_len nodes.old }
    requires leaf { is_container_at (nodes_in nodes.old) leaf ≡ false }
    requires stays { is_container (content_of kind) ≡ false }
    ensures becomes { LeafBecomes (nodes_in nodes.old) (nodes_in nodes.new) leaf (content_of kind) }
    ensures stored { IsStored nodes.new.items }
    ensures len { vec_len nodes.new ≡ vec_len nodes.old }
{
    let parent = parent_of(nodes, leaf);
    let was = is_newline(nodes, leaf);
    let is = kind.is_newline();
    write_leaf(nodes, leaf, kind);
    let Some(c) = parent else {
        return;
    };
    count_out(nodes, c, was);
    count_in(nodes, c, is);
}

impl<A: Allocator> Tree<A> {
    /// How many nodes there are, those that were taken out included.
    pub fn len(&self) -> usize
        ensures len { result ≡ length self.now.nodes }
    {
        self.nodes.len()
    }

    /// Puts nodes in the place of a child, in the time that they take.
    ///
    /// The child is left without a parent. The nodes that are put in have none before, or are the child.
    pub fn replace(&mut self, node: usize, new: &[usize])
        requires in_tree { node < length self.old.nodes }
        requires can { CanReplace self.old.nodes node new.now }
        ensures replaces { Replaces self.old.nodes self.new.nodes node new.now }
    {
        replace_child(&mut self.nodes, node, new);
    }

    /// Takes the container's children from one to another out, in the time that they take.
    ///
    /// Each is left without a parent.
    pub fn remove_between(&mut self, container: usize, first: usize, last: usize)
        requires { IsStretch self.old.nodes container first last }
        ensures { TakesStretch self.old.nodes self.new.nodes container first last }
    {
        take_between(&mut self.nodes, container, first, last);
    }

    /// Puts nodes without a parent between two neighbours, or at an end of the container's row, in the
    /// time that they take.
    pub fn insert_between(
        &mut self,
        container: usize,
        before: Option<usize>,
        behind: Option<usize>,
        new: &[usize],
    )
        requires in_tree { container < length self.old.nodes }
        requires container { IsTrue (is_container_at self.old.nodes container) }
        requires can { CanFill self.old.nodes container before behind new.now }
        ensures fills { Fills self.old.nodes self.new.nodes container before behind new.now }
    {
        put_row(&mut self.nodes, container, before, behind, new);
    }

    /// Makes a node without a parent the last child of a container.
    pub fn append(&mut self, container: usize, node: usize)
        requires { CanAppend self.old.nodes container node }
        ensures { Appends self.old.nodes self.new.nodes container node }
    {
        append_node(&mut self.nodes, container, node);
    }

    /// Lets a leaf become another one, which may be of another kind, in its place.
    pub fn set_leaf(&mut self, leaf: usize, kind: Kind<A>)
        requires in_tree { leaf < length self.old.nodes }
        requires leaf { is_container_at self.old.nodes leaf ≡ false }
        requires stays { is_container (content_of kind) ≡ false }
        ensures becomes { LeafBecomes self.old.nodes self.new.nodes leaf (content_of kind) }
    {
        set_leaf_at(&mut self.nodes, leaf, kind);
    }
}

impl<A: Allocator> Tree<A> {
    /// A document with nothing in its root.
    pub fn new(alloc: A) -> Result<Self, AllocError>
        ensures one { IfOk result (λ t. length t.nodes ≡ 1) }
        ensures bare { IfOk result (λ t. children_at t.nodes 0 ≡ []) }
    {
        let mut nodes = Vec::new(alloc);
        nodes.push(bare_node(Kind::Root(Ends::none())))?;
        Ok(Tree { nodes })
    }

    /// Adds a node without a parent, and answers its number.
    ///
    /// A tree has at most 2^32 - 1 nodes: one more is refused as out of memory. On an error the tree
    /// stays as it was.
    pub fn add(&mut self, kind: Kind<A>) -> Result<usize, AllocError>
        ensures number { IfOk result (λ n. n ≡ length self.old.nodes) }
        ensures added { OnOk result (Adds self.old.nodes self.new.nodes (content_of kind)) }
        ensures err { OnErr result (self.new.nodes ≡ self.old.nodes) }
    {
        let number = next_number(&self.nodes)?;
        self.nodes.push(bare_node(kind))?;
        Ok(number)
    }

    /// Adds a node as a container's last child, and answers its number.
    ///
    /// A tree has at most 2^32 - 1 nodes: one more is refused as out of memory. On an error the tree
    /// stays as it was.
    pub fn push_child(&mut self, container: usize, kind: Kind<A>) -> Result<usize, AllocError>
        requires in_tree { container < length self.old.nodes }
        requires container { IsTrue (is_container_at self.old.nodes container) }
        ensures number { IfOk result (λ n. n ≡ length self.old.nodes) }
        ensures pushes { OnOk result (Pushes self.old.nodes self.new.nodes container (content_of kind)) }
        ensures err { OnErr result (self.new.nodes ≡ self.old.nodes) }
    {
        let child = self.add(kind)?;
        self.append(container, child);
        Ok(child)
    }
}

// Copies of nodes, each under its number.
fn copied_nodes<A: Allocator + Copy>(nodes: &Vec<Node<A>, A>) -> Result<Vec<Node<A>, A>, AllocError>
    ensures { IfOk result (λ copies. copies.items ≡ nodes.now.items) }
{
    let mut copies = Vec::with_capacity(*nodes.allocator(), nodes.len())?;
    for node in nodes {
        copies.push(node.try_clone()?)?;
    }
    Ok(copies)
}

impl<A: Allocator + Copy> Tree<A> {
    /// A copy of the tree, with the same nodes under the same numbers. What was parsed shares its text
    /// with the copy; only texts that were made anew are copied.
    pub fn try_clone(&self) -> Result<Tree<A>, AllocError>
        ensures { IfOk result (λ t. t.nodes ≡ self.now.nodes) }
    {
        let nodes = copied_nodes(&self.nodes)?;
        Ok(Tree { nodes })
    }
}
