//! A tree under way that is fast to add to.

ghost use Rattle.std.specs.Prelude.{◌≡◌, ◌<◌, ◌≤◌, ◌+◌, ◌-◌, ◌^◌, [], true, length, max, vec_len};
ghost use Rattle.std.specs.Prelude.{IsTrue, IfOk, IfSome, OnOk};
ghost use Rattle.jsonc_tree.specs.Content.{is_container};
ghost use Rattle.jsonc_tree.specs.Tree.{children_at, is_container_at};
ghost use Rattle.jsonc_tree.specs.Changes.{Pushes};
ghost use Rattle.jsonc_tree.specs.Growing.{IsGrowing, child_behind, container_of, nodes_so_far, room_of};
ghost use Rattle.jsonc_tree.specs.Stored.{content_of, link_at};

use crate::link::WideLink;
use crate::links::{count_in, last_of, next_number, set_ahead, set_back};
use crate::node::{Ends, Kind, Node, bare_node, node_in};
use crate::tree::Tree;
use std::alloc::{AllocError, Allocator};

/// A tree under way: nodes are added after the last child of one container at a time.
///
/// Which child that is is written into the container only when that is left.
#[derive(Drop)]
pub struct Growing<A: Allocator> {
    nodes: Vec<Node<A>, A>,
    container: usize,
    last: WideLink,
}

// Adds a node after the last child of a container, but leaves the container's link to that.
#[inline(always)]
fn push_behind<A: Allocator>(
    nodes: &mut Vec<Node<A>, A>,
    c: usize,
    last: Option<usize>,
    kind: Kind<A>,
) -> Result<usize, AllocError>
    requires in_tree { c < vec_len nodes.old }
    requires container { is_container (link_at nodes.old.items c).content ≡ true }
    requires last { IfSome last (λ n. n < vec_len nodes.old) }
    requires lines { (link_at nodes.old.items c).lines + 1 < 2 ^ 32 }
    ensures number { IfOk result (λ n. n ≡ vec_len nodes.old) }
    ensures fits { OnOk result (vec_len nodes.old < 2 ^ 32 - 1) }
    ensures nodes { OnOk result (nodes.new.items ≡ child_behind nodes.old.items c last (content_of kind) (vec_len nodes.old)) }
{
    let number = next_number(nodes)?;
    let newline = kind.is_newline();
    nodes.push(node_in(kind, c, last))?;
    set_ahead(nodes, c, last, Some(number));
    count_in(nodes, c, newline);
    Ok(number)
}

impl<A: Allocator> Growing<A> {
    /// A root with nothing in it, which is the container at hand.
    pub fn new(alloc: A) -> Result<Self, AllocError>
        ensures growing { IfOk result IsGrowing }
        ensures one { IfOk result (λ g. length (nodes_so_far g) ≡ 1) }
        ensures bare { IfOk result (λ g. children_at (nodes_so_far g) 0 ≡ []) }
        ensures root { IfOk result (λ g. container_of g ≡ 0) }
    {
        let mut nodes = Vec::new(alloc);
        nodes.push(bare_node(Kind::Root(Ends::none())))?;
        Ok(Growing {
            nodes,
            container: 0,
            last: WideLink::from_option(None),
        })
    }

    /// The container at hand.
    #[inline(always)]
    pub fn container(&self) -> usize
        ensures { result ≡ container_of self.now }
    {
        self.container
    }

    /// How many nodes there are.
    pub fn len(&self) -> usize
        ensures { result ≡ length (nodes_so_far self.now) }
    {
        self.nodes.len()
    }

    /// How many more nodes there is memory for.
    #[inline(always)]
    pub fn spare(&self) -> usize
        ensures { result ≡ room_of self.now }
    {
        self.nodes.capacity() - self.nodes.len()
    }

    /// Makes room for so many more nodes, and for no more than that where it takes memory.
    ///
    /// On an error the tree stays as it was.
    pub fn reserve_nodes(&mut self, additional: usize) -> Result<(), AllocError>
        ensures nodes { nodes_so_far self.new ≡ nodes_so_far self.old }
        ensures container { container_of self.new ≡ container_of self.old }
        ensures growing { IsGrowing self.old → IsGrowing self.new }
        ensures room { OnOk result (additional ≤ room_of self.new) }
        ensures exact { OnOk result (room_of self.new ≡ max (room_of self.old) additional) }
        ensures spare { room_of self.old ≤ room_of self.new }
    {
        self.nodes.reserve_exact(additional)
    }

    /// Adds a node as the last child of the container at hand, and answers its number.
    ///
    /// A tree has at most 2^32 - 1 nodes: one more is refused as out of memory.
    #[inline(always)]
    pub fn push(&mut self, kind: Kind<A>) -> Result<usize, AllocError>
        requires { IsGrowing self.old }
        ensures number { IfOk result (λ n. n ≡ length (nodes_so_far self.old)) }
        ensures pushes { OnOk result (Pushes (nodes_so_far self.old) (nodes_so_far self.new) (container_of self.old) (content_of kind)) }
        ensures container { OnOk result (container_of self.new ≡ container_of self.old) }
        ensures growing { OnOk result (IsGrowing self.new) }
    {
        let last = self.last.get();
        let number = push_behind(&mut self.nodes, self.container, last, kind)?;
        self.last = WideLink::from_option(Some(number));
        Ok(number)
    }

    /// Leaves the container at hand, and goes on after the last child of another.
    pub fn enter(&mut self, container: usize)
        requires growing { IsGrowing self.old }
        requires in_tree { container < length (nodes_so_far self.old) }
        requires holds { IsTrue (is_container_at (nodes_so_far self.old) container) }
        ensures nodes { nodes_so_far self.new ≡ nodes_so_far self.old }
        ensures container { container_of self.new ≡ container }
        ensures growing { IsGrowing self.new }
    {
        let last = self.last.get();
        set_back(&mut self.nodes, self.container, None, last);
        self.container = container;
        self.last = WideLink::from_option(last_of(&self.nodes, container));
    }

    /// The tree as it is now.
    pub fn finish(self) -> Tree<A>
        requires { IsGrowing self }
        ensures nodes { result.nodes ≡ nodes_so_far self }
    {
        let Growing {
            nodes,
            container,
            last,
        } = self;
        let mut nodes = nodes;
        set_back(&mut nodes, container, None, last.get());
        Tree { nodes }
    }
}
