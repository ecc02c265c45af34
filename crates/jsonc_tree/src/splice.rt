//! Nodes that are inserted into a row and removed from one.

ghost use Rattle.std.specs.Prelude.{◌≡◌, IsTrue, ◌<◌, ◌≤◌, ◌+◌, ◌∷◌, [], Some};
ghost use Rattle.std.specs.Prelude.{vec_len};
ghost use Rattle.jsonc_tree.specs.Tree.{parent_at, is_container_at};
ghost use Rattle.jsonc_tree.specs.Changes.{Appends, CanAppend};
ghost use Rattle.jsonc_tree.specs.Siblings.{CanFill, CanReplace, Fills, HasGap, IsStretch, Replaces};
ghost use Rattle.jsonc_tree.specs.Siblings.{TakesOut, TakesStretch};
ghost use Rattle.jsonc_tree.specs.Stored.{nodes_in, IsStored};

use crate::links::{
    count_in, count_out, is_newline, last_of, next_of, parent_of, previous_of, set_ahead, set_back,
    set_place,
};
use crate::node::Node;
use std::alloc::Allocator;

// Puts a node that stands alone into the gap between two neighbours of a row.
pub(crate) fn put_between<A: Allocator>(
    nodes: &mut Vec<Node<A>, A>,
    c: usize,
    before: Option<usize>,
    behind: Option<usize>,
    x: usize,
)
    requires stored { IsStored nodes.old.items }
    requires can { CanAppend (nodes_in nodes.old) c x }
    requires gap { HasGap (nodes_in nodes.old) c before behind }
    ensures fills { Fills (nodes_in nodes.old) (nodes_in nodes.new) c before behind (x ∷ []) }
    ensures stored { IsStored nodes.new.items }
    ensures len { vec_len nodes.new ≡ vec_len nodes.old }
{
    set_ahead(nodes, c, before, Some(x));
    set_back(nodes, c, behind, Some(x));
    set_place(nodes, x, Some(c), before, behind);
    let newline = is_newline(nodes, x);
    count_in(nodes, c, newline);
}

// Takes a child out of its row.
fn take_out<A: Allocator>(nodes: &mut Vec<Node<A>, A>, c: usize, x: usize)
    requires stored { IsStored nodes.old.items }
    requires in_tree { x < vec_len nodes.old }
    requires child { parent_at (nodes_in nodes.old) x ≡ Some c }
    ensures gone { TakesOut (nodes_in nodes.old) (nodes_in nodes.new) c x }
    ensures stored { IsStored nodes.new.items }
    ensures len { vec_len nodes.new ≡ vec_len nodes.old }
{
    let before = previous_of(nodes, x);
    let behind = next_of(nodes, x);
    set_ahead(nodes, c, before, behind);
    set_back(nodes, c, behind, before);
    set_place(nodes, x, None, None, None);
    let newline = is_newline(nodes, x);
    count_out(nodes, c, newline);
}

// Takes the children from one to another out of a row.
pub(crate) fn take_between<A: Allocator>(
    nodes: &mut Vec<Node<A>, A>,
    c: usize,
    first: usize,
    last: usize,
)
    requires stored { IsStored nodes.old.items }
    requires stretch { IsStretch (nodes_in nodes.old) c first last }
    ensures gone { TakesStretch (nodes_in nodes.old) (nodes_in nodes.new) c first last }
    ensures stored { IsStored nodes.new.items }
    ensures len { vec_len nodes.new ≡ vec_len nodes.old }
{
    let mut at = first;
    while at != last {
        let Some(next) = next_of(nodes, at) else {
            unreachable!()
        };
        take_out(nodes, c, at);
        at = next;
    }
    take_out(nodes, c, at);
}

// Puts nodes that stand alone into a gap of a row, one after the other.
pub(crate) fn put_row<A: Allocator>(
    nodes: &mut Vec<Node<A>, A>,
    c: usize,
    before: Option<usize>,
    behind: Option<usize>,
    new: &[usize],
)
    requires stored { IsStored nodes.old.items }
    requires in_tree { c < vec_len nodes.old }
    requires container { IsTrue (is_container_at (nodes_in nodes.old) c) }
    requires can { CanFill (nodes_in nodes.old) c before behind new.now }
    ensures fills { Fills (nodes_in nodes.old) (nodes_in nodes.new) c before behind new.now }
    ensures stored { IsStored nodes.new.items }
    ensures len { vec_len nodes.new ≡ vec_len nodes.old }
{
    let mut last = before;
    for i in 0..new.len() {
        let x = new[i];
        put_between(nodes, c, last, behind, x);
        last = Some(x);
    }
}

// Puts nodes in the place of a child.
pub(crate) fn replace_child<A: Allocator>(nodes: &mut Vec<Node<A>, A>, x: usize, new: &[usize])
    requires stored { IsStored nodes.old.items }
    requires in_tree { x < vec_len nodes.old }
    requires can { CanReplace (nodes_in nodes.old) x new.now }
    ensures replaces { Replaces (nodes_in nodes.old) (nodes_in nodes.new) x new.now }
    ensures stored { IsStored nodes.new.items }
    ensures len { vec_len nodes.new ≡ vec_len nodes.old }
{
    let Some(c) = parent_of(nodes, x) else {
        unreachable!()
    };
    let before = previous_of(nodes, x);
    let behind = next_of(nodes, x);
    take_out(nodes, c, x);
    put_row(nodes, c, before, behind, new);
}

// Makes a node that stands alone the last child of a container.
pub(crate) fn append_node<A: Allocator>(nodes: &mut Vec<Node<A>, A>, c: usize, x: usize)
    requires stored { IsStored nodes.old.items }
    requires can { CanAppend (nodes_in nodes.old) c x }
    ensures appends { Appends (nodes_in nodes.old) (nodes_in nodes.new) c x }
    ensures stored { IsStored nodes.new.items }
    ensures len { vec_len nodes.new ≡ vec_len nodes.old }
{
    let last = last_of(nodes, c);
    put_between(nodes, c, last, None, x);
}
