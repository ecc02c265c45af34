//! The links of a row: how they are read and written, one at a time.

ghost use Rattle.std.specs.Prelude.{◌≡◌, ◌<◌, ◌≤◌, ◌+◌, ◌-◌, ◌^◌, true, vec_len};
ghost use Rattle.std.specs.Prelude.{IfOk, IfSome, OnErr, OnOk};
ghost use Rattle.jsonc_tree.specs.Content.{is_container, is_newline};
ghost use Rattle.jsonc_tree.specs.Stored.{link_at, ahead_set, back_set, counted_in, counted_out, place_set};

use crate::node::Node;
use std::alloc::{AllocError, Allocator};

// The number of the next node. It is out of memory where no link can hold that number.
#[inline(always)]
pub(crate) fn next_number<A: Allocator>(nodes: &Vec<Node<A>, A>) -> Result<usize, AllocError>
    ensures number { IfOk result (λ n. n ≡ vec_len nodes.now) }
    ensures fits { OnOk result (vec_len nodes.now < 2 ^ 32 - 1) }
    ensures full { OnErr result (2 ^ 32 - 1 ≤ vec_len nodes.now) }
{
    let number = nodes.len();
    if number >= u32::MAX as usize {
        return Err(AllocError);
    }
    Ok(number)
}

// The node before a gap leads on to this one, or the container if there is none before.
#[inline(always)]
pub(crate) fn set_ahead<A: Allocator>(
    nodes: &mut Vec<Node<A>, A>,
    c: usize,
    before: Option<usize>,
    to: Option<usize>,
)
    requires in_tree { c < vec_len nodes.old }
    requires container { is_container (link_at nodes.old.items c).content ≡ true }
    requires before { IfSome before (λ n. n < vec_len nodes.old) }
    requires to { IfSome to (λ n. n < 2 ^ 32 - 1) }
    ensures nodes { nodes.new.items ≡ ahead_set nodes.old.items c before to }
    ensures len { vec_len nodes.new ≡ vec_len nodes.old }
{
    match before {
        None => {
            let container = &mut nodes[c];
            container.set_first(to);
        }
        Some(n) => {
            let node = &mut nodes[n];
            node.set_next(to);
        }
    }
}

// The node after a gap leads back to this one, or the container if there is none after it.
pub(crate) fn set_back<A: Allocator>(
    nodes: &mut Vec<Node<A>, A>,
    c: usize,
    behind: Option<usize>,
    to: Option<usize>,
)
    requires in_tree { c < vec_len nodes.old }
    requires container { is_container (link_at nodes.old.items c).content ≡ true }
    requires behind { IfSome behind (λ n. n < vec_len nodes.old) }
    requires to { IfSome to (λ n. n < 2 ^ 32 - 1) }
    ensures nodes { nodes.new.items ≡ back_set nodes.old.items c behind to }
    ensures len { vec_len nodes.new ≡ vec_len nodes.old }
{
    match behind {
        None => {
            let container = &mut nodes[c];
            container.set_last(to);
        }
        Some(n) => {
            let node = &mut nodes[n];
            node.set_previous(to);
        }
    }
}

// The node gets this parent and these neighbours.
pub(crate) fn set_place<A: Allocator>(
    nodes: &mut Vec<Node<A>, A>,
    n: usize,
    parent: Option<usize>,
    previous: Option<usize>,
    next: Option<usize>,
)
    requires in_tree { n < vec_len nodes.old }
    requires parent { IfSome parent (λ n. n < 2 ^ 32 - 1) }
    requires previous { IfSome previous (λ n. n < 2 ^ 32 - 1) }
    requires next { IfSome next (λ n. n < 2 ^ 32 - 1) }
    ensures nodes { nodes.new.items ≡ place_set nodes.old.items n parent previous next }
    ensures len { vec_len nodes.new ≡ vec_len nodes.old }
{
    let node = &mut nodes[n];
    node.set_place(parent, previous, next);
}

// How many ends of lines a container counts.
pub(crate) fn lines_of<A: Allocator>(nodes: &Vec<Node<A>, A>, c: usize) -> u32
    requires { c < vec_len nodes.now }
    ensures { result ≡ (link_at nodes.now.items c).lines }
{
    let container = &nodes[c];
    container.lines()
}

// It counts one more, if that is the end of a line.
#[inline(always)]
pub(crate) fn count_in<A: Allocator>(nodes: &mut Vec<Node<A>, A>, c: usize, newline: bool)
    requires in_tree { c < vec_len nodes.old }
    requires fits { (link_at nodes.old.items c).lines + 1 < 2 ^ 32 }
    ensures nodes { nodes.new.items ≡ counted_in nodes.old.items c newline }
    ensures len { vec_len nodes.new ≡ vec_len nodes.old }
{
    if newline {
        let container = &mut nodes[c];
        container.add_line();
    }
}

// It counts one fewer, if that was the end of a line.
pub(crate) fn count_out<A: Allocator>(nodes: &mut Vec<Node<A>, A>, c: usize, newline: bool)
    requires in_tree { c < vec_len nodes.old }
    requires counted { newline ≡ true → 1 ≤ (link_at nodes.old.items c).lines }
    ensures nodes { nodes.new.items ≡ counted_out nodes.old.items c newline }
    ensures len { vec_len nodes.new ≡ vec_len nodes.old }
{
    if newline {
        let container = &mut nodes[c];
        container.remove_line();
    }
}

// Whether a node is the end of a line.
pub(crate) fn is_newline<A: Allocator>(nodes: &Vec<Node<A>, A>, n: usize) -> bool
    requires { n < vec_len nodes.now }
    ensures { result ≡ is_newline (link_at nodes.now.items n).content }
{
    let node = &nodes[n];
    node.kind().is_newline()
}

pub(crate) fn parent_of<A: Allocator>(nodes: &Vec<Node<A>, A>, n: usize) -> Option<usize>
    requires { n < vec_len nodes.now }
    ensures { result ≡ (link_at nodes.now.items n).parent }
{
    let node = &nodes[n];
    node.parent()
}

pub(crate) fn next_of<A: Allocator>(nodes: &Vec<Node<A>, A>, n: usize) -> Option<usize>
    requires { n < vec_len nodes.now }
    ensures { result ≡ (link_at nodes.now.items n).next }
{
    let node = &nodes[n];
    node.next()
}

pub(crate) fn previous_of<A: Allocator>(nodes: &Vec<Node<A>, A>, n: usize) -> Option<usize>
    requires { n < vec_len nodes.now }
    ensures { result ≡ (link_at nodes.now.items n).previous }
{
    let node = &nodes[n];
    node.previous()
}

pub(crate) fn first_of<A: Allocator>(nodes: &Vec<Node<A>, A>, n: usize) -> Option<usize>
    requires { n < vec_len nodes.now }
    ensures { result ≡ (link_at nodes.now.items n).first }
{
    let node = &nodes[n];
    node.first()
}

pub(crate) fn last_of<A: Allocator>(nodes: &Vec<Node<A>, A>, n: usize) -> Option<usize>
    requires { n < vec_len nodes.now }
    ensures { result ≡ (link_at nodes.now.items n).last }
{
    let node = &nodes[n];
    node.last()
}
