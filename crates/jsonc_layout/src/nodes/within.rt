//! The elements of a container: its children but trivia and tokens.

ghost use Rattle.std.specs.Prelude.{◌≡◌, ◌<◌, ◌++◌, filter, length, IfOk, OnOk};
ghost use Rattle.std.specs.List.{find, slice_get};
ghost use Rattle.jsonc_tree.specs.Tree.{children_at};
ghost use Rattle.jsonc_layout.specs.nodes.Kinds.{is_element_at};
ghost use Rattle.jsonc_layout.specs.nodes.Siblings.{AreThere, IsThere, element_index_at, elements_at};
ghost use Rattle.jsonc_layout.specs.nodes.Siblings.{next_element_at, previous_element_at, siblings_before};

use crate::nodes::kinds::is_element;
use crate::nodes::siblings::{next_siblings, previous_siblings};
use jsonc_tree::{Children, PreviousSiblings, Tree};
use std::alloc::{AllocError, Allocator};

/// Adds the children of a node to a list, in order.
pub fn push_children<A: Allocator, B: Allocator>(
    list: &mut Vec<usize, B>,
    tree: &Tree<A>,
    node: usize,
) -> Result<(), AllocError>
    requires { node < length tree.now.nodes }
    ensures { OnOk result (list.new.items ≡ list.old.items ++ children_at tree.now.nodes node) }
{
    for child in tree.children(node) {
        list.push(child)?;
    }
    Ok(())
}

/// The children of a node, in order.
pub fn children<A: Allocator, B: Allocator>(
    alloc: B,
    tree: &Tree<A>,
    node: usize,
) -> Result<Vec<usize, B>, AllocError>
    requires { node < length tree.now.nodes }
    ensures children { IfOk result (λ v. v.items ≡ children_at tree.now.nodes node) }
    ensures in_tree { IfOk result (λ v. AreThere tree.now.nodes v.items) }
{
    let mut list = Vec::new(alloc);
    push_children(&mut list, tree, node)?;
    Ok(list)
}

/// The elements of a node, in order.
pub fn elements<A: Allocator, B: Allocator>(
    alloc: B,
    tree: &Tree<A>,
    node: usize,
) -> Result<Vec<usize, B>, AllocError>
    requires { node < length tree.now.nodes }
    ensures elements { IfOk result (λ v. v.items ≡ elements_at tree.now.nodes node) }
    ensures in_tree { IfOk result (λ v. AreThere tree.now.nodes v.items) }
{
    let mut list = Vec::new(alloc);
    for child in tree.children(node) {
        if is_element(tree, child) {
            list.push(child)?;
        }
    }
    Ok(list)
}

/// The element at a place among the elements of a node, counted from 0, or none where there are fewer.
pub fn element_at<A: Allocator>(tree: &Tree<A>, node: usize, place: usize) -> Option<usize>
    requires { node < length tree.now.nodes }
    ensures element { result ≡ slice_get (elements_at tree.now.nodes node) place }
    ensures in_tree { IsThere tree.now.nodes result }
{
    let mut left = place;
    for candidate in tree.children(node) {
        if !is_element(tree, candidate) {
            continue;
        }
        if left == 0 {
            return Some(candidate);
        }
        left -= 1;
    }
    None
}

// How many elements stand before a node among its siblings.
fn elements_before<A: Allocator>(tree: &Tree<A>, node: usize) -> usize
    requires { node < length tree.now.nodes }
    ensures { result ≡ length (filter (is_element_at tree.now.nodes) (siblings_before tree.now.nodes node)) }
{
    let mut count = 0;
    for sibling in previous_siblings(tree, node) {
        if is_element(tree, sibling) {
            count += 1;
        }
    }
    count
}

/// How many elements of its parent stand before a node, or none where it has no parent.
///
/// Of an element this is its place among the elements.
pub fn element_index<A: Allocator>(tree: &Tree<A>, node: usize) -> Option<usize>
    requires { node < length tree.now.nodes }
    ensures index { result ≡ element_index_at tree.now.nodes node }
{
    match tree.parent(node) {
        Some(_) => Some(elements_before(tree, node)),
        None => None,
    }
}

// The first element of a row.
pub(crate) fn first_element<A: Allocator>(tree: &Tree<A>, row: Children<'_, A>) -> Option<usize>
    ensures { result ≡ find (is_element_at tree.now.nodes) row.entry }
{
    for node in row {
        if is_element(tree, node) {
            return Some(node);
        }
    }
    None
}

// The same of a row that is read backward.
pub(crate) fn first_element_back<A: Allocator>(
    tree: &Tree<A>,
    row: PreviousSiblings<'_, A>,
) -> Option<usize>
    ensures { result ≡ find (is_element_at tree.now.nodes) row.entry }
{
    for node in row {
        if is_element(tree, node) {
            return Some(node);
        }
    }
    None
}

/// The nearest element after a node, among its siblings.
pub fn next_element<A: Allocator>(tree: &Tree<A>, node: usize) -> Option<usize>
    requires { node < length tree.now.nodes }
    ensures element { result ≡ next_element_at tree.now.nodes node }
    ensures in_tree { IsThere tree.now.nodes result }
{
    first_element(tree, next_siblings(tree, node))
}

/// The nearest element before a node, among its siblings.
pub fn previous_element<A: Allocator>(tree: &Tree<A>, node: usize) -> Option<usize>
    requires { node < length tree.now.nodes }
    ensures element { result ≡ previous_element_at tree.now.nodes node }
    ensures in_tree { IsThere tree.now.nodes result }
{
    first_element_back(tree, previous_siblings(tree, node))
}
