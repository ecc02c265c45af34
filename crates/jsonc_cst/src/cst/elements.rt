//! The elements of arrays and the properties of objects.

ghost use Rattle.std.specs.Prelude.{◌≡◌, ◌<◌, length, IfErr, IfOk, IfSome};
ghost use Rattle.std.specs.List.{All, find};
ghost use Rattle.jsonc_layout.specs.nodes.Siblings.{siblings_after, siblings_before};
ghost use Rattle.jsonc_cst.specs.Document.{HasNode};
ghost use Rattle.jsonc_cst.specs.Nodes.{array_node, object_node, object_prop_node, typed_at};
ghost use Rattle.jsonc_cst.specs.Readings.{elements_of, element_index_of, properties_of};
ghost use Rattle.jsonc_cst.specs.Readings.{previous_property_of, next_property_of, property_index_of};
ghost use Rattle.jsonc_cst.specs.Readings.{is_property_at, typed_all};

use super::access::node_at;
use super::navigation::{ParentNode, TypedNode};
use super::node::{CstArray, CstContainerNode, CstNode, CstNullKeyword, CstObject, CstObjectProp};
use super::{CstRootNode, EditError};
use jsonc_layout::nodes::{children_from, next_siblings, previous_siblings};
use jsonc_tree::{Kind, Tree};
use std::alloc::{AllocError, Allocator};

// The node of a number. A number that names no node reads as `null`, as in contracts.
fn node_under<A: Allocator>(tree: &Tree<A>, number: usize) -> CstNode
    ensures { result ≡ typed_at tree.now.nodes number }
{
    if number >= tree.len() {
        return CstNullKeyword { number }.into();
    }
    node_at(tree, number)
}

// Whether the node of a number is a property.
pub(super) fn is_property<A: Allocator>(tree: &Tree<A>, number: usize) -> bool
    ensures { result ≡ is_property_at tree.now.nodes number }
{
    if number >= tree.len() {
        return false;
    }
    match tree.kind(number) {
        Kind::Property(_) => true,
        _ => false,
    }
}

// The nearest property before a node, among its siblings.
fn property_before<A: Allocator>(tree: &Tree<A>, node: usize) -> Option<usize>
    requires { node < length tree.now.nodes }
    ensures { result ≡ find (is_property_at tree.now.nodes) (siblings_before tree.now.nodes node) }
{
    previous_siblings(tree, node).find(|sibling| is_property(tree, *sibling))
}

// The nearest property after a node, among its siblings.
fn property_after<A: Allocator>(tree: &Tree<A>, node: usize) -> Option<usize>
    requires { node < length tree.now.nodes }
    ensures { result ≡ find (is_property_at tree.now.nodes) (siblings_after tree.now.nodes node) }
{
    next_siblings(tree, node).find(|sibling| is_property(tree, *sibling))
}

// The nodes of these numbers, in order.
pub(super) fn nodes_at<A: Allocator + Copy>(
    alloc: A,
    tree: &Tree<A>,
    numbers: &[usize],
) -> Result<Vec<CstNode, A>, AllocError>
    ensures { IfOk result (λ v. v.items ≡ typed_all tree.now.nodes numbers.now) }
{
    numbers
        .iter()
        .map(|number| node_under(tree, *number))
        .collect(alloc)
}

impl CstNode {
    /// Its place among the elements of its array, counted from 0.
    ///
    /// None for what is no element of an array.
    pub fn element_index<A: Allocator>(self, doc: &CstRootNode<A>) -> Option<usize>
        requires { HasNode doc.now self }
        ensures { result ≡ element_index_of doc.now self }
    {
        if !self.is_element() {
            return None;
        }
        match self.parent(doc) {
            Some(CstContainerNode::Array(_)) => {
                jsonc_layout::nodes::element_index(&doc.tree, self.number())
            }
            _ => None,
        }
    }
}

impl CstArray {
    /// Its elements, in order.
    pub fn elements<A: Allocator + Copy>(
        self,
        doc: &CstRootNode<A>,
    ) -> Result<Vec<CstNode, A>, EditError>
        requires { HasNode doc.now (array_node self) }
        ensures elements { IfOk result (λ v. v.items ≡ elements_of doc.now (array_node self)) }
        ensures in_document { IfOk result (λ v. All (HasNode doc.now) v.items) }
        ensures memory { IfErr result (λ e. e ≡ EditError.OutOfMemory) }
    {
        self.children_exclude_trivia_and_tokens(doc)
    }
}

impl CstObject {
    /// Its properties, in order.
    pub fn properties<A: Allocator + Copy>(
        self,
        doc: &CstRootNode<A>,
    ) -> Result<Vec<CstObjectProp, A>, EditError>
        requires { HasNode doc.now (object_node self) }
        ensures properties { IfOk result (λ v. v.items ≡ properties_of doc.now self) }
        ensures in_document { IfOk result (λ v. All (λ p. HasNode doc.now (object_prop_node p)) v.items) }
        ensures memory { IfErr result (λ e. e ≡ EditError.OutOfMemory) }
    {
        let Ok(properties) = children_from(&doc.tree, self.number, 0)
            .filter(|child| is_property(&doc.tree, *child))
            .map(|number| CstObjectProp { number })
            .collect(doc.alloc)
        else {
            return Err(EditError::OutOfMemory);
        };
        Ok(properties)
    }
}

impl CstObjectProp {
    /// Its place among the properties of its object, counted from 0.
    ///
    /// It is 0 where the property is in no object.
    pub fn property_index<A: Allocator>(self, doc: &CstRootNode<A>) -> usize
        requires { HasNode doc.now (object_prop_node self) }
        ensures { result ≡ property_index_of doc.now self }
    {
        match self.parent(doc) {
            Some(CstContainerNode::Object(_)) => previous_siblings(&doc.tree, self.number)
                .filter(|sibling| is_property(&doc.tree, *sibling))
                .count(),
            _ => 0,
        }
    }

    /// The nearest property before it among its siblings.
    pub fn previous_property<A: Allocator>(self, doc: &CstRootNode<A>) -> Option<CstObjectProp>
        requires { HasNode doc.now (object_prop_node self) }
        ensures property { result ≡ previous_property_of doc.now self }
        ensures in_document { IfSome result (λ p. HasNode doc.now (object_prop_node p)) }
    {
        let Some(number) = property_before(&doc.tree, self.number) else {
            return None;
        };
        Some(CstObjectProp { number })
    }

    /// The nearest property after it among its siblings.
    pub fn next_property<A: Allocator>(self, doc: &CstRootNode<A>) -> Option<CstObjectProp>
        requires { HasNode doc.now (object_prop_node self) }
        ensures property { result ≡ next_property_of doc.now self }
        ensures in_document { IfSome result (λ p. HasNode doc.now (object_prop_node p)) }
    {
        let Some(number) = property_after(&doc.tree, self.number) else {
            return None;
        };
        Some(CstObjectProp { number })
    }
}
