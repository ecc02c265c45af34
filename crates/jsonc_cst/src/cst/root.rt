//! What a document reports of itself: its value.

ghost use Rattle.std.specs.Prelude.{◌≡◌, IfSome};
ghost use Rattle.jsonc_cst.specs.Document.{HasNode};
ghost use Rattle.jsonc_cst.specs.Nodes.{array_node, object_node};
ghost use Rattle.jsonc_cst.specs.Readings.{array_if, object_if, value_under};

use super::CstRootNode;
use super::access::node_at;
use super::node::{CstArray, CstContainerNode, CstNode, CstObject};
use std::alloc::Allocator;

impl<A: Allocator> CstRootNode<A> {
    /// The document's value, if it has one.
    pub fn value(&self) -> Option<CstNode>
        ensures value { result ≡ value_under self.now 0 }
        ensures in_document { IfSome result (HasNode self.now) }
    {
        let Some(number) = jsonc_layout::nodes::value_of(&self.tree, 0) else {
            return None;
        };
        Some(node_at(&self.tree, number))
    }

    /// The document's value, if it is an object.
    pub fn object_value(&self) -> Option<CstObject>
        ensures value { result ≡ object_if (value_under self.now 0) }
        ensures in_document { IfSome result (λ o. HasNode self.now (object_node o)) }
    {
        match self.value() {
            Some(CstNode::Container(CstContainerNode::Object(object))) => Some(object),
            _ => None,
        }
    }

    /// The document's value, if it is an array.
    pub fn array_value(&self) -> Option<CstArray>
        ensures value { result ≡ array_if (value_under self.now 0) }
        ensures in_document { IfSome result (λ a. HasNode self.now (array_node a)) }
    {
        match self.value() {
            Some(CstNode::Container(CstContainerNode::Array(array))) => Some(array),
            _ => None,
        }
    }
}
