//! The names and values of properties, as they are written.

ghost use Rattle.std.specs.Prelude.{◌≡◌, chars, IfErr, IfOk, IfSome, OnErr};
ghost use Rattle.jsonc_layout.specs.nodes.Names.{HoldsEscapedName};
ghost use Rattle.jsonc_cst.specs.Document.{HasNode, nodes_of};
ghost use Rattle.jsonc_cst.specs.Nodes.{array_node, name_node, object_node, object_prop_node};
ghost use Rattle.jsonc_cst.specs.Readings.{name_of, value_under, array_if, object_if};
ghost use Rattle.jsonc_cst.specs.Values.{IsValueNamed};

use super::access::node_at;
use super::node::{
    CstArray, CstContainerNode, CstLeafNode, CstNode, CstObject, CstObjectProp, ObjectPropName,
};
use super::{CstRootNode, EditError};
use std::alloc::Allocator;

impl CstObjectProp {
    /// Its name as it is written, if it has one.
    ///
    /// That is the first string or word among its children.
    pub fn name<A: Allocator>(self, doc: &CstRootNode<A>) -> Option<ObjectPropName>
        requires { HasNode doc.now (object_prop_node self) }
        ensures name { result ≡ name_of doc.now self }
        ensures in_document { IfSome result (λ n. HasNode doc.now (name_node n)) }
    {
        let Some(number) = jsonc_layout::nodes::name_of(&doc.tree, self.number) else {
            return None;
        };
        match node_at(&doc.tree, number) {
            CstNode::Leaf(CstLeafNode::StringLit(string)) => Some(ObjectPropName::String(string)),
            CstNode::Leaf(CstLeafNode::WordLit(word)) => Some(ObjectPropName::Word(word)),
            _ => None,
        }
    }

    /// Its value, if it has one.
    ///
    /// That is the first element after a colon after its name.
    pub fn value<A: Allocator>(self, doc: &CstRootNode<A>) -> Option<CstNode>
        requires { HasNode doc.now (object_prop_node self) }
        ensures value { result ≡ value_under doc.now self.number }
        ensures in_document { IfSome result (HasNode doc.now) }
    {
        let Some(number) = jsonc_layout::nodes::value_of(&doc.tree, self.number) else {
            return None;
        };
        Some(node_at(&doc.tree, number))
    }

    /// Its value, if it is an object.
    pub fn object_value<A: Allocator>(self, doc: &CstRootNode<A>) -> Option<CstObject>
        requires { HasNode doc.now (object_prop_node self) }
        ensures value { result ≡ object_if (value_under doc.now self.number) }
        ensures in_document { IfSome result (λ o. HasNode doc.now (object_node o)) }
    {
        match self.value(doc) {
            Some(CstNode::Container(CstContainerNode::Object(object))) => Some(object),
            _ => None,
        }
    }

    /// Its value, if it is an array.
    pub fn array_value<A: Allocator>(self, doc: &CstRootNode<A>) -> Option<CstArray>
        requires { HasNode doc.now (object_prop_node self) }
        ensures value { result ≡ array_if (value_under doc.now self.number) }
        ensures in_document { IfSome result (λ a. HasNode doc.now (array_node a)) }
    {
        match self.value(doc) {
            Some(CstNode::Container(CstContainerNode::Array(array))) => Some(array),
            _ => None,
        }
    }
}

impl CstObject {
    /// The value of its first property of a name, if it is an object. Only a name with a backslash needs memory.
    pub fn object_value<A: Allocator + Copy>(
        self,
        doc: &CstRootNode<A>,
        name: &str,
    ) -> Result<Option<CstObject>, EditError>
        requires { HasNode doc.now (object_node self) }
        ensures value { IfOk result (IsValueNamed object_if doc.now self (chars name.now)) }
        ensures in_document { IfOk result (λ o. IfSome o (λ x. HasNode doc.now (object_node x))) }
        ensures memory { IfErr result (λ e. e ≡ EditError.OutOfMemory) }
        ensures escaped { OnErr result (HoldsEscapedName (nodes_of doc.now) self.number) }
    {
        match self.get(doc, name) {
            Ok(Some(property)) => Ok(property.object_value(doc)),
            Ok(None) => Ok(None),
            Err(error) => Err(error),
        }
    }

    /// The value of its first property of a name, if it is an array. Only a name with a backslash needs memory.
    pub fn array_value<A: Allocator + Copy>(
        self,
        doc: &CstRootNode<A>,
        name: &str,
    ) -> Result<Option<CstArray>, EditError>
        requires { HasNode doc.now (object_node self) }
        ensures value { IfOk result (IsValueNamed array_if doc.now self (chars name.now)) }
        ensures in_document { IfOk result (λ o. IfSome o (λ x. HasNode doc.now (array_node x))) }
        ensures memory { IfErr result (λ e. e ≡ EditError.OutOfMemory) }
        ensures escaped { OnErr result (HoldsEscapedName (nodes_of doc.now) self.number) }
    {
        match self.get(doc, name) {
            Ok(Some(property)) => Ok(property.array_value(doc)),
            Ok(None) => Ok(None),
            Err(error) => Err(error),
        }
    }
}
