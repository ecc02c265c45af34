//! A value is replaced by another.

ghost use Rattle.std.specs.Prelude.{◌≡◌, ◌<◌, length};
ghost use Rattle.jsonc_layout.specs.input.Views.{plain};
ghost use Rattle.jsonc_layout.specs.nodes.Properties.{name_at};
ghost use Rattle.jsonc_cst.specs.Document.{HasNode};
ghost use Rattle.jsonc_cst.specs.typed.Calls.{IsReplacement, IsValueReplacement};
ghost use Rattle.jsonc_cst.specs.typed.Edits.{is_found, is_name_in};
ghost use Rattle.jsonc_cst.specs.typed.Steps.{is_value};
ghost use Rattle.jsonc_cst.specs.Nodes.{array_node, boolean_lit_node, name_node, null_keyword_node, number_lit_node};
ghost use Rattle.jsonc_cst.specs.Nodes.{object_node, string_lit_node, word_lit_node};
ghost use Rattle.jsonc_cst.specs.Tree.{NodesAreTree};

use crate::cst::{
    CstArray, CstBooleanLit, CstContainerNode, CstLeafNode, CstNode, CstNullKeyword, CstNumberLit,
    CstObject, CstRootNode, CstStringLit, CstWordLit, EditError, ObjectPropName, TypedNode,
    node_at,
};
use jsonc_layout::input::CstInputValue;
use jsonc_tree::{Kind, Tree};
use std::alloc::Allocator;

// Whether the node of this number is the name of the property that it is in.
fn is_name_in<A: Allocator>(tree: &Tree<A>, number: usize) -> bool
    requires { number < length tree.now.nodes }
    ensures { result ≡ is_name_in tree.now.nodes number }
{
    let Some(parent) = tree.parent(number) else {
        return false;
    };
    match tree.kind(parent) {
        Kind::Property(_) => is_name_of(tree, parent, number),
        _ => false,
    }
}

fn is_name_of<A: Allocator>(tree: &Tree<A>, property: usize, number: usize) -> bool
    requires { property < length tree.now.nodes }
    ensures { result ≡ is_found (name_at tree.now.nodes property) number }
{
    match jsonc_layout::nodes::name_of(tree, property) {
        Some(name) => name == number,
        None => false,
    }
}

// Replaces a node by a value, and answers the node that the value is now.
fn replace_with<A: Allocator + Copy, N: TypedNode>(
    doc: &mut CstRootNode<A>,
    node: N,
    value: CstInputValue<A>,
) -> Result<Option<CstNode>, EditError>
    requires { HasNode doc.old (N.node_of node) }
    ensures { IsReplacement doc.old doc.new (N.node_of node) (plain value) result }
{
    let Some(_) = node.parent(doc) else {
        return Ok(None);
    };
    let number = node.node().number();
    if is_name_in(&doc.tree, number) {
        let Some(raw) = jsonc_edit::replace_name(doc.alloc, &mut doc.tree, number, &value)? else {
            return Ok(None);
        };
        return Ok(Some(node_at(&doc.tree, raw)));
    }
    let Some(new) = jsonc_edit::replace(doc.alloc, &mut doc.tree, number, &value)? else {
        return Ok(None);
    };
    Ok(Some(node_at(&doc.tree, new)))
}

// Whether a node is an array, an object or a literal.
fn is_value(node: CstNode) -> bool
    ensures { result ≡ is_value node }
{
    match node {
        CstNode::Container(CstContainerNode::Array(_) | CstContainerNode::Object(_)) => true,
        CstNode::Leaf(
            CstLeafNode::BooleanLit(_)
            | CstLeafNode::NullKeyword(_)
            | CstLeafNode::NumberLit(_)
            | CstLeafNode::StringLit(_)
            | CstLeafNode::WordLit(_),
        ) => true,
        _ => false,
    }
}

impl CstNode {
    /// Replaces an array, an object or a literal by a value, and answers the value's node.
    ///
    /// [`CstArray::replace_with`] says how. A string or word that is the name of a property is replaced as
    /// [`ObjectPropName::replace_with`] replaces it. The root, a property, a token, whitespace, a newline or a comment
    /// is no value: of these the error is `NoSuchPlace`, before anything changes.
    pub fn replace_with<A: Allocator + Copy>(
        self,
        doc: &mut CstRootNode<A>,
        value: CstInputValue<A>,
    ) -> Result<Option<CstNode>, EditError>
        requires { HasNode doc.old self }
        ensures { IsValueReplacement doc.old doc.new self (plain value) result }
    {
        if !is_value(self) {
            return Err(EditError::NoSuchPlace);
        }
        replace_with(doc, self, value)
    }
}

impl CstArray {
    /// Replaces it by a value, and answers the value's node.
    ///
    /// The document determines how the value is laid out: the indents are those at the container that
    /// the node is in, lines end as the document's do, and the last of several lines has a
    /// comma where that is so in the container, or, for the value of a property, in the old value.
    /// Where two literals without quotes would then be directly beside each other, a space is
    /// inserted between them, but none beside the name of a property. `{a:[1]b:2}` with 7 for its
    /// array is `{a:7 b:2}`; `{a:1"b":2}` with 7 for its second name is `{a:17:2}`.
    ///
    /// If the document is sound, and the node a value in it, the document is sound again, and its
    /// value is the old one with the new value at the node's path. The call is one step then, the
    /// edit that replaces the value at that path: it leads from the document before to the document
    /// after it.
    ///
    /// The node is detached then. Where it had no parent before, the answer is None, and the
    /// document stays as it was, as it does on an error.
    pub fn replace_with<A: Allocator + Copy>(
        self,
        doc: &mut CstRootNode<A>,
        value: CstInputValue<A>,
    ) -> Result<Option<CstNode>, EditError>
        requires { HasNode doc.old (array_node self) }
        ensures { IsReplacement doc.old doc.new (array_node self) (plain value) result }
    {
        replace_with(doc, self, value)
    }
}

impl CstObject {
    /// Replaces it by a value, and answers the value's node. [`CstArray::replace_with`] says how.
    pub fn replace_with<A: Allocator + Copy>(
        self,
        doc: &mut CstRootNode<A>,
        value: CstInputValue<A>,
    ) -> Result<Option<CstNode>, EditError>
        requires { HasNode doc.old (object_node self) }
        ensures { IsReplacement doc.old doc.new (object_node self) (plain value) result }
    {
        replace_with(doc, self, value)
    }
}

impl CstBooleanLit {
    /// Replaces it by a value, and answers the value's node. [`CstArray::replace_with`] says how.
    pub fn replace_with<A: Allocator + Copy>(
        self,
        doc: &mut CstRootNode<A>,
        value: CstInputValue<A>,
    ) -> Result<Option<CstNode>, EditError>
        requires { HasNode doc.old (boolean_lit_node self) }
        ensures { IsReplacement doc.old doc.new (boolean_lit_node self) (plain value) result }
    {
        replace_with(doc, self, value)
    }
}

impl CstNullKeyword {
    /// Replaces it by a value, and answers the value's node. [`CstArray::replace_with`] says how.
    pub fn replace_with<A: Allocator + Copy>(
        self,
        doc: &mut CstRootNode<A>,
        value: CstInputValue<A>,
    ) -> Result<Option<CstNode>, EditError>
        requires { HasNode doc.old (null_keyword_node self) }
        ensures { IsReplacement doc.old doc.new (null_keyword_node self) (plain value) result }
    {
        replace_with(doc, self, value)
    }
}

impl CstNumberLit {
    /// Replaces it by a value, and answers the value's node. [`CstArray::replace_with`] says how.
    pub fn replace_with<A: Allocator + Copy>(
        self,
        doc: &mut CstRootNode<A>,
        value: CstInputValue<A>,
    ) -> Result<Option<CstNode>, EditError>
        requires { HasNode doc.old (number_lit_node self) }
        ensures { IsReplacement doc.old doc.new (number_lit_node self) (plain value) result }
    {
        replace_with(doc, self, value)
    }
}

impl CstStringLit {
    /// Replaces it by a value, and answers the value's node. [`CstArray::replace_with`] says how.
    pub fn replace_with<A: Allocator + Copy>(
        self,
        doc: &mut CstRootNode<A>,
        value: CstInputValue<A>,
    ) -> Result<Option<CstNode>, EditError>
        requires { HasNode doc.old (string_lit_node self) }
        ensures { IsReplacement doc.old doc.new (string_lit_node self) (plain value) result }
    {
        replace_with(doc, self, value)
    }
}

impl CstWordLit {
    /// Replaces it by a value, and answers the value's node. [`CstArray::replace_with`] says how.
    pub fn replace_with<A: Allocator + Copy>(
        self,
        doc: &mut CstRootNode<A>,
        value: CstInputValue<A>,
    ) -> Result<Option<CstNode>, EditError>
        requires { HasNode doc.old (word_lit_node self) }
        ensures { IsReplacement doc.old doc.new (word_lit_node self) (plain value) result }
    {
        replace_with(doc, self, value)
    }
}

impl ObjectPropName {
    /// Replaces it by a value, and answers the value's node. [`CstArray::replace_with`] says how.
    pub fn replace_with<A: Allocator + Copy>(
        self,
        doc: &mut CstRootNode<A>,
        value: CstInputValue<A>,
    ) -> Result<Option<CstNode>, EditError>
        requires { HasNode doc.old (name_node self) }
        ensures { IsReplacement doc.old doc.new (name_node self) (plain value) result }
    {
        replace_with(doc, self, value)
    }
}
