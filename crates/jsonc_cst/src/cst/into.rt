//! Every node is a node of the kinds above it, and has the calls of every node.

ghost use Rattle.std.specs.Prelude.{◌≡◌};
ghost use Rattle.jsonc_cst.specs.declared.cst.node.CstContainerNode.{CstContainerNode};
ghost use Rattle.jsonc_cst.specs.declared.cst.node.CstLeafNode.{CstLeafNode};
ghost use Rattle.jsonc_cst.specs.declared.cst.node.CstNode.{CstNode};
ghost use Rattle.jsonc_cst.specs.declared.cst.node.ObjectPropName.{ObjectPropName};
ghost use Rattle.jsonc_cst.specs.Nodes.{root_node, array_node, object_node, object_prop_node};
ghost use Rattle.jsonc_cst.specs.Nodes.{string_lit_node, number_lit_node, boolean_lit_node};
ghost use Rattle.jsonc_cst.specs.Nodes.{null_keyword_node, word_lit_node, name_node};
ghost use Rattle.jsonc_cst.specs.Nodes.{token_node, whitespace_node, newline_node, comment_node};

use super::navigation::{ParentNode, TypedNode};
use super::node::{
    CstArray, CstBooleanLit, CstComment, CstContainerNode, CstLeafNode, CstNewline, CstNode,
    CstNullKeyword, CstNumberLit, CstObject, CstObjectProp, CstRoot, CstStringLit, CstToken,
    CstWhitespace, CstWordLit, ObjectPropName,
};

impl From<CstRoot> for CstContainerNode {
    ghost from_gives = { λ x n. n ≡ CstContainerNode.Root x };

    fn from(root: CstRoot) -> Self {
        CstContainerNode::Root(root)
    }
}

impl From<CstArray> for CstContainerNode {
    ghost from_gives = { λ x n. n ≡ CstContainerNode.Array x };

    fn from(array: CstArray) -> Self {
        CstContainerNode::Array(array)
    }
}

impl From<CstObject> for CstContainerNode {
    ghost from_gives = { λ x n. n ≡ CstContainerNode.Object x };

    fn from(object: CstObject) -> Self {
        CstContainerNode::Object(object)
    }
}

impl From<CstObjectProp> for CstContainerNode {
    ghost from_gives = { λ x n. n ≡ CstContainerNode.ObjectProp x };

    fn from(property: CstObjectProp) -> Self {
        CstContainerNode::ObjectProp(property)
    }
}

impl From<CstBooleanLit> for CstLeafNode {
    ghost from_gives = { λ x n. n ≡ CstLeafNode.BooleanLit x };

    fn from(boolean: CstBooleanLit) -> Self {
        CstLeafNode::BooleanLit(boolean)
    }
}

impl From<CstNullKeyword> for CstLeafNode {
    ghost from_gives = { λ x n. n ≡ CstLeafNode.NullKeyword x };

    fn from(null: CstNullKeyword) -> Self {
        CstLeafNode::NullKeyword(null)
    }
}

impl From<CstNumberLit> for CstLeafNode {
    ghost from_gives = { λ x n. n ≡ CstLeafNode.NumberLit x };

    fn from(number: CstNumberLit) -> Self {
        CstLeafNode::NumberLit(number)
    }
}

impl From<CstStringLit> for CstLeafNode {
    ghost from_gives = { λ x n. n ≡ CstLeafNode.StringLit x };

    fn from(string: CstStringLit) -> Self {
        CstLeafNode::StringLit(string)
    }
}

impl From<CstWordLit> for CstLeafNode {
    ghost from_gives = { λ x n. n ≡ CstLeafNode.WordLit x };

    fn from(word: CstWordLit) -> Self {
        CstLeafNode::WordLit(word)
    }
}

impl From<CstToken> for CstLeafNode {
    ghost from_gives = { λ x n. n ≡ CstLeafNode.Token x };

    fn from(token: CstToken) -> Self {
        CstLeafNode::Token(token)
    }
}

impl From<CstWhitespace> for CstLeafNode {
    ghost from_gives = { λ x n. n ≡ CstLeafNode.Whitespace x };

    fn from(whitespace: CstWhitespace) -> Self {
        CstLeafNode::Whitespace(whitespace)
    }
}

impl From<CstNewline> for CstLeafNode {
    ghost from_gives = { λ x n. n ≡ CstLeafNode.Newline x };

    fn from(newline: CstNewline) -> Self {
        CstLeafNode::Newline(newline)
    }
}

impl From<CstComment> for CstLeafNode {
    ghost from_gives = { λ x n. n ≡ CstLeafNode.Comment x };

    fn from(comment: CstComment) -> Self {
        CstLeafNode::Comment(comment)
    }
}

impl From<CstStringLit> for ObjectPropName {
    ghost from_gives = { λ x n. n ≡ ObjectPropName.String x };

    fn from(string: CstStringLit) -> Self {
        ObjectPropName::String(string)
    }
}

impl From<CstWordLit> for ObjectPropName {
    ghost from_gives = { λ x n. n ≡ ObjectPropName.Word x };

    fn from(word: CstWordLit) -> Self {
        ObjectPropName::Word(word)
    }
}

impl From<CstRoot> for CstNode {
    ghost from_gives = { λ x n. n ≡ root_node x };

    fn from(root: CstRoot) -> Self {
        CstNode::Container(CstContainerNode::Root(root))
    }
}

impl From<CstArray> for CstNode {
    ghost from_gives = { λ x n. n ≡ array_node x };

    fn from(array: CstArray) -> Self {
        CstNode::Container(CstContainerNode::Array(array))
    }
}

impl From<CstObject> for CstNode {
    ghost from_gives = { λ x n. n ≡ object_node x };

    fn from(object: CstObject) -> Self {
        CstNode::Container(CstContainerNode::Object(object))
    }
}

impl From<CstObjectProp> for CstNode {
    ghost from_gives = { λ x n. n ≡ object_prop_node x };

    fn from(property: CstObjectProp) -> Self {
        CstNode::Container(CstContainerNode::ObjectProp(property))
    }
}

impl From<CstBooleanLit> for CstNode {
    ghost from_gives = { λ x n. n ≡ boolean_lit_node x };

    fn from(boolean: CstBooleanLit) -> Self {
        CstNode::Leaf(CstLeafNode::BooleanLit(boolean))
    }
}

impl From<CstNullKeyword> for CstNode {
    ghost from_gives = { λ x n. n ≡ null_keyword_node x };

    fn from(null: CstNullKeyword) -> Self {
        CstNode::Leaf(CstLeafNode::NullKeyword(null))
    }
}

impl From<CstNumberLit> for CstNode {
    ghost from_gives = { λ x n. n ≡ number_lit_node x };

    fn from(number: CstNumberLit) -> Self {
        CstNode::Leaf(CstLeafNode::NumberLit(number))
    }
}

impl From<CstStringLit> for CstNode {
    ghost from_gives = { λ x n. n ≡ string_lit_node x };

    fn from(string: CstStringLit) -> Self {
        CstNode::Leaf(CstLeafNode::StringLit(string))
    }
}

impl From<CstWordLit> for CstNode {
    ghost from_gives = { λ x n. n ≡ word_lit_node x };

    fn from(word: CstWordLit) -> Self {
        CstNode::Leaf(CstLeafNode::WordLit(word))
    }
}

impl From<CstToken> for CstNode {
    ghost from_gives = { λ x n. n ≡ token_node x };

    fn from(token: CstToken) -> Self {
        CstNode::Leaf(CstLeafNode::Token(token))
    }
}

impl From<CstWhitespace> for CstNode {
    ghost from_gives = { λ x n. n ≡ whitespace_node x };

    fn from(whitespace: CstWhitespace) -> Self {
        CstNode::Leaf(CstLeafNode::Whitespace(whitespace))
    }
}

impl From<CstNewline> for CstNode {
    ghost from_gives = { λ x n. n ≡ newline_node x };

    fn from(newline: CstNewline) -> Self {
        CstNode::Leaf(CstLeafNode::Newline(newline))
    }
}

impl From<CstComment> for CstNode {
    ghost from_gives = { λ x n. n ≡ comment_node x };

    fn from(comment: CstComment) -> Self {
        CstNode::Leaf(CstLeafNode::Comment(comment))
    }
}

impl From<CstContainerNode> for CstNode {
    ghost from_gives = { λ x n. n ≡ CstNode.Container x };

    fn from(container: CstContainerNode) -> Self {
        CstNode::Container(container)
    }
}

impl From<CstLeafNode> for CstNode {
    ghost from_gives = { λ x n. n ≡ CstNode.Leaf x };

    fn from(leaf: CstLeafNode) -> Self {
        CstNode::Leaf(leaf)
    }
}

impl From<ObjectPropName> for CstNode {
    ghost from_gives = { λ x n. n ≡ name_node x };

    fn from(name: ObjectPropName) -> Self {
        match name {
            ObjectPropName::String(string) => string.into(),
            ObjectPropName::Word(word) => word.into(),
        }
    }
}

impl TypedNode for CstNode {
    ghost node_of = { λ x. x };

    fn node(self) -> CstNode {
        self
    }
}

impl TypedNode for CstRoot {
    ghost node_of = { root_node };

    fn node(self) -> CstNode {
        self.into()
    }
}

impl TypedNode for CstArray {
    ghost node_of = { array_node };

    fn node(self) -> CstNode {
        self.into()
    }
}

impl TypedNode for CstObject {
    ghost node_of = { object_node };

    fn node(self) -> CstNode {
        self.into()
    }
}

impl TypedNode for CstObjectProp {
    ghost node_of = { object_prop_node };

    fn node(self) -> CstNode {
        self.into()
    }
}

impl TypedNode for CstBooleanLit {
    ghost node_of = { boolean_lit_node };

    fn node(self) -> CstNode {
        self.into()
    }
}

impl TypedNode for CstNullKeyword {
    ghost node_of = { null_keyword_node };

    fn node(self) -> CstNode {
        self.into()
    }
}

impl TypedNode for CstNumberLit {
    ghost node_of = { number_lit_node };

    fn node(self) -> CstNode {
        self.into()
    }
}

impl TypedNode for CstStringLit {
    ghost node_of = { string_lit_node };

    fn node(self) -> CstNode {
        self.into()
    }
}

impl TypedNode for CstWordLit {
    ghost node_of = { word_lit_node };

    fn node(self) -> CstNode {
        self.into()
    }
}

impl TypedNode for CstToken {
    ghost node_of = { token_node };

    fn node(self) -> CstNode {
        self.into()
    }
}

impl TypedNode for CstWhitespace {
    ghost node_of = { whitespace_node };

    fn node(self) -> CstNode {
        self.into()
    }
}

impl TypedNode for CstNewline {
    ghost node_of = { newline_node };

    fn node(self) -> CstNode {
        self.into()
    }
}

impl TypedNode for CstComment {
    ghost node_of = { comment_node };

    fn node(self) -> CstNode {
        self.into()
    }
}

impl TypedNode for CstContainerNode {
    ghost node_of = { CstNode.Container };

    fn node(self) -> CstNode {
        CstNode::Container(self)
    }
}

impl TypedNode for CstLeafNode {
    ghost node_of = { CstNode.Leaf };

    fn node(self) -> CstNode {
        CstNode::Leaf(self)
    }
}

impl TypedNode for ObjectPropName {
    ghost node_of = { name_node };

    fn node(self) -> CstNode {
        self.into()
    }
}

impl ParentNode for CstNode {}

impl ParentNode for CstContainerNode {}

impl ParentNode for CstRoot {}

impl ParentNode for CstArray {}

impl ParentNode for CstObject {}

impl ParentNode for CstObjectProp {}
