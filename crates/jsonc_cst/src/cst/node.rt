//! Nodes as a caller holds them: numbers, each with what it is the number of.

ghost use Rattle.std.specs.Prelude.{◌≡◌, ◌↔◌, IsTrue};
ghost use Rattle.jsonc_cst.specs.Nodes.{number_of, container_number, leaf_number};
ghost use Rattle.jsonc_cst.specs.Nodes.{is_element_node, is_trivia_node, IsAs, IsOf};
ghost use Rattle.jsonc_cst.specs.Nodes.{root_node, array_node, object_node, object_prop_node};
ghost use Rattle.jsonc_cst.specs.Nodes.{string_lit_node, number_lit_node, boolean_lit_node};
ghost use Rattle.jsonc_cst.specs.Nodes.{null_keyword_node, word_lit_node};
ghost use Rattle.jsonc_cst.specs.Nodes.{token_node, whitespace_node, newline_node, comment_node};

/// The root of a document.
#[derive(Clone, Copy, Debug, PartialEq, Eq)]
pub struct CstRoot {
    pub(super) number: usize,
}

/// An array.
#[derive(Clone, Copy, Debug, PartialEq, Eq)]
pub struct CstArray {
    pub(super) number: usize,
}

/// An object.
#[derive(Clone, Copy, Debug, PartialEq, Eq)]
pub struct CstObject {
    pub(super) number: usize,
}

/// A property of an object: a name, a colon and a value.
#[derive(Clone, Copy, Debug, PartialEq, Eq)]
pub struct CstObjectProp {
    pub(super) number: usize,
}

/// `true` or `false`.
#[derive(Clone, Copy, Debug, PartialEq, Eq)]
pub struct CstBooleanLit {
    pub(super) number: usize,
}

/// `null`.
#[derive(Clone, Copy, Debug, PartialEq, Eq)]
pub struct CstNullKeyword {
    pub(super) number: usize,
}

/// A number.
#[derive(Clone, Copy, Debug, PartialEq, Eq)]
pub struct CstNumberLit {
    pub(super) number: usize,
}

/// A string between quotes.
#[derive(Clone, Copy, Debug, PartialEq, Eq)]
pub struct CstStringLit {
    pub(super) number: usize,
}

/// A word that is no keyword.
#[derive(Clone, Copy, Debug, PartialEq, Eq)]
pub struct CstWordLit {
    pub(super) number: usize,
}

/// A bracket, comma or colon.
#[derive(Clone, Copy, Debug, PartialEq, Eq)]
pub struct CstToken {
    pub(super) number: usize,
}

/// Blanks within a line.
#[derive(Clone, Copy, Debug, PartialEq, Eq)]
pub struct CstWhitespace {
    pub(super) number: usize,
}

/// The end of a line.
#[derive(Clone, Copy, Debug, PartialEq, Eq)]
pub struct CstNewline {
    pub(super) number: usize,
}

/// A comment with its marks.
#[derive(Clone, Copy, Debug, PartialEq, Eq)]
pub struct CstComment {
    pub(super) number: usize,
}

/// A node that may have children.
#[derive(Clone, Copy, Debug, PartialEq, Eq)]
pub enum CstContainerNode {
    Root(CstRoot),
    Array(CstArray),
    Object(CstObject),
    ObjectProp(CstObjectProp),
}

/// A node that has no children.
#[derive(Clone, Copy, Debug, PartialEq, Eq)]
pub enum CstLeafNode {
    BooleanLit(CstBooleanLit),
    NullKeyword(CstNullKeyword),
    NumberLit(CstNumberLit),
    StringLit(CstStringLit),
    WordLit(CstWordLit),
    Token(CstToken),
    Whitespace(CstWhitespace),
    Newline(CstNewline),
    Comment(CstComment),
}

/// A node of any kind.
#[derive(Clone, Copy, Debug, PartialEq, Eq)]
pub enum CstNode {
    Container(CstContainerNode),
    Leaf(CstLeafNode),
}

/// The name of a property: a string, or a word without quotes.
#[derive(Clone, Copy, Debug, PartialEq, Eq)]
pub enum ObjectPropName {
    String(CstStringLit),
    Word(CstWordLit),
}

impl CstContainerNode {
    // Its number in the document.
    pub(super) fn number(self) -> usize
        ensures { result ≡ container_number self }
    {
        match self {
            CstContainerNode::Root(root) => root.number,
            CstContainerNode::Array(array) => array.number,
            CstContainerNode::Object(object) => object.number,
            CstContainerNode::ObjectProp(property) => property.number,
        }
    }

    /// Whether it is the root.
    pub fn is_root(self) -> bool
        ensures { IsTrue result ↔ IsOf CstContainerNode.Root self }
    {
        matches!(self, CstContainerNode::Root(_))
    }

    /// Whether it is an array.
    pub fn is_array(self) -> bool
        ensures { IsTrue result ↔ IsOf CstContainerNode.Array self }
    {
        matches!(self, CstContainerNode::Array(_))
    }

    /// Whether it is an object.
    pub fn is_object(self) -> bool
        ensures { IsTrue result ↔ IsOf CstContainerNode.Object self }
    {
        matches!(self, CstContainerNode::Object(_))
    }

    /// Whether it is a property.
    pub fn is_object_prop(self) -> bool
        ensures { IsTrue result ↔ IsOf CstContainerNode.ObjectProp self }
    {
        matches!(self, CstContainerNode::ObjectProp(_))
    }

    /// The root, if it is the root.
    pub fn as_root(self) -> Option<CstRoot>
        ensures { IsAs CstContainerNode.Root self result }
    {
        match self {
            CstContainerNode::Root(root) => Some(root),
            _ => None,
        }
    }

    /// The array, if it is one.
    pub fn as_array(self) -> Option<CstArray>
        ensures { IsAs CstContainerNode.Array self result }
    {
        match self {
            CstContainerNode::Array(array) => Some(array),
            _ => None,
        }
    }

    /// The object, if it is one.
    pub fn as_object(self) -> Option<CstObject>
        ensures { IsAs CstContainerNode.Object self result }
    {
        match self {
            CstContainerNode::Object(object) => Some(object),
            _ => None,
        }
    }

    /// The property, if it is one.
    pub fn as_object_prop(self) -> Option<CstObjectProp>
        ensures { IsAs CstContainerNode.ObjectProp self result }
    {
        match self {
            CstContainerNode::ObjectProp(property) => Some(property),
            _ => None,
        }
    }
}

impl CstLeafNode {
    // Its number in the document.
    pub(super) fn number(self) -> usize
        ensures { result ≡ leaf_number self }
    {
        match self {
            CstLeafNode::BooleanLit(boolean) => boolean.number,
            CstLeafNode::NullKeyword(null) => null.number,
            CstLeafNode::NumberLit(number) => number.number,
            CstLeafNode::StringLit(string) => string.number,
            CstLeafNode::WordLit(word) => word.number,
            CstLeafNode::Token(token) => token.number,
            CstLeafNode::Whitespace(whitespace) => whitespace.number,
            CstLeafNode::Newline(newline) => newline.number,
            CstLeafNode::Comment(comment) => comment.number,
        }
    }
}

impl CstNode {
    /// Its number in the document.
    pub fn number(self) -> usize
        ensures { result ≡ number_of self }
    {
        match self {
            CstNode::Container(container) => container.number(),
            CstNode::Leaf(leaf) => leaf.number(),
        }
    }

    /// The root, if it is the root.
    pub fn as_root_node(self) -> Option<CstRoot>
        ensures { IsAs root_node self result }
    {
        match self {
            CstNode::Container(CstContainerNode::Root(root)) => Some(root),
            _ => None,
        }
    }

    /// The array, if it is one.
    pub fn as_array(self) -> Option<CstArray>
        ensures { IsAs array_node self result }
    {
        match self {
            CstNode::Container(CstContainerNode::Array(array)) => Some(array),
            _ => None,
        }
    }

    /// The object, if it is one.
    pub fn as_object(self) -> Option<CstObject>
        ensures { IsAs object_node self result }
    {
        match self {
            CstNode::Container(CstContainerNode::Object(object)) => Some(object),
            _ => None,
        }
    }

    /// The property, if it is one.
    pub fn as_object_prop(self) -> Option<CstObjectProp>
        ensures { IsAs object_prop_node self result }
    {
        match self {
            CstNode::Container(CstContainerNode::ObjectProp(property)) => Some(property),
            _ => None,
        }
    }

    /// The boolean, if it is one.
    pub fn as_boolean_lit(self) -> Option<CstBooleanLit>
        ensures { IsAs boolean_lit_node self result }
    {
        match self {
            CstNode::Leaf(CstLeafNode::BooleanLit(boolean)) => Some(boolean),
            _ => None,
        }
    }

    /// The `null`, if it is one.
    pub fn as_null_keyword(self) -> Option<CstNullKeyword>
        ensures { IsAs null_keyword_node self result }
    {
        match self {
            CstNode::Leaf(CstLeafNode::NullKeyword(null)) => Some(null),
            _ => None,
        }
    }

    /// The number, if it is one.
    pub fn as_number_lit(self) -> Option<CstNumberLit>
        ensures { IsAs number_lit_node self result }
    {
        match self {
            CstNode::Leaf(CstLeafNode::NumberLit(number)) => Some(number),
            _ => None,
        }
    }

    /// The string, if it is one.
    pub fn as_string_lit(self) -> Option<CstStringLit>
        ensures { IsAs string_lit_node self result }
    {
        match self {
            CstNode::Leaf(CstLeafNode::StringLit(string)) => Some(string),
            _ => None,
        }
    }

    /// The word, if it is one.
    pub fn as_word_lit(self) -> Option<CstWordLit>
        ensures { IsAs word_lit_node self result }
    {
        match self {
            CstNode::Leaf(CstLeafNode::WordLit(word)) => Some(word),
            _ => None,
        }
    }

    /// The token, if it is one.
    pub fn as_token(self) -> Option<CstToken>
        ensures { IsAs token_node self result }
    {
        match self {
            CstNode::Leaf(CstLeafNode::Token(token)) => Some(token),
            _ => None,
        }
    }

    /// The whitespace, if it is one.
    pub fn as_whitespace(self) -> Option<CstWhitespace>
        ensures { IsAs whitespace_node self result }
    {
        match self {
            CstNode::Leaf(CstLeafNode::Whitespace(whitespace)) => Some(whitespace),
            _ => None,
        }
    }

    /// The line end, if it is one.
    pub fn as_newline(self) -> Option<CstNewline>
        ensures { IsAs newline_node self result }
    {
        match self {
            CstNode::Leaf(CstLeafNode::Newline(newline)) => Some(newline),
            _ => None,
        }
    }

    /// The comment, if it is one.
    pub fn as_comment(self) -> Option<CstComment>
        ensures { IsAs comment_node self result }
    {
        match self {
            CstNode::Leaf(CstLeafNode::Comment(comment)) => Some(comment),
            _ => None,
        }
    }

    /// Whether it is a bracket, comma or colon.
    pub fn is_token(self) -> bool
        ensures { IsTrue result ↔ IsOf token_node self }
    {
        matches!(self, CstNode::Leaf(CstLeafNode::Token(_)))
    }

    /// Whether it is blanks within a line.
    pub fn is_whitespace(self) -> bool
        ensures { IsTrue result ↔ IsOf whitespace_node self }
    {
        matches!(self, CstNode::Leaf(CstLeafNode::Whitespace(_)))
    }

    /// Whether it is the end of a line.
    pub fn is_newline(self) -> bool
        ensures { IsTrue result ↔ IsOf newline_node self }
    {
        matches!(self, CstNode::Leaf(CstLeafNode::Newline(_)))
    }

    /// Whether it is a comment.
    pub fn is_comment(self) -> bool
        ensures { IsTrue result ↔ IsOf comment_node self }
    {
        matches!(self, CstNode::Leaf(CstLeafNode::Comment(_)))
    }

    /// Whether it is whitespace, a line end or a comment.
    pub fn is_trivia(self) -> bool
        ensures { result ≡ is_trivia_node self }
    {
        matches!(
            self,
            CstNode::Leaf(
                CstLeafNode::Whitespace(_) | CstLeafNode::Newline(_) | CstLeafNode::Comment(_)
            )
        )
    }

    // Whether it is neither trivia nor a token.
    pub(super) fn is_element(self) -> bool
        ensures { result ≡ is_element_node self }
    {
        match self {
            CstNode::Leaf(CstLeafNode::Token(_)) => false,
            _ => !self.is_trivia(),
        }
    }
}

impl ObjectPropName {
    /// The string, if the name is between quotes.
    pub fn as_string_lit(self) -> Option<CstStringLit>
        ensures { IsAs ObjectPropName.String self result }
    {
        match self {
            ObjectPropName::String(string) => Some(string),
            ObjectPropName::Word(_) => None,
        }
    }

    /// The word, if the name is without quotes.
    pub fn as_word_lit(self) -> Option<CstWordLit>
        ensures { IsAs ObjectPropName.Word self result }
    {
        match self {
            ObjectPropName::Word(word) => Some(word),
            ObjectPropName::String(_) => None,
        }
    }
}
