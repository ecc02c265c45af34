//! Leaves that are written anew, whatever the document makes of that.

ghost use Rattle.std.specs.Prelude.{◌≡◌, false, string_bytes};
ghost use Rattle.jsonc_tree.specs.Content.{Content, is_container};
ghost use Rattle.jsonc_tree.specs.Stored.{content_of};
ghost use Rattle.jsonc_cst.specs.Document.{HasNode};
ghost use Rattle.jsonc_cst.specs.Nodes.{number_of, typed};
ghost use Rattle.jsonc_cst.specs.Nodes.{comment_node, newline_node, number_lit_node, string_lit_node};
ghost use Rattle.jsonc_cst.specs.Nodes.{token_node, whitespace_node, word_lit_node};
ghost use Rattle.jsonc_cst.specs.Tree.{NodesAreTree};
ghost use Rattle.jsonc_cst.specs.typed.Edits.{KeepsDocument, HandlesStay};
ghost use Rattle.jsonc_cst.specs.typed.Raw.{HasBecome};

use crate::cst::{
    CstComment, CstNewline, CstNewlineKind, CstNode, CstNumberLit, CstRootNode, CstStringLit,
    CstToken, CstWhitespace, CstWordLit, TypedNode,
};
use jsonc_tree::Kind;
use std::alloc::Allocator;

// Replaces what a leaf holds by another text of its kind.
fn set_leaf<A: Allocator>(doc: &mut CstRootNode<A>, node: CstNode, kind: Kind<A>)
    requires in_document { HasNode doc.old node }
    requires leaf { is_container (content_of kind) ≡ false }
    requires same { typed (content_of kind) (number_of node) ≡ node }
    ensures set { HasBecome doc.old doc.new node (content_of kind) }
    ensures detached { KeepsDocument doc.old doc.new node }
    ensures handles { HandlesStay doc.old doc.new }
{
    doc.tree.set_leaf(node.number(), kind);
}

impl CstStringLit {
    /// Sets its text to this one, which is not checked.
    ///
    /// Nothing is allocated, and nothing else changes. The text may be none that the leaf's kind
    /// has in a document, and then the document may not be parsed again. `["a"]` with `'b` for its
    /// string is `['b]`.
    pub fn set_raw_value<A: Allocator>(self, doc: &mut CstRootNode<A>, value: String<A>)
        requires { HasNode doc.old (string_lit_node self) }
        ensures set { HasBecome doc.old doc.new (string_lit_node self) (Content.string (string_bytes value)) }
        ensures detached { KeepsDocument doc.old doc.new (string_lit_node self) }
        ensures handles { HandlesStay doc.old doc.new }
    {
        set_leaf(doc, self.node(), Kind::String(value));
    }
}

impl CstNumberLit {
    /// Sets its text to this one, which is not checked.
    ///
    /// Nothing is allocated, and nothing else changes. The text may be none that the leaf's kind
    /// has in a document, and then the document may not be parsed again.
    /// [`CstStringLit::set_raw_value`] has an example.
    pub fn set_raw_value<A: Allocator>(self, doc: &mut CstRootNode<A>, value: String<A>)
        requires { HasNode doc.old (number_lit_node self) }
        ensures set { HasBecome doc.old doc.new (number_lit_node self) (Content.number (string_bytes value)) }
        ensures detached { KeepsDocument doc.old doc.new (number_lit_node self) }
        ensures handles { HandlesStay doc.old doc.new }
    {
        set_leaf(doc, self.node(), Kind::Number(value));
    }
}

impl CstWordLit {
    /// Sets its text to this one, which is not checked.
    ///
    /// Nothing is allocated, and nothing else changes. The text may be none that the leaf's kind
    /// has in a document, and then the document may not be parsed again.
    /// [`CstStringLit::set_raw_value`] has an example.
    pub fn set_raw_value<A: Allocator>(self, doc: &mut CstRootNode<A>, value: String<A>)
        requires { HasNode doc.old (word_lit_node self) }
        ensures set { HasBecome doc.old doc.new (word_lit_node self) (Content.word (string_bytes value)) }
        ensures detached { KeepsDocument doc.old doc.new (word_lit_node self) }
        ensures handles { HandlesStay doc.old doc.new }
    {
        set_leaf(doc, self.node(), Kind::Word(value));
    }
}

impl CstComment {
    /// Sets its text to this one, which is not checked.
    ///
    /// Nothing is allocated, and nothing else changes. The text may be none that the leaf's kind
    /// has in a document, and then the document may not be parsed again.
    /// [`CstStringLit::set_raw_value`] has an example.
    pub fn set_raw_value<A: Allocator>(self, doc: &mut CstRootNode<A>, value: String<A>)
        requires { HasNode doc.old (comment_node self) }
        ensures set { HasBecome doc.old doc.new (comment_node self) (Content.comment (string_bytes value)) }
        ensures detached { KeepsDocument doc.old doc.new (comment_node self) }
        ensures handles { HandlesStay doc.old doc.new }
    {
        set_leaf(doc, self.node(), Kind::Comment(value));
    }
}

impl CstToken {
    /// Sets its character, which is not checked.
    ///
    /// Nothing is allocated, and nothing else changes. `[1]` with `)` for its last bracket is
    /// `[1)`.
    pub fn set_value<A: Allocator>(self, doc: &mut CstRootNode<A>, value: char)
        requires { HasNode doc.old (token_node self) }
        ensures set { HasBecome doc.old doc.new (token_node self) (Content.token value) }
        ensures detached { KeepsDocument doc.old doc.new (token_node self) }
        ensures handles { HandlesStay doc.old doc.new }
    {
        set_leaf(doc, self.node(), Kind::token(value));
    }
}

impl CstWhitespace {
    /// Sets its text, which is not checked.
    ///
    /// Nothing is allocated, and nothing else changes. `[1, 2]` with an empty text for its blank is
    /// `[1,2]`.
    pub fn set_value<A: Allocator>(self, doc: &mut CstRootNode<A>, value: String<A>)
        requires { HasNode doc.old (whitespace_node self) }
        ensures set { HasBecome doc.old doc.new (whitespace_node self) (Content.whitespace (string_bytes value)) }
        ensures detached { KeepsDocument doc.old doc.new (whitespace_node self) }
        ensures handles { HandlesStay doc.old doc.new }
    {
        set_leaf(doc, self.node(), Kind::Whitespace(value));
    }
}

impl CstNewline {
    /// Sets how the line ends.
    ///
    /// Nothing is allocated, and nothing else changes: an LF with `CarriageReturnLineFeed` is a CR
    /// LF.
    pub fn set_kind<A: Allocator>(self, doc: &mut CstRootNode<A>, kind: CstNewlineKind)
        requires { HasNode doc.old (newline_node self) }
        ensures set { HasBecome doc.old doc.new (newline_node self) (Content.newline kind) }
        ensures detached { KeepsDocument doc.old doc.new (newline_node self) }
        ensures handles { HandlesStay doc.old doc.new }
    {
        set_leaf(doc, self.node(), Kind::Newline(kind));
    }
}
