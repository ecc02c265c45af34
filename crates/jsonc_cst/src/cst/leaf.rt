//! What the leaves of a document hold.

ghost use Rattle.std.specs.Prelude.{◌≡◌};
ghost use Rattle.jsonc_tree.specs.Content.{Content};
ghost use Rattle.jsonc_sound.specs.Lines.{is_line_comment};
ghost use Rattle.jsonc_cst.specs.Document.{content_of, HasNode};
ghost use Rattle.jsonc_cst.specs.Nodes.{boolean_lit_node, string_lit_node, number_lit_node};
ghost use Rattle.jsonc_cst.specs.Nodes.{word_lit_node, token_node, whitespace_node};
ghost use Rattle.jsonc_cst.specs.Nodes.{newline_node, comment_node};

use super::CstRootNode;
use super::node::{
    CstBooleanLit, CstComment, CstNewline, CstNumberLit, CstStringLit, CstToken, CstWhitespace,
    CstWordLit,
};
use jsonc_tree::{CstNewlineKind, Kind};
use std::alloc::Allocator;

impl CstStringLit {
    /// The string as it is written. Its quotes are part of it.
    pub fn raw_value<A: Allocator>(self, doc: &CstRootNode<A>) -> &str
        requires { HasNode doc.now (string_lit_node self) }
        ensures { content_of doc.now (string_lit_node self) ≡ Content.string result.now }
    {
        match doc.tree.kind(self.number) {
            Kind::String(s) => s.as_str(),
            Kind::StringPart(s) => s.as_str(),
            _ => unreachable!(),
        }
    }
}

impl CstNumberLit {
    /// The number as it is written.
    pub fn raw_value<A: Allocator>(self, doc: &CstRootNode<A>) -> &str
        requires { HasNode doc.now (number_lit_node self) }
        ensures { content_of doc.now (number_lit_node self) ≡ Content.number result.now }
    {
        match doc.tree.kind(self.number) {
            Kind::Number(s) => s.as_str(),
            Kind::NumberPart(s) => s.as_str(),
            _ => unreachable!(),
        }
    }
}

impl CstWordLit {
    /// The word as it is written.
    pub fn raw_value<A: Allocator>(self, doc: &CstRootNode<A>) -> &str
        requires { HasNode doc.now (word_lit_node self) }
        ensures { content_of doc.now (word_lit_node self) ≡ Content.word result.now }
    {
        match doc.tree.kind(self.number) {
            Kind::Word(s) => s.as_str(),
            Kind::WordPart(s) => s.as_str(),
            _ => unreachable!(),
        }
    }
}

impl CstBooleanLit {
    /// Whether it is `true`.
    pub fn value<A: Allocator>(self, doc: &CstRootNode<A>) -> bool
        requires { HasNode doc.now (boolean_lit_node self) }
        ensures { content_of doc.now (boolean_lit_node self) ≡ Content.boolean result }
    {
        match doc.tree.kind(self.number) {
            Kind::Boolean(value) => *value,
            _ => unreachable!(),
        }
    }
}

impl CstToken {
    /// Its character.
    pub fn value<A: Allocator>(self, doc: &CstRootNode<A>) -> char
        requires { HasNode doc.now (token_node self) }
        ensures { content_of doc.now (token_node self) ≡ Content.token result }
    {
        match doc.tree.kind(self.number) {
            Kind::Token(c) => c.get(),
            _ => unreachable!(),
        }
    }
}

impl CstWhitespace {
    /// The blanks.
    pub fn value<A: Allocator>(self, doc: &CstRootNode<A>) -> &str
        requires { HasNode doc.now (whitespace_node self) }
        ensures { content_of doc.now (whitespace_node self) ≡ Content.whitespace result.now }
    {
        match doc.tree.kind(self.number) {
            Kind::Whitespace(s) => s.as_str(),
            Kind::WhitespacePart(s) => s.as_str(),
            _ => unreachable!(),
        }
    }
}

impl CstNewline {
    /// How the line ends.
    pub fn kind<A: Allocator>(self, doc: &CstRootNode<A>) -> CstNewlineKind
        requires { HasNode doc.now (newline_node self) }
        ensures { content_of doc.now (newline_node self) ≡ Content.newline result }
    {
        match doc.tree.kind(self.number) {
            Kind::Newline(kind) => *kind,
            _ => unreachable!(),
        }
    }
}

impl CstComment {
    /// The comment as it is written. Its marks are part of it.
    pub fn raw_value<A: Allocator>(self, doc: &CstRootNode<A>) -> &str
        requires { HasNode doc.now (comment_node self) }
        ensures { content_of doc.now (comment_node self) ≡ Content.comment result.now }
    {
        match doc.tree.kind(self.number) {
            Kind::Comment(s) => s.as_str(),
            Kind::CommentPart(s) => s.as_str(),
            _ => unreachable!(),
        }
    }

    /// Whether it begins with `//`, and so goes to the end of its line.
    pub fn is_line_comment<A: Allocator>(self, doc: &CstRootNode<A>) -> bool
        requires { HasNode doc.now (comment_node self) }
        ensures { result ≡ is_line_comment (content_of doc.now (comment_node self)) }
    {
        matches!(self.raw_value(doc).as_bytes(), [b'/', b'/', ..])
    }
}
