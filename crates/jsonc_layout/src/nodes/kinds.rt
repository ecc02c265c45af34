//! The kinds of nodes that stand in a row.
//!
//! Each test of a number takes any: a number that names no node reads as `null`, in contracts too.

ghost use Rattle.std.specs.Prelude.{◌≡◌};
ghost use Rattle.jsonc_tree.specs.Stored.{content_of};
ghost use Rattle.jsonc_tree.specs.Tree.{content_at};
ghost use Rattle.jsonc_layout.specs.nodes.Kinds.{is_property, is_token};
ghost use Rattle.jsonc_layout.specs.nodes.Kinds.{is_inline_trivia_at, is_blank_at, is_colon_at, is_comma_at, is_comment_at, is_element_at};
ghost use Rattle.jsonc_layout.specs.nodes.Kinds.{is_newline_at, is_trivia_at, is_whitespace_at};
ghost use Rattle.jsonc_layout.specs.nodes.Properties.{is_name_at};

use jsonc_tree::{Kind, Tree};
use std::alloc::Allocator;

/// Whether this is the kind of a property.
pub fn is_property_kind<A: Allocator>(kind: &Kind<A>) -> bool
    ensures { result ≡ is_property (content_of kind.now) }
{
    matches!(kind, Kind::Property(_))
}

/// Whether a node is neither trivia nor a token.
pub fn is_element<A: Allocator>(tree: &Tree<A>, node: usize) -> bool
    ensures element { result ≡ is_element_at tree.now.nodes node }
{
    if node >= tree.len() {
        return true;
    }
    match tree.kind(node) {
        Kind::Token(_) | Kind::Newline(_) => false,
        Kind::Whitespace(_) | Kind::WhitespacePart(_) => false,
        Kind::Comment(_) | Kind::CommentPart(_) => false,
        _ => true,
    }
}

/// Whether a node is a bracket, a comma, a colon or another single character.
pub fn is_token<A: Allocator>(tree: &Tree<A>, node: usize) -> bool
    ensures { result ≡ is_token (content_at tree.now.nodes node) }
{
    if node >= tree.len() {
        return false;
    }
    matches!(tree.kind(node), Kind::Token(_))
}

/// Whether a node is a comma.
pub fn is_comma<A: Allocator>(tree: &Tree<A>, node: usize) -> bool
    ensures { result ≡ is_comma_at tree.now.nodes node }
{
    if node >= tree.len() {
        return false;
    }
    match tree.kind(node) {
        Kind::Token(c) => c.get() == ',',
        _ => false,
    }
}

// Whether a node is a colon.
pub(crate) fn is_colon<A: Allocator>(tree: &Tree<A>, node: usize) -> bool
    ensures { result ≡ is_colon_at tree.now.nodes node }
{
    if node >= tree.len() {
        return false;
    }
    match tree.kind(node) {
        Kind::Token(c) => c.get() == ':',
        _ => false,
    }
}

/// Whether a node is a comment.
pub fn is_comment<A: Allocator>(tree: &Tree<A>, node: usize) -> bool
    ensures { result ≡ is_comment_at tree.now.nodes node }
{
    if node >= tree.len() {
        return false;
    }
    matches!(tree.kind(node), Kind::Comment(_) | Kind::CommentPart(_))
}

/// Whether a node is whitespace or a comment.
pub fn is_inline_trivia<A: Allocator>(tree: &Tree<A>, node: usize) -> bool
    ensures { result ≡ is_inline_trivia_at tree.now.nodes node }
{
    if node >= tree.len() {
        return false;
    }
    match tree.kind(node) {
        Kind::Whitespace(_) | Kind::WhitespacePart(_) => true,
        Kind::Comment(_) | Kind::CommentPart(_) => true,
        _ => false,
    }
}

/// Whether a node is a newline.
pub fn is_newline<A: Allocator>(tree: &Tree<A>, node: usize) -> bool
    ensures newline { result ≡ is_newline_at tree.now.nodes node }
{
    if node >= tree.len() {
        return false;
    }
    matches!(tree.kind(node), Kind::Newline(_))
}

/// Whether a node is whitespace within a line.
pub fn is_whitespace<A: Allocator>(tree: &Tree<A>, node: usize) -> bool
    ensures whitespace { result ≡ is_whitespace_at tree.now.nodes node }
{
    if node >= tree.len() {
        return false;
    }
    match tree.kind(node) {
        Kind::WhitespacePart(_) | Kind::Whitespace(_) => true,
        _ => false,
    }
}

/// Whether a node is whitespace or a newline.
pub fn is_blank<A: Allocator>(tree: &Tree<A>, node: usize) -> bool
    ensures blank { result ≡ is_blank_at tree.now.nodes node }
{
    is_whitespace(tree, node) || is_newline(tree, node)
}

/// Whether a node is whitespace, a newline or a comment.
pub fn is_trivia<A: Allocator>(tree: &Tree<A>, node: usize) -> bool
    ensures trivia { result ≡ is_trivia_at tree.now.nodes node }
{
    if node >= tree.len() {
        return false;
    }
    match tree.kind(node) {
        Kind::Newline(_) => true,
        Kind::Whitespace(_) | Kind::WhitespacePart(_) => true,
        Kind::Comment(_) | Kind::CommentPart(_) => true,
        _ => false,
    }
}

// Whether a node is a leaf that names a property: a string or a word.
pub(crate) fn is_name<A: Allocator>(tree: &Tree<A>, node: usize) -> bool
    ensures { result ≡ is_name_at tree.now.nodes node }
{
    if node >= tree.len() {
        return false;
    }
    match tree.kind(node) {
        Kind::String(_) | Kind::StringPart(_) => true,
        Kind::Word(_) | Kind::WordPart(_) => true,
        _ => false,
    }
}
