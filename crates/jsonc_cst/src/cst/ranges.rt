//! Where nodes are in the text that their document prints.

ghost use Rattle.std.specs.Prelude.{◌≡◌, ◌<◌, ◌≤◌, ◌^◌, length, IfNone, IfSome};
ghost use Rattle.jsonc_tree.specs.Content.{text_of};
ghost use Rattle.jsonc_tree.specs.Order.{printed_at};
ghost use Rattle.jsonc_tree.specs.OrderedTree.{ordered_tree, printed};
ghost use Rattle.jsonc_tree.specs.Stored.{content_of};
ghost use Rattle.jsonc_tree.specs.Tree.{IsOver};
ghost use Rattle.jsonc_cst.specs.Document.{nodes_of, printed_of, HasNode};
ghost use Rattle.jsonc_cst.specs.Nodes.{number_of};
ghost use Rattle.jsonc_cst.specs.Ranges.{place_past, range_from, IsBefore, PrintsByte, PrintsRange};

use super::CstRootNode;
use super::access::node_at;
use super::node::CstNode;
use jsonc_text::common::Range;
use jsonc_tree::{CstNewlineKind, Kind, Tree};
use std::alloc::Allocator;

// How many bytes a node prints itself.
pub(super) fn own_length<A: Allocator>(kind: &Kind<A>) -> usize
    ensures { result ≡ length (text_of (content_of kind.now)) }
{
    match kind {
        Kind::Root(_) | Kind::Object(_) | Kind::Array(_) | Kind::Property(_) => 0,
        Kind::String(s) => s.len(),
        Kind::Word(s) => s.len(),
        Kind::Number(s) => s.len(),
        Kind::Boolean(true) => 4,
        Kind::Boolean(false) => 5,
        Kind::Null => 4,
        Kind::Token(c) => c.as_bytes().len(),
        Kind::Whitespace(s) => s.len(),
        Kind::Newline(CstNewlineKind::LineFeed) => 1,
        Kind::Newline(CstNewlineKind::CarriageReturnLineFeed) => 2,
        Kind::Newline(CstNewlineKind::CarriageReturn) => 1,
        Kind::Comment(s) => s.len(),
        Kind::StringPart(s) => s.as_str().len(),
        Kind::WordPart(s) => s.as_str().len(),
        Kind::NumberPart(s) => s.as_str().len(),
        Kind::WhitespacePart(s) => s.as_str().len(),
        Kind::CommentPart(s) => s.as_str().len(),
    }
}

// How many bytes the document prints before a node, if the node is in it.
pub(super) fn bytes_before<A: Allocator>(tree: &Tree<A>, node: usize) -> Option<usize>
    requires { node < length tree.now.nodes }
    ensures found { IfSome result (IsBefore tree.now.nodes node) }
    ensures none { IfNone result (IsOver tree.now.nodes 0 node → 2 ^ 64 ≤ length (printed (ordered_tree tree.now.nodes 0))) }
{
    let mut count: usize = 0;
    let mut next = Some(0);
    while let Some(at) = next {
        if at == node {
            return Some(count);
        }
        let Some(sum) = count.checked_add(own_length(tree.kind(at))) else {
            return None;
        };
        count = sum;
        next = tree.next_in_order(0, at);
    }
    None
}

// How many bytes a node prints, with all below it.
fn bytes_of<A: Allocator>(tree: &Tree<A>, node: usize) -> Option<usize>
    requires { node < length tree.now.nodes }
    ensures count { IfSome result (λ n. n ≡ length (printed_at tree.now.nodes node)) }
    ensures none { IfNone result (2 ^ 64 ≤ length (printed_at tree.now.nodes node)) }
{
    let mut count: usize = 0;
    let mut next = Some(node);
    while let Some(at) = next {
        let Some(sum) = count.checked_add(own_length(tree.kind(at))) else {
            return None;
        };
        count = sum;
        next = tree.next_in_order(node, at);
    }
    Some(count)
}

// The place so many bytes after another, if memory can count to it.
pub(super) fn place_past(at: Option<usize>, size: usize) -> Option<usize>
    ensures { result ≡ place_past at size }
{
    let Some(at) = at else {
        return None;
    };
    at.checked_add(size)
}

// The range of what a node prints, with all below it, where it begins at a place.
pub(super) fn range_from<A: Allocator>(
    tree: &Tree<A>,
    at: Option<usize>,
    node: usize,
) -> Option<Range>
    requires { node < length tree.now.nodes }
    ensures { result ≡ range_from at (length (printed_at tree.now.nodes node)) }
{
    let start = at?;
    let length = bytes_of(tree, node)?;
    let end = start.checked_add(length)?;
    Some(Range::new(start, end))
}

// The leaf that prints the byte at a place of the document's text.
fn leaf_at<A: Allocator>(tree: &Tree<A>, place: usize) -> Option<usize>
    ensures found { IfSome result (PrintsByte tree.now.nodes place) }
    ensures in_tree { IfSome result (λ n. n < length tree.now.nodes) }
    ensures none { IfNone result (length (printed (ordered_tree tree.now.nodes 0)) ≤ place) }
{
    let mut left = place;
    let mut next = Some(0);
    while let Some(at) = next {
        let length = own_length(tree.kind(at));
        if left < length {
            return Some(at);
        }
        left -= length;
        next = tree.next_in_order(0, at);
    }
    None
}

impl<A: Allocator> CstRootNode<A> {
    /// The bytes of the document's text that a node prints, with all below it.
    ///
    /// They are counted in the text as it is now. None of a node that was removed, and in a text of
    /// more than `usize::MAX` bytes. Nothing is allocated; the nodes before it are passed once. In
    /// `{"a": [1]}` the array has the range from 6 to 9.
    pub fn range(&self, node: CstNode) -> Option<Range>
        requires { HasNode self.now node }
        ensures range { IfSome result
            (λ range. PrintsRange (nodes_of self.now) (number_of node) range.start range.end) }
        ensures none { IfNone result
            (IsOver (nodes_of self.now) 0 (number_of node) → 2 ^ 64 ≤ length (printed_of self.now)) }
    {
        let start = bytes_before(&self.tree, node.number())?;
        let length = bytes_of(&self.tree, node.number())?;
        let end = start.checked_add(length)?;
        Some(Range::new(start, end))
    }

    /// The innermost node that prints the byte at a place of the document's text.
    ///
    /// It is a leaf: a string, a bracket, a comment, a run of blanks and so on; its parents are around
    /// the place too. None at the end of the text and after it. Nothing is allocated. In
    /// `{"a": [1]}` place 7 is in the number, and place 5 in the blank before the array.
    pub fn node_at(&self, place: usize) -> Option<CstNode>
        ensures found { IfSome result (λ node. PrintsByte (nodes_of self.now) place (number_of node)) }
        ensures in_document { IfSome result (HasNode self.now) }
        ensures none { IfNone result (length (printed_of self.now) ≤ place) }
    {
        let leaf = leaf_at(&self.tree, place)?;
        Some(node_at(&self.tree, leaf))
    }
}
