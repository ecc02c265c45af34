//! A comment that is inserted after an entry.

ghost use Rattle.std.specs.Prelude.{◌≡◌, ◌<◌, ◌+◌, None, OnErr, OnOk, Some, length};
ghost use Rattle.jsonc_tree.specs.Building.{Keeps};
ghost use Rattle.jsonc_tree.specs.OrderedTree.{ordered_tree};
ghost use Rattle.jsonc_tree.specs.Tree.{parent_at, place_at};
ghost use Rattle.jsonc_layout.specs.lines.Siblings.{if_comma};
ghost use Rattle.jsonc_layout.specs.nodes.Comments.{after_inline_trivia_at};
ghost use Rattle.jsonc_layout.specs.nodes.Siblings.{IsThere};
ghost use Rattle.jsonc_edit.specs.Put.{Extends};
ghost use Rattle.jsonc_edit.specs.commenting.Behind.{comment_follows, end_of_entry, ends_line_at, last_blank};
ghost use Rattle.jsonc_edit.specs.commenting.Behind.{may_end_line, spaced, ComesBehind};
ghost use Rattle.jsonc_edit.specs.commenting.Come.{LeavesCome};

use super::come::come_behind;
use crate::comments::begins_line;
use jsonc_layout::building::Row;
use jsonc_layout::nodes::{after_inline_trivia, is_comma, is_newline, is_whitespace, next_sibling};
use jsonc_tree::Tree;
use std::alloc::{AllocError, Allocator};

// The comma after a child on its line, with nothing but whitespace and comments between; or the child.
fn end_of_entry<A: Allocator>(tree: &Tree<A>, node: usize) -> usize
    requires { node < length tree.now.nodes }
    ensures end { result ≡ end_of_entry tree.now.nodes node }
    ensures in_tree { result < length tree.now.nodes }
{
    match after_inline_trivia(tree, node) {
        Some(other) if is_comma(tree, other) => other,
        _ => node,
    }
}

// The last of the whitespace leaves directly after a node, or the node.
fn last_blank<A: Allocator>(tree: &Tree<A>, node: usize) -> usize
    requires { node < length tree.now.nodes }
    ensures blank { result ≡ last_blank tree.now.nodes node }
    ensures in_tree { result < length tree.now.nodes }
{
    let mut last = node;
    while let Some(next) = tree.next_sibling(last) {
        if !is_whitespace(tree, next) {
            return last;
        }
        last = next;
    }
    last
}

// The node directly after which a comment is inserted.
fn comment_follows<A: Allocator>(tree: &Tree<A>, node: usize, text: &str) -> usize
    requires { node < length tree.now.nodes }
    ensures { result ≡ comment_follows tree.now.nodes node text.now }
{
    let end = end_of_entry(tree, node);
    if begins_line(text) {
        return last_blank(tree, end);
    }
    end
}

// Whether a line ends at a node of a container's row, or, where none is left of the row, the text.
fn ends_line_at<A: Allocator>(tree: &Tree<A>, container: Option<usize>, next: Option<usize>) -> bool
    requires { IsThere tree.now.nodes next }
    ensures { result ≡ ends_line_at tree.now.nodes container next }
{
    match (next, container) {
        (Some(next), _) => is_newline(tree, next),
        (None, Some(container)) => container == 0,
        (None, None) => true,
    }
}

/// Whether a line comment may be inserted after a child: nothing but whitespace stands after it, or after
/// its comma, on its line.
pub fn may_end_line<A: Allocator>(tree: &Tree<A>, node: usize) -> bool
    requires in_tree { node < length tree.now.nodes }
    ensures ends { result ≡ may_end_line tree.now.nodes node }
{
    let last = last_blank(tree, end_of_entry(tree, node));
    ends_line_at(tree, tree.parent(node), next_sibling(tree, last))
}

// Puts a space and a comment directly after a child.
fn come_spaced<A: Allocator + Copy>(
    alloc: A,
    tree: &mut Tree<A>,
    container: usize,
    before: usize,
    text: &str,
) -> Result<(), AllocError>
    requires child { parent_at tree.old.nodes before ≡ Some container }
    ensures come { OnOk result
        (LeavesCome tree.old.nodes tree.new.nodes container (place_at tree.old.nodes before + 1) (spaced text.now)) }
    ensures prepared { OnErr result (Extends tree.old.nodes tree.new.nodes) }
{
    let mut row = Row::new(alloc);
    row.push_blank(tree, " ")?;
    row.push_comment(tree, text)?;
    come_behind(tree, container, before, &row.nodes);
    Ok(())
}

/// Puts a comment after a child, on its line: after its comma, if nothing but whitespace and comments
/// stands between, and after one space.
///
/// A line comment is inserted after whitespace that stands there, at the end of the line: where
/// [`may_end_line`] says so. Where the child is detached no node changes.
///
/// All memory is asked for before any child changes, and an error leaves the document, and every node
/// that was there, as it was.
pub fn insert_comment_behind<A: Allocator + Copy>(
    alloc: A,
    tree: &mut Tree<A>,
    node: usize,
    text: &str,
) -> Result<(), AllocError>
    requires in_tree { node < length tree.old.nodes }
    ensures come { OnOk result (ComesBehind tree.old.nodes tree.new.nodes node text.now) }
    ensures untouched { parent_at tree.old.nodes node ≡ None → tree.new.nodes ≡ tree.old.nodes }
    ensures kept { OnErr result (Keeps (length tree.old.nodes) tree.old.nodes tree.new.nodes) }
    ensures document { OnErr result (ordered_tree tree.new.nodes 0 ≡ ordered_tree tree.old.nodes 0) }
{
    let Some(container) = tree.parent(node) else {
        return Ok(());
    };
    let before = comment_follows(tree, node, text);
    come_spaced(alloc, tree, container, before, text)
}
