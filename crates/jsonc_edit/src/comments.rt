//! Comments that leave.

ghost use Rattle.std.specs.Prelude.{◌≡◌, ◌<◌, ◌≤◌, ◌+◌, IfErr, None, OnErr, OnOk, Some, [], length, slice_index};
ghost use Rattle.jsonc_text.specs.Options.{Options};
ghost use Rattle.jsonc_tree.specs.Building.{Keeps};
ghost use Rattle.jsonc_tree.specs.Content.{Content};
ghost use Rattle.jsonc_tree.specs.OrderedTree.{ordered_tree};
ghost use Rattle.jsonc_tree.specs.Tree.{children_at, content_at, parent_at, place_at};
ghost use Rattle.jsonc_sound.specs.Lines.{is_line_comment};
ghost use Rattle.jsonc_edit.specs.Comments.{blanks_from, removed_from, newline_from, RemovesComment, RemovesCommentAlone};
ghost use Rattle.jsonc_edit.specs.Comments.{IsRemoved, TakesOut, WantsSpace};

use crate::EditError;
use crate::due::space_needed_between;
use crate::put::{make_spaces, put_spaces};
use jsonc_layout::nodes::{is_newline, is_whitespace};
use jsonc_tree::{Kind, Tree};
use std::alloc::Allocator;

// Whether a comment with this text is a line comment.
pub(crate) fn begins_line(text: &str) -> bool
    ensures { result ≡ is_line_comment (Content.comment text.now) }
{
    matches!(text.as_bytes(), [b'/', b'/', ..])
}

/// Whether a node is a comment that begins with `//`. The number may be any.
pub fn is_line_comment<A: Allocator>(tree: &Tree<A>, node: usize) -> bool
    ensures { result ≡ is_line_comment (content_at tree.now.nodes node) }
{
    if node >= tree.len() {
        return false;
    }
    match tree.kind(node) {
        Kind::Comment(s) => begins_line(s.as_str()),
        Kind::CommentPart(s) => begins_line(s.as_str()),
        _ => false,
    }
}

// The first of the whitespace leaves directly before a child of a container, or that child.
pub(crate) fn first_blank<A: Allocator>(tree: &Tree<A>, container: usize, node: usize) -> usize
    requires { parent_at tree.now.nodes node ≡ Some container }
    ensures child { parent_at tree.now.nodes result ≡ Some container }
    ensures place { place_at tree.now.nodes result
        ≡ blanks_from tree.now.nodes (children_at tree.now.nodes container) (place_at tree.now.nodes node) }
    ensures before { place_at tree.now.nodes result ≤ place_at tree.now.nodes node }
{
    let mut first = node;
    for sibling in tree.previous_siblings(node) {
        if !is_whitespace(tree, sibling) {
            return first;
        }
        first = sibling;
    }
    first
}

// The newline leaf directly before a child of a container, or that child.
fn newline_before<A: Allocator>(tree: &Tree<A>, container: usize, node: usize) -> usize
    requires { parent_at tree.now.nodes node ≡ Some container }
    ensures child { parent_at tree.now.nodes result ≡ Some container }
    ensures place { place_at tree.now.nodes result
        ≡ newline_from tree.now.nodes (children_at tree.now.nodes container) (place_at tree.now.nodes node) }
    ensures before { place_at tree.now.nodes result ≤ place_at tree.now.nodes node }
{
    let Some(sibling) = tree.previous_sibling(node) else {
        return node;
    };
    if !is_newline(tree, sibling) {
        return node;
    }
    sibling
}

// The first node that is removed with a comment.
pub(crate) fn first_removed<A: Allocator>(tree: &Tree<A>, container: usize, comment: usize) -> usize
    requires { parent_at tree.now.nodes comment ≡ Some container }
    ensures first { result
        ≡ slice_index (children_at tree.now.nodes container) (removed_from tree.now.nodes container comment) }
    ensures before { removed_from tree.now.nodes container comment ≤ place_at tree.now.nodes comment }
    ensures in_tree { result < length tree.now.nodes }
{
    if !is_line_comment(tree, comment) {
        return comment;
    }
    let blank = first_blank(tree, container, comment);
    newline_before(tree, container, blank)
}

// Takes a comment out, and what is removed with it.
pub(crate) fn take_out<A: Allocator>(tree: &mut Tree<A>, container: usize, comment: usize)
    requires { parent_at tree.old.nodes comment ≡ Some container }
    ensures removed { IsRemoved tree.old.nodes tree.new.nodes comment }
{
    let first = first_removed(tree, container, comment);
    tree.remove_between(container, first, comment);
}

/// Takes a comment out of the document.
///
/// Of a sound document the text is a document of the same value again, of whose literals and comments
/// that comment alone has left, and around it all stays.
///
/// With a line comment go the whitespace leaves directly before it, and the newline leaf directly
/// before those. Where two literals without quotes would come to stand directly beside each other, a
/// space is inserted between them; its memory alone may be wanted, and an error leaves the document, and
/// every node that was there, as it was. Where the comment is detached no node changes.
pub fn remove_comment<A: Allocator + Copy>(
    alloc: A,
    tree: &mut Tree<A>,
    comment: usize,
) -> Result<(), EditError>
    requires { comment < length tree.old.nodes }
    ensures removed { OnOk result (TakesOut tree.old.nodes tree.new.nodes comment) }
    ensures written { (o : Options) → OnOk result (RemovesComment o tree.old.nodes tree.new.nodes comment) }
    ensures around { OnOk result (RemovesCommentAlone tree.old.nodes tree.new.nodes comment) }
    ensures untouched { parent_at tree.old.nodes comment ≡ None → tree.new.nodes ≡ tree.old.nodes }
    ensures memory { IfErr result (λ e. e ≡ EditError.OutOfMemory) }
    ensures oom_only_if { OnErr result (WantsSpace tree.old.nodes comment) }
    ensures kept { OnErr result (Keeps (length tree.old.nodes) tree.old.nodes tree.new.nodes) }
    ensures document { OnErr result (ordered_tree tree.new.nodes 0 ≡ ordered_tree tree.old.nodes 0) }
{
    let Some(container) = tree.parent(comment) else {
        return Ok(());
    };
    let first = first_removed(tree, container, comment);
    let due = space_needed_between(tree, first, comment);
    let spaces = make_spaces(alloc, tree, None, due)?;
    put_spaces(tree, spaces);
    take_out(tree, container, comment);
    Ok(())
}
