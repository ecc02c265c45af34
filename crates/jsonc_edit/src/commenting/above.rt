//! A comment that is inserted above an entry.

ghost use Rattle.std.specs.Prelude.{◌≡◌, ◌<◌, IfOk, None, OnErr, OnOk, Some, length};
ghost use Rattle.std.specs.Prelude.{option_and_then, option_map, string_bytes};
ghost use Rattle.jsonc_tree.specs.Building.{Keeps};
ghost use Rattle.jsonc_tree.specs.OrderedTree.{ordered_tree};
ghost use Rattle.jsonc_tree.specs.Stored.{content_of};
ghost use Rattle.jsonc_tree.specs.Tree.{parent_at, place_at};
ghost use Rattle.jsonc_layout.specs.lines.Breadth.{newline_kind_at};
ghost use Rattle.jsonc_layout.specs.lines.Kinds.{blank_at, blank_of};
ghost use Rattle.jsonc_edit.specs.Put.{Extends};
ghost use Rattle.jsonc_edit.specs.commenting.Above.{begins_own_line, indent_in, own_indent, own_line};
ghost use Rattle.jsonc_edit.specs.commenting.Above.{seam_at, without_end, ComesAbove, ComesAtSeam};
ghost use Rattle.jsonc_edit.specs.commenting.Come.{LeavesCome};

use super::come::come_before;
use crate::multiline::lines_for;
use jsonc_layout::building::Row;
use jsonc_layout::lines::{indent_text, is_array_or_object, newline_kind_at};
use jsonc_layout::nodes::{is_whitespace, line_before, previous_sibling};
use jsonc_tree::{Kind, Tree};
use std::alloc::{AllocError, Allocator};

// Whether nothing but whitespace stands before a node on its line.
fn begins_own_line<A: Allocator>(tree: &Tree<A>, node: usize) -> bool
    requires { node < length tree.now.nodes }
    ensures { result ≡ begins_own_line tree.now.nodes node }
{
    line_before(tree, node).all(|sibling| is_whitespace(tree, sibling))
}

// The indent of a node, where its line begins with it.
fn own_indent<A: Allocator + Copy>(
    alloc: A,
    tree: &Tree<A>,
    node: usize,
) -> Result<String<A>, AllocError>
    requires { node < length tree.now.nodes }
    ensures { IfOk result (λ s. string_bytes s ≡ own_indent tree.now.nodes node) }
{
    match indent_text(alloc, tree, node)? {
        Some(indent) => Ok(indent),
        None => Ok(String::new(alloc)),
    }
}

// The indent that an entry of a container has on a line of its own.
fn indent_in<A: Allocator + Copy>(
    alloc: A,
    tree: &Tree<A>,
    container: usize,
) -> Result<String<A>, AllocError>
    requires { container < length tree.now.nodes }
    ensures { IfOk result (λ s. string_bytes s ≡ indent_in tree.now.nodes container) }
{
    if !is_array_or_object(tree.kind(container)) {
        return Ok(String::new(alloc));
    }
    let lines = lines_for(alloc, tree, container)?;
    Ok(lines.inner)
}

// The text without another at its end, if it ends with that.
fn without_end<'a>(text: &'a str, last: &str) -> Option<&'a str>
    ensures { option_map (λ s. s.now) result ≡ without_end text.now last.now }
{
    text.strip_suffix(last)
}

// The text of whitespace.
fn blank_text<A: Allocator>(kind: &Kind<A>) -> Option<&str>
    ensures { option_map (λ s. s.now) result ≡ blank_of (content_of kind.now) }
{
    match kind {
        Kind::Whitespace(_) | Kind::WhitespacePart(_) => kind.text(),
        _ => None,
    }
}

// An indent without a node at its end, if that is whitespace with which it ends.
fn without_blank<'a, A: Allocator>(tree: &Tree<A>, node: usize, indent: &'a str) -> Option<&'a str>
    requires { node < length tree.now.nodes }
    ensures { option_map (λ s. s.now) result ≡ option_and_then (without_end indent.now) (blank_at tree.now.nodes node) }
{
    match blank_text(tree.kind(node)) {
        Some(blank) => without_end(indent, blank),
        None => None,
    }
}

// Before which node lines come, and what of the indent is still to be written before that.
#[derive(Drop)]
struct Seam<'a> {
    node: usize,
    indent: &'a str,
}

// Before a node, or before the whitespace directly before it, if an indent ends with that.
fn seam_at<'a, A: Allocator>(tree: &Tree<A>, node: usize, indent: &'a str) -> Seam<'a>
    requires { node < length tree.now.nodes }
    ensures node { result.node ≡ (seam_at tree.now.nodes node indent.now).node }
    ensures indent { result.indent.now ≡ (seam_at tree.now.nodes node indent.now).indent }
{
    let Some(blank) = previous_sibling(tree, node) else {
        return Seam { node, indent };
    };
    match without_blank(tree, blank, indent) {
        Some(rest) => Seam {
            node: blank,
            indent: rest,
        },
        None => Seam { node, indent },
    }
}

// Puts a comment and the end of its line in the place of a child with which its line begins, and an
// indent before that.
fn come_on_line<A: Allocator + Copy>(
    alloc: A,
    tree: &mut Tree<A>,
    container: usize,
    node: usize,
    text: &str,
) -> Result<(), AllocError>
    requires child { parent_at tree.old.nodes node ≡ Some container }
    ensures come { OnOk result
        (LeavesCome tree.old.nodes tree.new.nodes container (place_at tree.old.nodes node)
        (own_line (newline_kind_at tree.old.nodes container) text.now (own_indent tree.old.nodes node))) }
    ensures prepared { OnErr result (Extends tree.old.nodes tree.new.nodes) }
{
    let kind = newline_kind_at(tree, container);
    let indent = own_indent(alloc, tree, node)?;
    let mut row = Row::new(alloc);
    row.push_comment(tree, text)?;
    row.push_line(tree, kind, indent.as_str())?;
    come_before(tree, container, node, &row.nodes);
    Ok(())
}

// Puts a comment on a new line before a child that has something before it on its line, and the child
// on a new line after it.
fn come_between<A: Allocator + Copy>(
    alloc: A,
    tree: &mut Tree<A>,
    container: usize,
    node: usize,
    text: &str,
) -> Result<(), AllocError>
    requires child { parent_at tree.old.nodes node ≡ Some container }
    ensures come { OnOk result
        (ComesAtSeam tree.old.nodes tree.new.nodes container text.now
        (seam_at tree.old.nodes node (indent_in tree.old.nodes container))) }
    ensures prepared { OnErr result (Extends tree.old.nodes tree.new.nodes) }
{
    let kind = newline_kind_at(tree, container);
    let indent = indent_in(alloc, tree, container)?;
    let inner = indent.as_str();
    let seam = seam_at(tree, node, inner);
    let mut row = Row::new(alloc);
    row.push_line(tree, kind, inner)?;
    row.push_comment(tree, text)?;
    row.push_line(tree, kind, seam.indent)?;
    come_before(tree, container, seam.node, &row.nodes);
    Ok(())
}

/// Puts a comment above a child, on a line of its own.
///
/// Where a line begins with the child, the comment is put in its place, and after it the end of the
/// line, as the document's lines end, and the child's indent. Where anything but whitespace stands
/// before the child on its line, a new line begins before the comment, and another after it; both
/// have the indent of what stands in the container, and whitespace before the child with which that
/// ends is the end of the second. Where the child is detached no node changes.
///
/// All memory is asked for before any child changes, and an error leaves the document, and every node
/// that was there, as it was.
pub fn insert_comment_above<A: Allocator + Copy>(
    alloc: A,
    tree: &mut Tree<A>,
    node: usize,
    text: &str,
) -> Result<(), AllocError>
    requires in_tree { node < length tree.old.nodes }
    ensures come { OnOk result (ComesAbove tree.old.nodes tree.new.nodes node text.now) }
    ensures untouched { parent_at tree.old.nodes node ≡ None → tree.new.nodes ≡ tree.old.nodes }
    ensures kept { OnErr result (Keeps (length tree.old.nodes) tree.old.nodes tree.new.nodes) }
    ensures document { OnErr result (ordered_tree tree.new.nodes 0 ≡ ordered_tree tree.old.nodes 0) }
{
    let Some(container) = tree.parent(node) else {
        return Ok(());
    };
    if begins_own_line(tree, node) {
        return come_on_line(alloc, tree, container, node, text);
    }
    come_between(alloc, tree, container, node, text)
}
