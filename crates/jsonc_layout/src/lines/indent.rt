//! What the line of a node begins with.
ghost use Rattle.std.specs.Prelude.{◌≡◌, ◌<◌, option_map, string_bytes, IfOk, length};
ghost use Rattle.jsonc_layout.specs.lines.IndentViews.{text_in};
ghost use Rattle.jsonc_layout.specs.lines.Lines.{begins_line, blanks_at, first_blank_at, follows_newline};
ghost use Rattle.jsonc_layout.specs.lines.Lines.{indent_at, opening_at, single_indent_of};

use crate::lines::kinds::blank_at;
use crate::nodes::{first_element_from, is_newline, is_trivia, line_before, previous_siblings};
use jsonc_tree::Tree;
use std::alloc::{AllocError, Allocator};

// Whether nothing but trivia stands before a node on its line.
fn begins_line<A: Allocator>(tree: &Tree<A>, node: usize) -> bool
    requires { node < length tree.now.nodes }
    ensures { result ≡ begins_line tree.now.nodes node }
{
    for sibling in previous_siblings(tree, node) {
        if is_newline(tree, sibling) {
            return true;
        }
        if !is_trivia(tree, sibling) {
            return false;
        }
    }
    true
}

// Whether a line ends before a node.
fn follows_newline<A: Allocator>(tree: &Tree<A>, node: usize) -> bool
    requires { node < length tree.now.nodes }
    ensures { result ≡ follows_newline tree.now.nodes node }
{
    previous_siblings(tree, node).any(|sibling| is_newline(tree, sibling))
}

// The whitespace leaf that a node's line begins with.
fn first_blank<A: Allocator>(tree: &Tree<A>, node: usize) -> Option<&str>
    requires { node < length tree.now.nodes }
    ensures { option_map (λ s. s.now) result ≡ first_blank_at tree.now.nodes node }
{
    let Some(first) = line_before(tree, node).next() else {
        return None;
    };
    blank_at(tree, first)
}

// The whitespace that a node's line begins with, joined.
fn joined_blanks<A: Allocator>(
    alloc: A,
    tree: &Tree<A>,
    node: usize,
) -> Result<String<A>, AllocError>
    requires { node < length tree.now.nodes }
    ensures { IfOk result (λ s. string_bytes s ≡ blanks_at tree.now.nodes node) }
{
    let mut joined = String::new(alloc);
    for sibling in line_before(tree, node) {
        let Some(text) = blank_at(tree, sibling) else {
            return Ok(joined);
        };
        joined.push_str(text)?;
    }
    Ok(joined)
}

/// The whitespace that a node's line begins with, joined, if nothing but trivia stands before the
/// node on its line.
///
/// None also where the line does not begin with a whitespace leaf; an empty leaf is one.
pub fn indent_text<A: Allocator>(
    alloc: A,
    tree: &Tree<A>,
    node: usize,
) -> Result<Option<String<A>>, AllocError>
    requires in_tree { node < length tree.now.nodes }
    ensures indent { IfOk result (λ o. text_in o ≡ indent_at tree.now.nodes node) }
{
    if !begins_line(tree, node) {
        return Ok(None);
    }
    if first_blank(tree, node).is_none() {
        return Ok(None);
    }
    let text = joined_blanks(alloc, tree, node)?;
    Ok(Some(text))
}

// The whitespace leaf directly after the nearest line's end before a node.
fn opening<A: Allocator>(
    alloc: A,
    tree: &Tree<A>,
    node: usize,
) -> Result<Option<String<A>>, AllocError>
    requires { node < length tree.now.nodes }
    ensures { IfOk result (λ o. text_in o ≡ opening_at tree.now.nodes node) }
{
    if !follows_newline(tree, node) {
        return Ok(None);
    }
    let Some(text) = first_blank(tree, node) else {
        return Ok(None);
    };
    let text = String::from_str(alloc, text)?;
    Ok(Some(text))
}

/// The whitespace leaf that the line of the first element of the document's value begins with: the
/// indent of one level.
///
/// None where no line ends before that element, or its line begins with something else.
pub fn single_indent_text<A: Allocator>(
    alloc: A,
    tree: &Tree<A>,
) -> Result<Option<String<A>>, AllocError>
    ensures indent { IfOk result (λ o. text_in o ≡ single_indent_of tree.now.nodes) }
{
    let Some(value) = first_element_from(tree, 0, 0) else {
        return Ok(None);
    };
    let Some(element) = first_element_from(tree, value, 0) else {
        return Ok(None);
    };
    opening(alloc, tree, element)
}
