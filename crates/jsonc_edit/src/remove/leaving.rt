//! What is removed with an element.

ghost use Rattle.std.specs.Prelude.{◌≡◌, ◌<◌, length};
ghost use Rattle.jsonc_tree.specs.Siblings.{siblings_after};
ghost use Rattle.jsonc_layout.specs.nodes.Siblings.{IsThere};
ghost use Rattle.jsonc_layout.specs.lines.Siblings.{trailing_comma_at};
ghost use Rattle.jsonc_edit.specs.remove.Leaving.{begins_other, comma_before, comma_gone, ends_line_at};
ghost use Rattle.jsonc_edit.specs.remove.Leaving.{first_gone, last_gone, last_past, line_end_at, trails};

use jsonc_layout::lines::trailing_comma;
use jsonc_layout::nodes::{
    after_inline_trivia, is_comma, is_inline_trivia, is_newline, is_trivia, is_whitespace,
    previous_siblings,
};
use jsonc_tree::Tree;
use std::alloc::Allocator;

// The farthest of the whitespace and comments directly before a node, or the node.
pub(crate) fn first_gone<A: Allocator>(tree: &Tree<A>, node: usize) -> usize
    requires { node < length tree.now.nodes }
    ensures first { result ≡ first_gone tree.now.nodes node }
    ensures in_tree { result < length tree.now.nodes }
{
    let mut first = node;
    for sibling in previous_siblings(tree, node) {
        if !is_inline_trivia(tree, sibling) {
            return first;
        }
        first = sibling;
    }
    first
}

// Whether whitespace has something directly after it that is no trivia.
fn indents_other<A: Allocator>(tree: &Tree<A>, blank: usize) -> bool
    requires { blank < length tree.now.nodes }
    ensures { result ≡ begins_other tree.now.nodes (siblings_after tree.now.nodes blank) }
{
    match tree.next_sibling(blank) {
        Some(next) => !is_trivia(tree, next),
        None => false,
    }
}

// Whether a node trails its line: whitespace or a comment, but no whitespace that something else
// follows.
fn trails_line<A: Allocator>(tree: &Tree<A>, node: usize) -> bool
    requires { node < length tree.now.nodes }
    ensures { result ≡ trails tree.now.nodes node (siblings_after tree.now.nodes node) }
{
    is_inline_trivia(tree, node) && !(is_whitespace(tree, node) && indents_other(tree, node))
}

// Where the line of a node ends: at its newline; without one at the last of its whitespace and
// comments, but for whitespace that something else follows.
fn line_end<A: Allocator>(tree: &Tree<A>, node: usize) -> usize
    requires { node < length tree.now.nodes }
    ensures end { result ≡ line_end_at tree.now.nodes node }
    ensures in_tree { result < length tree.now.nodes }
{
    let mut last = node;
    while let Some(next) = tree.next_sibling(last) {
        if is_newline(tree, next) {
            return next;
        }
        if !trails_line(tree, next) {
            return last;
        }
        last = next;
    }
    last
}

// Whether a line ends after a node, past whitespace and comments.
fn ends_line<A: Allocator>(tree: &Tree<A>, node: usize) -> bool
    requires { node < length tree.now.nodes }
    ensures { result ≡ ends_line_at tree.now.nodes node }
{
    match after_inline_trivia(tree, node) {
        Some(next) => is_newline(tree, next),
        None => false,
    }
}

// The comma after a node, with nothing but trivia between.
fn comma_behind<A: Allocator>(tree: &Tree<A>, node: usize) -> Option<usize>
    requires { node < length tree.now.nodes }
    ensures comma { result ≡ trailing_comma_at tree.now.nodes node }
    ensures in_tree { IsThere tree.now.nodes result }
{
    trailing_comma(tree, node)
}

// The nearest comma before a node.
fn comma_before<A: Allocator>(tree: &Tree<A>, node: usize) -> Option<usize>
    requires { node < length tree.now.nodes }
    ensures comma { result ≡ comma_before tree.now.nodes node }
    ensures in_tree { IsThere tree.now.nodes result }
{
    previous_siblings(tree, node).find(|sibling| is_comma(tree, *sibling))
}

// The last that is removed with a node that has this comma after it, or none.
fn last_past<A: Allocator>(tree: &Tree<A>, node: usize, comma: Option<usize>) -> usize
    requires node { node < length tree.now.nodes }
    requires comma { IsThere tree.now.nodes comma }
    ensures last { result ≡ last_past tree.now.nodes node comma }
    ensures in_tree { result < length tree.now.nodes }
{
    let Some(comma) = comma else {
        return line_end(tree, node);
    };
    if ends_line(tree, node) || !ends_line(tree, comma) {
        return comma;
    }
    line_end(tree, comma)
}

// The last that is removed with a node.
pub(crate) fn last_gone<A: Allocator>(tree: &Tree<A>, node: usize) -> usize
    requires { node < length tree.now.nodes }
    ensures last { result ≡ last_gone tree.now.nodes node }
    ensures in_tree { result < length tree.now.nodes }
{
    last_past(tree, node, comma_behind(tree, node))
}

// The comma that is removed from before a node, where none stands after it.
pub(crate) fn comma_gone<A: Allocator>(tree: &Tree<A>, node: usize) -> Option<usize>
    requires { node < length tree.now.nodes }
    ensures comma { result ≡ comma_gone tree.now.nodes node }
    ensures in_tree { IsThere tree.now.nodes result }
{
    match comma_behind(tree, node) {
        Some(_) => None,
        None => comma_before(tree, node),
    }
}
