//! The comments beside a node on its line.

ghost use Rattle.std.specs.Prelude.{◌≡◌, ◌<◌, length, IfOk};
ghost use Rattle.jsonc_layout.specs.nodes.Comments.{after_inline_trivia_at, comments_after, ends_line};
ghost use Rattle.jsonc_layout.specs.nodes.Comments.{leading_comments, trailing_comments};
ghost use Rattle.jsonc_layout.specs.nodes.Siblings.{AreThere, IsThere, siblings_after};

use crate::nodes::kinds::{is_comment, is_inline_trivia, is_newline};
use crate::nodes::siblings::{next_siblings, previous_siblings};
use jsonc_tree::Tree;
use std::alloc::{AllocError, Allocator};

/// The nearest sibling after a node that is neither whitespace nor a comment.
pub fn after_inline_trivia<A: Allocator>(tree: &Tree<A>, node: usize) -> Option<usize>
    requires { node < length tree.now.nodes }
    ensures sibling { result ≡ after_inline_trivia_at tree.now.nodes node }
    ensures in_tree { IsThere tree.now.nodes result }
{
    next_siblings(tree, node).find(|sibling| !is_inline_trivia(tree, *sibling))
}

// Whether nothing but whitespace and comments follows a node up to the next newline, or the end.
fn ends_its_line<A: Allocator>(tree: &Tree<A>, node: usize) -> bool
    requires { node < length tree.now.nodes }
    ensures { result ≡ ends_line tree.now.nodes (siblings_after tree.now.nodes node) }
{
    match after_inline_trivia(tree, node) {
        Some(other) => is_newline(tree, other),
        None => true,
    }
}

// The comments directly after a node, nearest first.
fn comments_after<A: Allocator, B: Allocator>(
    alloc: B,
    tree: &Tree<A>,
    node: usize,
) -> Result<Vec<usize, B>, AllocError>
    requires { node < length tree.now.nodes }
    ensures comments { IfOk result (λ v. v.items ≡ comments_after tree.now.nodes node) }
    ensures in_tree { IfOk result (λ v. AreThere tree.now.nodes v.items) }
{
    let mut comments = Vec::new(alloc);
    for sibling in next_siblings(tree, node) {
        if !is_inline_trivia(tree, sibling) {
            return Ok(comments);
        }
        if is_comment(tree, sibling) {
            comments.push(sibling)?;
        }
    }
    Ok(comments)
}

/// The comments directly before a node on its line, nearest first.
pub fn leading_comments_same_line<A: Allocator, B: Allocator>(
    alloc: B,
    tree: &Tree<A>,
    node: usize,
) -> Result<Vec<usize, B>, AllocError>
    requires { node < length tree.now.nodes }
    ensures comments { IfOk result (λ v. v.items ≡ leading_comments tree.now.nodes node) }
    ensures in_tree { IfOk result (λ v. AreThere tree.now.nodes v.items) }
{
    let mut comments = Vec::new(alloc);
    for sibling in previous_siblings(tree, node) {
        if !is_inline_trivia(tree, sibling) {
            return Ok(comments);
        }
        if is_comment(tree, sibling) {
            comments.push(sibling)?;
        }
    }
    Ok(comments)
}

/// The comments after a node on its line, if nothing but whitespace and comments stands between the
/// node and the next newline or the end of its row; else none.
pub fn trailing_comments_same_line<A: Allocator, B: Allocator>(
    alloc: B,
    tree: &Tree<A>,
    node: usize,
) -> Result<Vec<usize, B>, AllocError>
    requires { node < length tree.now.nodes }
    ensures comments { IfOk result (λ v. v.items ≡ trailing_comments tree.now.nodes node) }
    ensures in_tree { IfOk result (λ v. AreThere tree.now.nodes v.items) }
{
    if !ends_its_line(tree, node) {
        return Ok(Vec::new(alloc));
    }
    comments_after(alloc, tree, node)
}
