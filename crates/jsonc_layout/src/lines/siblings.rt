//! What stands around a node among its siblings.
ghost use Rattle.std.specs.Prelude.{◌≡◌, ◌<◌, length};
ghost use Rattle.jsonc_layout.specs.nodes.Siblings.{IsThere};
ghost use Rattle.jsonc_layout.specs.lines.Lines.{blank_line_before};
ghost use Rattle.jsonc_layout.specs.lines.Siblings.{after_trivia_at, trailing_comma_at};

use crate::nodes::{
    is_comma, is_newline, is_trivia, is_whitespace, next_siblings, previous_siblings,
};
use jsonc_tree::Tree;
use std::alloc::Allocator;

// The nearest sibling after a node that is no trivia.
fn after_trivia<A: Allocator>(tree: &Tree<A>, node: usize) -> Option<usize>
    requires { node < length tree.now.nodes }
    ensures sibling { result ≡ after_trivia_at tree.now.nodes node }
    ensures in_tree { IsThere tree.now.nodes result }
{
    next_siblings(tree, node).find(|sibling| !is_trivia(tree, *sibling))
}

/// The comma after a node, with nothing but trivia between them, if there is one.
pub fn trailing_comma<A: Allocator>(tree: &Tree<A>, node: usize) -> Option<usize>
    requires in_tree { node < length tree.now.nodes }
    ensures comma { result ≡ trailing_comma_at tree.now.nodes node }
{
    let Some(next) = after_trivia(tree, node) else {
        return None;
    };
    if is_comma(tree, next) {
        return Some(next);
    }
    None
}

/// Whether a blank line stands in the trivia directly before a node: two lines' ends with nothing
/// but whitespace between them.
pub fn has_blank_line_before<A: Allocator>(tree: &Tree<A>, node: usize) -> bool
    requires in_tree { node < length tree.now.nodes }
    ensures blank { result ≡ blank_line_before tree.now.nodes node }
{
    let mut ended_line = false;
    for sibling in previous_siblings(tree, node) {
        if !is_trivia(tree, sibling) {
            return false;
        }
        if ended_line & is_newline(tree, sibling) {
            return true;
        }
        ended_line = is_newline(tree, sibling) | (ended_line & is_whitespace(tree, sibling));
    }
    false
}
