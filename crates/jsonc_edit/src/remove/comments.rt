//! Comments of an element that has been taken out.

ghost use Rattle.std.specs.Prelude.{◌≡◌, ◌<◌, false, IsTrue, Some, length};
ghost use Rattle.std.specs.List.{All};
ghost use Rattle.jsonc_tree.specs.Tree.{children_at, is_container_at, parent_at, place_at};
ghost use Rattle.jsonc_layout.specs.nodes.Siblings.{IsThere};
ghost use Rattle.jsonc_edit.specs.Comments.{space_needed_without};
ghost use Rattle.jsonc_edit.specs.remove.Comments.{begins_line, last_cleared, line_behind};
ghost use Rattle.jsonc_edit.specs.remove.Comments.{AreCleared, ClearedBy, IsCleared};

use crate::comments::{first_blank, first_removed, take_out};
use crate::remove::removing::{close_up, is_node};
use crate::space_needed_between;
use jsonc_layout::nodes::{is_newline, is_whitespace};
use jsonc_tree::Tree;
use std::alloc::Allocator;

// Whether a newline stands directly before a child of a container.
fn begins_line<A: Allocator>(tree: &Tree<A>, container: usize, node: usize) -> bool
    requires { parent_at tree.now.nodes node ≡ Some container }
    ensures { result ≡ begins_line tree.now.nodes (children_at tree.now.nodes container) (place_at tree.now.nodes node) }
{
    match tree.previous_sibling(node) {
        Some(sibling) => is_newline(tree, sibling),
        None => false,
    }
}

// The newline after a node, with nothing but whitespace between.
fn line_behind<A: Allocator>(tree: &Tree<A>, node: usize) -> Option<usize>
    requires { node < length tree.now.nodes }
    ensures line { result ≡ line_behind tree.now.nodes node }
    ensures in_tree { IsThere tree.now.nodes result }
{
    let mut last = node;
    while let Some(next) = tree.next_sibling(last) {
        if is_newline(tree, next) {
            return Some(next);
        }
        if !is_whitespace(tree, next) {
            return None;
        }
        last = next;
    }
    None
}

// The last that is removed with a comment with which its line begins.
fn last_cleared<A: Allocator>(tree: &Tree<A>, comment: usize) -> usize
    requires { comment < length tree.now.nodes }
    ensures { result ≡ last_cleared tree.now.nodes comment }
{
    match line_behind(tree, comment) {
        Some(newline) => newline,
        None => comment,
    }
}

// Takes a comment out alone, if no space is due in its place.
fn take_alone<A: Allocator>(tree: &mut Tree<A>, container: usize, comment: usize)
    requires { parent_at tree.old.nodes comment ≡ Some container }
    ensures { let due = space_needed_without tree.old.nodes container comment
        in ClearedBy tree.old.nodes tree.new.nodes container comment false due }
{
    let first = first_removed(tree, container, comment);
    if space_needed_between(tree, first, comment).is_none() {
        take_out(tree, container, comment);
    }
}

// Takes a comment out: where its line begins with it with the whitespace before it, and from a line of its own with the
// line.
fn clear_comment<A: Allocator>(tree: &mut Tree<A>, container: usize, comment: usize)
    requires { parent_at tree.old.nodes comment ≡ Some container }
    ensures cleared { IsCleared tree.old.nodes tree.new.nodes container comment }
{
    let first = first_blank(tree, container, comment);
    if begins_line(tree, container, first) {
        let last = last_cleared(tree, comment);
        tree.remove_between(container, first, last);
    } else {
        take_alone(tree, container, comment);
    }
}

/// Takes those of these comments out that a container still has, each that is alone on its line with the line, and then
/// the blanks that are left alone between its brackets. No memory is wanted.
///
/// A comment without which two literals without quotes would stand directly beside each other stays.
pub fn clear_comments<A: Allocator>(tree: &mut Tree<A>, container: usize, comments: &[usize])
    requires in_tree { container < length tree.old.nodes }
    requires container { IsTrue (is_container_at tree.old.nodes container) }
    requires comments { All (λ n. n < length tree.old.nodes) comments.now }
    ensures cleared { AreCleared tree.old.nodes tree.new.nodes container comments.now }
{
    for comment in comments {
        if is_node(tree.parent(*comment), container) {
            clear_comment(tree, container, *comment);
        }
    }
    close_up(tree, container);
}
