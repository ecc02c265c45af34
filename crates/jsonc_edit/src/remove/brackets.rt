//! The brackets of a container.

ghost use Rattle.std.specs.Prelude.{◌≡◌, ◌<◌, length};
ghost use Rattle.jsonc_tree.specs.Tree.{children_at};
ghost use Rattle.jsonc_layout.specs.nodes.Siblings.{IsThere};
ghost use Rattle.jsonc_edit.specs.remove.Removed.{has_brackets, has_two, is_token_at};

use jsonc_tree::{Kind, Tree};
use std::alloc::Allocator;

// Whether a node is there and is a token.
fn is_token<A: Allocator>(tree: &Tree<A>, found: Option<usize>) -> bool
    requires { IsThere tree.now.nodes found }
    ensures { result ≡ is_token_at tree.now.nodes found }
{
    match found {
        Some(node) => matches!(tree.kind(node), Kind::Token(_)),
        None => false,
    }
}

// Whether a node has two children.
fn has_two<A: Allocator>(tree: &Tree<A>, container: usize) -> bool
    requires { container < length tree.now.nodes }
    ensures { result ≡ has_two (children_at tree.now.nodes container) }
{
    match tree.first_child(container) {
        Some(first) => tree.next_sibling(first).is_some(),
        None => false,
    }
}

/// Whether a container's first and last child are tokens, and two.
pub fn has_brackets<A: Allocator>(tree: &Tree<A>, container: usize) -> bool
    requires { container < length tree.now.nodes }
    ensures { result ≡ has_brackets tree.now.nodes container }
{
    has_two(tree, container)
        && is_token(tree, tree.first_child(container))
        && is_token(tree, tree.last_child(container))
}
