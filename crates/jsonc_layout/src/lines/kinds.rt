//! Kinds of nodes, as a layout is told from them.
ghost use Rattle.std.specs.Prelude.{◌≡◌, option_map};
ghost use Rattle.jsonc_tree.specs.Stored.{content_of};
ghost use Rattle.jsonc_layout.specs.lines.Kinds.{blank_at, blank_of, is_array_or_object};
ghost use Rattle.jsonc_layout.specs.nodes.Kinds.{is_comma};

use jsonc_tree::{Kind, Tree};
use std::alloc::Allocator;

// The text of a node that is whitespace.
fn blank_of<A: Allocator>(kind: &Kind<A>) -> Option<&str>
    ensures { option_map (λ s. s.now) result ≡ blank_of (content_of kind.now) }
{
    match kind {
        Kind::Whitespace(_) | Kind::WhitespacePart(_) => kind.text(),
        _ => None,
    }
}

// The text of a node that is whitespace. The number may be any: one that names no node has none.
pub(crate) fn blank_at<A: Allocator>(tree: &Tree<A>, node: usize) -> Option<&str>
    ensures { option_map (λ s. s.now) result ≡ blank_at tree.now.nodes node }
{
    if node >= tree.len() {
        return None;
    }
    blank_of(tree.kind(node))
}

/// Whether a node is an array or an object.
pub fn is_array_or_object<A: Allocator>(kind: &Kind<A>) -> bool
    ensures { result ≡ is_array_or_object (content_of kind.now) }
{
    match kind {
        Kind::Array(_) | Kind::Object(_) => true,
        _ => false,
    }
}
