//! What a walk over the levels of a document tells of its layout.
ghost use Rattle.std.specs.Prelude.{◌≡◌, ◌<◌, ◌∷◌, [], IfSome, length};
ghost use Rattle.std.specs.List.{find};
ghost use Rattle.jsonc_tree.specs.Tree.{children_at};
ghost use Rattle.jsonc_layout.specs.lines.Breadth.{first_sought, has_whitespace, is_sought, is_spaced};
ghost use Rattle.jsonc_layout.specs.lines.Breadth.{is_in_document, last_element, levels, newline_kind_at, newline_kind_of};
ghost use Rattle.jsonc_layout.specs.lines.Breadth.{uses_trailing_commas_at};

use crate::lines::kinds::is_array_or_object;
use crate::lines::siblings::trailing_comma;
use crate::lines::walk::{Reached, next_higher, next_within};
use crate::nodes::{children_from, first_element_back, is_newline, is_whitespace, root_node};
use jsonc_tree::{CstNewlineKind, Kind, Tree};
use std::alloc::Allocator;

// What a walk looks for: the end of a line, or an array or object with whitespace and an element.
#[derive(Clone, Copy)]
enum Sought {
    LineEnd,
    SpacedElements,
}

// Whether a node has whitespace among its children.
fn has_whitespace<A: Allocator>(tree: &Tree<A>, node: usize) -> bool
    requires { node < length tree.now.nodes }
    ensures { result ≡ has_whitespace tree.now.nodes node }
{
    children_from(tree, node, 0).any(|child| is_whitespace(tree, child))
}

/// The last element among the children of a node.
pub fn last_child_element<A: Allocator>(tree: &Tree<A>, node: usize) -> Option<usize>
    requires { node < length tree.now.nodes }
    ensures last { result ≡ last_element tree.now.nodes (children_at tree.now.nodes node) }
    ensures in_tree { IfSome result (λ m. m < length tree.now.nodes) }
{
    first_element_back(tree, tree.children_reversed(node))
}

// Whether a node is an array or object with whitespace and an element.
fn is_spaced<A: Allocator>(tree: &Tree<A>, node: usize) -> bool
    requires { node < length tree.now.nodes }
    ensures { result ≡ is_spaced tree.now.nodes node }
{
    if !is_array_or_object(tree.kind(node)) {
        return false;
    }
    if !has_whitespace(tree, node) {
        return false;
    }
    last_child_element(tree, node).is_some()
}

// Whether a node is what is looked for.
fn is_sought<A: Allocator>(tree: &Tree<A>, sought: Sought, node: usize) -> bool
    requires { node < length tree.now.nodes }
    ensures { result ≡ is_sought tree.now.nodes sought node }
{
    match sought {
        Sought::LineEnd => is_newline(tree, node),
        Sought::SpacedElements => is_spaced(tree, node),
    }
}

// The first node that is what is looked for, level after level from a node down, on so many levels.
//
// It walks in the order of the document, and looks at no node that is as deep as one that it has found.
fn first_above<A: Allocator>(
    tree: &Tree<A>,
    sought: Sought,
    top: usize,
    depth: usize,
) -> Option<usize>
    requires in_tree { top < length tree.now.nodes }
    requires some { 0 < depth }
    ensures first { result ≡ find (is_sought tree.now.nodes sought) (levels depth tree.now.nodes (top ∷ [])) }
    ensures in_tree { IfSome result (λ m. m < length tree.now.nodes) }
{
    let mut found = None;
    let mut bound = depth;
    let mut at = Some(Reached {
        node: top,
        depth: 0,
    });
    while let Some(here) = at {
        if is_sought(tree, sought, here.node) {
            found = Some(here.node);
            bound = here.depth;
            at = next_higher(tree, top, here);
        } else {
            at = next_within(tree, top, here, bound);
        }
    }
    found
}

// The first node that is what is looked for, level after level from a node down.
//
// It mostly stands on one of the first two or three levels, and then no deeper one is looked at.
fn first_sought<A: Allocator>(tree: &Tree<A>, sought: Sought, top: usize) -> Option<usize>
    requires { top < length tree.now.nodes }
    ensures first { result ≡ first_sought tree.now.nodes sought (top ∷ []) }
    ensures in_tree { IfSome result (λ m. m < length tree.now.nodes) }
{
    let depth = tree.len();
    for near in 2..depth.min(4) {
        let found = first_above(tree, sought, top, near);
        if found.is_some() {
            return found;
        }
    }
    first_above(tree, sought, top, depth)
}

/// How the lines of a document end: as the first of them, level after level, or by LF.
pub fn newline_kind<A: Allocator>(tree: &Tree<A>) -> CstNewlineKind
    ensures { result ≡ newline_kind_of tree.now.nodes }
{
    let Some(node) = first_sought(tree, Sought::LineEnd, 0) else {
        return CstNewlineKind::LineFeed;
    };
    match tree.kind(node) {
        Kind::Newline(kind) => *kind,
        _ => CstNewlineKind::LineFeed,
    }
}

// Whether a node is the root or stands below it.
fn is_in_document<A: Allocator>(tree: &Tree<A>, node: usize) -> bool
    requires { node < length tree.now.nodes }
    ensures { result ≡ is_in_document tree.now.nodes node }
{
    if node == 0 {
        return true;
    }
    root_node(tree, node).is_some()
}

/// How lines end that are put in beside a node: as the document's do, and by LF in what stands apart
/// from it.
pub fn newline_kind_at<A: Allocator>(tree: &Tree<A>, node: usize) -> CstNewlineKind
    requires { node < length tree.now.nodes }
    ensures { result ≡ newline_kind_at tree.now.nodes node }
{
    if !is_in_document(tree, node) {
        return CstNewlineKind::LineFeed;
    }
    newline_kind(tree)
}

/// Whether commas stand after last elements: in the first array or object, level after level from a
/// node down, that has whitespace between its brackets and an element.
///
/// False where there is no such array or object.
pub fn uses_trailing_commas<A: Allocator>(tree: &Tree<A>, node: usize) -> bool
    requires { node < length tree.now.nodes }
    ensures { result ≡ uses_trailing_commas_at tree.now.nodes node }
{
    let Some(container) = first_sought(tree, Sought::SpacedElements, node) else {
        return false;
    };
    let Some(last) = last_child_element(tree, container) else {
        return false;
    };
    trailing_comma(tree, last).is_some()
}
