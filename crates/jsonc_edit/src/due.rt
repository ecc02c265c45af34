//! Where a space is due.

ghost use Rattle.std.specs.Prelude.{◌≡◌, ◌<◌, ◌^◌, Some, chars, length, reverse, true};
ghost use Rattle.jsonc_text.specs.Text.{next, starts};
ghost use Rattle.jsonc_tree.specs.Siblings.{siblings_after};
ghost use Rattle.jsonc_tree.specs.Stored.{content_of};
ghost use Rattle.jsonc_tree.specs.Tree.{children_at};
ghost use Rattle.jsonc_layout.specs.nodes.Siblings.{AreThere, IsThere};
ghost use Rattle.jsonc_sound.specs.Spaces.{is_bare};
ghost use Rattle.jsonc_edit.specs.Due.{prints, prints_at, nearest, beginning_of, end_of, is_bare_at};
ghost use Rattle.jsonc_edit.specs.Due.{begins_bare, ends_bare, seen_before, behind_holder, seen_behind};
ghost use Rattle.jsonc_edit.specs.Due.{space_needed_between, space_needed_before, space_needed_after, space_needed_last, space_needed_past, is_other};
ghost use Rattle.jsonc_edit.specs.Due.{prints_within, seen_last};

use jsonc_layout::nodes::{PreviousSiblings, next_siblings, previous_siblings};
use jsonc_tree::{Kind, Tree};
use std::alloc::Allocator;

// Whether there is a character in a text.
fn has_character(text: &str) -> bool
    ensures { result ≡ starts (λ c. true) (next (chars text.now)) }
{
    !text.is_empty()
}

// Whether a node prints something: a leaf without text prints nothing.
fn prints_kind<A: Allocator>(kind: &Kind<A>) -> bool
    ensures { result ≡ prints (content_of kind.now) }
{
    match kind.text() {
        Some(text) => has_character(text),
        None => true,
    }
}

fn prints<A: Allocator>(tree: &Tree<A>, node: usize) -> bool
    requires { node < length tree.now.nodes }
    ensures { result ≡ prints_at tree.now.nodes node }
{
    prints_kind(tree.kind(node))
}

/// Whether a leaf is a number, a name without quotes, `true`, `false` or `null`.
pub fn is_bare<A: Allocator>(kind: &Kind<A>) -> bool
    ensures bare { result ≡ is_bare (content_of kind.now) }
{
    matches!(
        kind,
        Kind::Number(_)
            | Kind::NumberPart(_)
            | Kind::Word(_)
            | Kind::WordPart(_)
            | Kind::Boolean(_)
            | Kind::Null
    )
}

// What a node begins with: a property with the first of its children, any other with itself.
fn beginning_of<A: Allocator>(tree: &Tree<A>, node: usize) -> Option<usize>
    requires { node < length tree.now.nodes }
    ensures beginning { result ≡ beginning_of tree.now.nodes node }
    ensures in_tree { IsThere tree.now.nodes result }
{
    match tree.kind(node) {
        Kind::Property(_) => tree.first_child(node),
        _ => Some(node),
    }
}

// What it ends with.
fn end_of<A: Allocator>(tree: &Tree<A>, node: usize) -> Option<usize>
    requires { node < length tree.now.nodes }
    ensures end { result ≡ end_of tree.now.nodes node }
    ensures in_tree { IsThere tree.now.nodes result }
{
    match tree.kind(node) {
        Kind::Property(_) => tree.last_child(node),
        _ => Some(node),
    }
}

// Whether such a literal stands there.
fn is_bare_at<A: Allocator>(tree: &Tree<A>, found: Option<usize>) -> bool
    requires { IsThere tree.now.nodes found }
    ensures { result ≡ is_bare_at tree.now.nodes found }
{
    match found {
        Some(leaf) => is_bare(tree.kind(leaf)),
        None => false,
    }
}

// Whether one stands at the beginning of a node, if there is one.
fn begins_bare<A: Allocator>(tree: &Tree<A>, found: Option<usize>) -> bool
    requires { IsThere tree.now.nodes found }
    ensures { result ≡ begins_bare tree.now.nodes found }
{
    match found {
        Some(node) => is_bare_at(tree, beginning_of(tree, node)),
        None => false,
    }
}

// Whether one stands at its end.
fn ends_bare<A: Allocator>(tree: &Tree<A>, found: Option<usize>) -> bool
    requires { IsThere tree.now.nodes found }
    ensures { result ≡ ends_bare tree.now.nodes found }
{
    match found {
        Some(node) => is_bare_at(tree, end_of(tree, node)),
        None => false,
    }
}

/// The nearest sibling before a node that prints something.
pub fn seen_before<A: Allocator>(tree: &Tree<A>, node: usize) -> Option<usize>
    requires { node < length tree.now.nodes }
    ensures seen { result ≡ seen_before tree.now.nodes node }
    ensures in_tree { IsThere tree.now.nodes result }
{
    previous_siblings(tree, node).find(|sibling| prints(tree, *sibling))
}

// The nearest sibling after a node that prints something.
fn nearest_behind<A: Allocator>(tree: &Tree<A>, node: usize) -> Option<usize>
    requires { node < length tree.now.nodes }
    ensures seen { result ≡ nearest tree.now.nodes (siblings_after tree.now.nodes node) }
    ensures in_tree { IsThere tree.now.nodes result }
{
    next_siblings(tree, node).find(|sibling| prints(tree, *sibling))
}

// The nearest sibling after the property that a node stands in, if it is one.
fn behind_property<A: Allocator>(tree: &Tree<A>, node: usize) -> Option<usize>
    requires { node < length tree.now.nodes }
    ensures seen { result ≡ behind_holder tree.now.nodes node }
    ensures in_tree { IsThere tree.now.nodes result }
{
    let container = tree.parent(node)?;
    match tree.kind(container) {
        Kind::Property(_) => nearest_behind(tree, container),
        _ => None,
    }
}

// The children of a container, last to first.
fn children_backwards<A: Allocator>(tree: &Tree<A>, container: usize) -> PreviousSiblings<'_, A>
    requires { container < length tree.now.nodes }
    ensures children { result ≡ reverse (children_at tree.now.nodes container) }
    ensures in_tree { AreThere tree.now.nodes result }
    ensures countable { length result < 2 ^ 64 }
{
    tree.children_reversed(container)
}

// The last of them that prints something.
pub(crate) fn seen_last<A: Allocator>(tree: &Tree<A>, container: usize) -> Option<usize>
    requires { container < length tree.now.nodes }
    ensures seen { result ≡ seen_last tree.now.nodes container }
    ensures in_tree { IsThere tree.now.nodes result }
{
    children_backwards(tree, container).find(|child| prints(tree, *child))
}

// What is seen after a node: in its row, or where it is the last of a property, after that.
fn seen_behind<A: Allocator>(tree: &Tree<A>, node: usize) -> Option<usize>
    requires { node < length tree.now.nodes }
    ensures seen { result ≡ seen_behind tree.now.nodes node }
    ensures in_tree { IsThere tree.now.nodes result }
{
    match nearest_behind(tree, node) {
        Some(sibling) => Some(sibling),
        None => behind_property(tree, node),
    }
}

// Whether a node is seen that is not this one.
fn is_other(seen: Option<usize>, other: Option<usize>) -> bool
    ensures { result ≡ is_other seen other }
{
    match (seen, other) {
        (None, _) => false,
        (Some(_), None) => true,
        (Some(seen), Some(other)) => seen != other,
    }
}

// Whether the siblings from one to another print something.
fn prints_within<A: Allocator>(tree: &Tree<A>, from: usize, to: usize) -> bool
    requires from { from < length tree.now.nodes }
    requires to { to < length tree.now.nodes }
    ensures { result ≡ prints_within tree.now.nodes from to }
{
    prints(tree, to) || is_other(seen_before(tree, to), seen_before(tree, from))
}

/// The node before which a space is due where the siblings from one to another leave, if one is.
///
/// None is where these print nothing: what stands around them has stood together before.
pub fn space_needed_between<A: Allocator>(tree: &Tree<A>, from: usize, to: usize) -> Option<usize>
    requires from { from < length tree.now.nodes }
    requires to { to < length tree.now.nodes }
    ensures due { result ≡ space_needed_between tree.now.nodes from to }
    ensures in_tree { IsThere tree.now.nodes result }
{
    if !prints_within(tree, from, to) {
        return None;
    }
    let behind = seen_behind(tree, to);
    if ends_bare(tree, seen_before(tree, from)) && begins_bare(tree, behind) {
        return behind;
    }
    None
}

/// The node itself, if a space is due before a literal without quotes that takes its place.
pub fn space_needed_before<A: Allocator>(tree: &Tree<A>, node: usize) -> Option<usize>
    requires { node < length tree.now.nodes }
    ensures due { result ≡ space_needed_before tree.now.nodes node }
    ensures in_tree { IsThere tree.now.nodes result }
{
    if ends_bare(tree, seen_before(tree, node)) {
        return Some(node);
    }
    None
}

/// The node before which a space is due after a literal without quotes that takes this node's place.
pub fn space_needed_after<A: Allocator>(tree: &Tree<A>, node: usize) -> Option<usize>
    requires { node < length tree.now.nodes }
    ensures due { result ≡ space_needed_after tree.now.nodes node }
    ensures in_tree { IsThere tree.now.nodes result }
{
    let behind = seen_behind(tree, node);
    if begins_bare(tree, behind) {
        return behind;
    }
    None
}

/// The node that is inserted as the last child of a container, if a space is due before it where it is a
/// literal without quotes.
pub fn space_needed_last<A: Allocator>(
    tree: &Tree<A>,
    container: usize,
    node: usize,
) -> Option<usize>
    requires { container < length tree.now.nodes }
    ensures due { result ≡ space_needed_last tree.now.nodes container node }
{
    if ends_bare(tree, seen_last(tree, container)) {
        return Some(node);
    }
    None
}

/// The node before which a space is due after a literal without quotes that is the new last child of
/// a property.
pub fn space_needed_past<A: Allocator>(tree: &Tree<A>, property: usize) -> Option<usize>
    requires { property < length tree.now.nodes }
    ensures due { result ≡ space_needed_past tree.now.nodes property }
{
    let behind = nearest_behind(tree, property);
    if begins_bare(tree, behind) {
        return behind;
    }
    None
}
