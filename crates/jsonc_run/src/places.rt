//! What stands at a path, or under a number.

ghost use Rattle.std.specs.Prelude.{◌≡◌, ◌<◌, ◌↔◌, IfSome, IsTrue, Some, length, true};
ghost use Rattle.jsonc_tree.specs.Stored.{content_of};
ghost use Rattle.jsonc_tree.specs.Tree.{content_at, IsOver};
ghost use Rattle.jsonc_layout.specs.nodes.Kinds.{is_comment_at};
ghost use Rattle.jsonc_layout.specs.nodes.Siblings.{IsThere};
ghost use Rattle.jsonc_edit.specs.Comments.{comment_at};
ghost use Rattle.jsonc_edit.specs.Paths.{FindsExactly, IsAt};
ghost use Rattle.jsonc_insert.specs.named.Places.{IsPropertyAt, IsPropertyOf};
ghost use Rattle.jsonc_run.specs.Places.{IsContainerAt, IsEntryAt, IsEntryOf, IsNeeded};

use jsonc_edit::find;
use jsonc_layout::lines::is_array_or_object;
use jsonc_layout::nodes::{element_at, is_comment};
use jsonc_tree::{Kind, Tree};
use std::alloc::Allocator;

/// The kind of node that an edit needs at its path.
#[derive(Clone, Copy)]
pub enum Needed {
    Array,
    Object,
    Container,
    Property,
    Boolean,
}

// Whether a node is of the kind that is needed.
fn is_needed<A: Allocator>(kind: &Kind<A>, needed: Needed) -> bool
    ensures { (result ≡ true) ↔ IsNeeded needed (content_of kind.now) }
{
    match needed {
        Needed::Array => matches!(kind, Kind::Array(_)),
        Needed::Object => matches!(kind, Kind::Object(_)),
        Needed::Container => is_array_or_object(kind),
        Needed::Property => matches!(kind, Kind::Property(_)),
        Needed::Boolean => matches!(kind, Kind::Boolean(_)),
    }
}

// The node, if there is one and it is of that kind.
fn if_needed<A: Allocator>(tree: &Tree<A>, found: Option<usize>, needed: Needed) -> Option<usize>
    requires { IsThere tree.now.nodes found }
    ensures found { FindsExactly result (λ n. (found ≡ Some n) × IsNeeded needed (content_at tree.now.nodes n)) }
    ensures in_tree { IsThere tree.now.nodes result }
{
    let node = found?;
    if is_needed(tree.kind(node), needed) {
        return Some(node);
    }
    None
}

/// The node that a path leads to, if it is of the kind that is needed.
pub(crate) fn find_needed<A: Allocator>(
    tree: &Tree<A>,
    path: &[usize],
    needed: Needed,
) -> Option<usize>
    ensures found { FindsExactly result
        (λ n. IsAt tree.now.nodes path.now n × IsNeeded needed (content_at tree.now.nodes n)) }
    ensures in_tree { IsThere tree.now.nodes result }
{
    if_needed(tree, find(tree, path), needed)
}

/// The array or object that a path leads to.
pub fn find_container<A: Allocator>(tree: &Tree<A>, path: &[usize]) -> Option<usize>
    ensures found { FindsExactly result (IsContainerAt tree.now.nodes path.now) }
    ensures in_tree { IsThere tree.now.nodes result }
{
    find_needed(tree, path, Needed::Container)
}

// The property at a place of an object.
fn property_of<A: Allocator>(tree: &Tree<A>, container: usize, place: usize) -> Option<usize>
    requires { container < length tree.now.nodes }
    ensures found { FindsExactly result (IsPropertyOf tree.now.nodes container place) }
    ensures in_tree { IsThere tree.now.nodes result }
{
    match tree.kind(container) {
        Kind::Object(_) => {
            if_needed(tree, element_at(tree, container, place), Needed::Property)
        },
        _ => None,
    }
}

// The entry at a place of an array or object.
fn entry_of<A: Allocator>(tree: &Tree<A>, container: usize, place: usize) -> Option<usize>
    requires { container < length tree.now.nodes }
    ensures found { FindsExactly result (IsEntryOf tree.now.nodes container place) }
    ensures in_tree { IsThere tree.now.nodes result }
{
    match tree.kind(container) {
        Kind::Array(_) => element_at(tree, container, place),
        _ => property_of(tree, container, place),
    }
}

/// The entry that a path leads to: the document's value, where the path is empty, or the element of an array
/// or the property of an object that its last step leads to.
pub fn find_entry<A: Allocator>(tree: &Tree<A>, path: &[usize]) -> Option<usize>
    ensures found { FindsExactly result (IsEntryAt tree.now.nodes path.now) }
    ensures in_tree { IsThere tree.now.nodes result }
{
    let Some((last, front)) = path.split_last() else {
        return find(tree, path);
    };
    let container = find(tree, front)?;
    entry_of(tree, container, *last)
}

/// The property of an object that the last step of a path leads to.
pub fn find_property<A: Allocator>(tree: &Tree<A>, path: &[usize]) -> Option<usize>
    ensures found { FindsExactly result (IsPropertyAt tree.now.nodes path.now) }
    ensures in_tree { IsThere tree.now.nodes result }
{
    let Some((last, front)) = path.split_last() else {
        return None;
    };
    let container = find(tree, front)?;
    property_of(tree, container, *last)
}

/// The comment of this number, counted from 0 in the order of the document.
pub fn find_comment<A: Allocator>(tree: &Tree<A>, number: usize) -> Option<usize>
    ensures found { result ≡ comment_at tree.now.nodes number }
    ensures comment { IfSome result (λ n. IsTrue (is_comment_at tree.now.nodes n)) }
    ensures in_tree { IfSome result (λ n. n < length tree.now.nodes) }
    ensures below { IfSome result (λ n. IsOver tree.now.nodes 0 n) }
{
    let mut left = number;
    let mut next = Some(0);
    while let Some(node) = next {
        if is_comment(tree, node) {
            if left == 0 {
                return Some(node);
            }
            left -= 1;
        }
        next = tree.next_in_order(0, node);
    }
    None
}
