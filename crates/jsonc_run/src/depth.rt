//! How deep what an edit writes is nested in a document.

ghost use Rattle.std.specs.Prelude.{◌≡◌, ◌<◌, ◌+◌, ◌↔◌, ℕ, IfNone, IfSome, Some, true, length};
ghost use Rattle.jsonc_text.specs.Plain.{around};
ghost use Rattle.jsonc_tree.specs.Stored.{content_of};
ghost use Rattle.jsonc_layout.specs.input.Views.{plain};
ghost use Rattle.jsonc_layout.specs.nodes.Siblings.{IsThere};
ghost use Rattle.jsonc_run.specs.Depth.{is_nesting, nesting_at};
ghost use Rattle.jsonc_run.specs.Edits.{operation_of, unsorted};
ghost use Rattle.jsonc_run.specs.Refusals.{IsTooDeep};

use crate::edit::Edit;
use crate::places::{Needed, find_needed, find_property};
use jsonc_edit::find;
use jsonc_layout::input::CstInputValue;
use jsonc_tree::{Kind, Tree};
use jsonc_walk::context::MAXIMUM_NESTING;
use std::alloc::Allocator;

// Whether it is the kind of an array, an object or a property.
fn is_nesting<A: Allocator>(kind: &Kind<A>) -> bool
    ensures { result ≡ is_nesting (content_of kind.now) }
{
    matches!(kind, Kind::Array(_) | Kind::Object(_) | Kind::Property(_))
}

// How many more containers and properties may be around a value there, where a node has no more than may be
// around one above it.
fn room_at<A: Allocator>(tree: &Tree<A>, node: usize) -> Option<usize>
    requires { node < length tree.now.nodes }
    ensures room { IfSome result (λ room. nesting_at tree.now.nodes node + room ≡ 512) }
    ensures none { IfNone result (512 < nesting_at tree.now.nodes node) }
{
    let mut room = MAXIMUM_NESTING;
    let mut next = tree.parent(node);
    while let Some(above) = next {
        next = tree.parent(above);
        if !is_nesting(tree.kind(above)) {
            continue;
        }
        if room == 0 {
            return None;
        }
        room -= 1;
    }
    Some(room)
}

/// Whether a value would be nested too deep where it is put so many levels below what is at a node's place.
pub fn is_too_deep_below<A: Allocator>(
    tree: &Tree<A>,
    node: usize,
    levels: usize,
    value: &CstInputValue<A>,
) -> bool
    requires { node < length tree.now.nodes }
    ensures { (result ≡ true) ↔ (512 < nesting_at tree.now.nodes node + (levels + around (plain value.now))) }
{
    let Some(room) = room_at(tree, node) else {
        return true;
    };
    if room < levels {
        return true;
    }
    !value.is_within(room - levels)
}

// Whether a value is nested too deep where it is put so many levels below the node that was found.
fn is_deep_below<A: Allocator>(
    tree: &Tree<A>,
    found: Option<usize>,
    levels: usize,
    value: &CstInputValue<A>,
) -> bool
    requires { IsThere tree.now.nodes found }
    ensures { (result ≡ true)
        ↔ ((n : ℕ) × (found ≡ Some n) × (512 < nesting_at tree.now.nodes n + (levels + around (plain value.now)))) }
{
    let Some(node) = found else {
        return false;
    };
    is_too_deep_below(tree, node, levels, value)
}

/// Whether a value in what an edit writes would have more than 512 containers and properties around it.
pub(crate) fn is_too_deep<A: Allocator>(tree: &Tree<A>, edit: &Edit<A>) -> bool
    ensures { (result ≡ true) ↔ IsTooDeep tree.now.nodes (operation_of unsorted edit.now) }
{
    let empty = CstInputValue::Null;
    match edit {
        Edit::Replace(path, value) => is_deep_below(tree, find(tree, path), 0, value),
        Edit::SetRoot(value) => !value.is_within(MAXIMUM_NESTING),
        Edit::ReplaceProperty(path, _, value) => {
            is_deep_below(tree, find_property(tree, path), 1, value)
        }
        Edit::SetValue(path, value) => is_deep_below(tree, find_property(tree, path), 1, value),
        Edit::EnsureValue(path, _) => is_deep_below(tree, find_property(tree, path), 1, &empty),
        Edit::InsertElement(path, _, value) => {
            is_deep_below(tree, find_needed(tree, path, Needed::Array), 1, value)
        }
        Edit::AppendElement(path, value) => {
            is_deep_below(tree, find_needed(tree, path, Needed::Array), 1, value)
        }
        Edit::InsertProperty(path, _, _, value) => {
            is_deep_below(tree, find_needed(tree, path, Needed::Object), 2, value)
        }
        Edit::AppendProperty(path, _, value) => {
            is_deep_below(tree, find_needed(tree, path, Needed::Object), 2, value)
        }
        Edit::EnsureProperty(path, _, _, _) => {
            is_deep_below(tree, find_needed(tree, path, Needed::Object), 2, &empty)
        }
        _ => false,
    }
}
