//! Nodes by their paths.

ghost use Rattle.std.specs.Prelude.{◌≡◌, ◌<◌, IfSome, Some, length};
ghost use Rattle.jsonc_layout.specs.nodes.Siblings.{IsThere};
ghost use Rattle.jsonc_edit.specs.Paths.{FindsExactly, IsAt, IsHeldBy, StepsTo};

use jsonc_layout::nodes::{element_at, value_of};
use jsonc_tree::{Kind, Tree};
use std::alloc::Allocator;

// The node that both are, if they are the same.
fn if_same(left: Option<usize>, right: Option<usize>) -> Option<usize>
    ensures same { FindsExactly result (λ n. (left ≡ Some n) × (right ≡ Some n)) }
    ensures left { IfSome result (λ n. left ≡ Some n) }
{
    match (left, right) {
        (Some(n), Some(m)) if n == m => Some(n),
        _ => None,
    }
}

// The value of a property, where it is the element beside the name.
fn held_by<A: Allocator>(tree: &Tree<A>, property: usize) -> Option<usize>
    requires { property < length tree.now.nodes }
    ensures held { FindsExactly result (IsHeldBy tree.now.nodes property) }
    ensures in_tree { IsThere tree.now.nodes result }
{
    match tree.kind(property) {
        Kind::Property(_) => if_same(element_at(tree, property, 1), value_of(tree, property)),
        _ => None,
    }
}

// What one step of a path leads to.
fn step<A: Allocator>(tree: &Tree<A>, value: usize, place: usize) -> Option<usize>
    requires { value < length tree.now.nodes }
    ensures stepped { FindsExactly result (StepsTo tree.now.nodes value place) }
    ensures in_tree { IsThere tree.now.nodes result }
{
    match tree.kind(value) {
        Kind::Array(_) => element_at(tree, value, place),
        Kind::Object(_) => held_by(tree, element_at(tree, value, place)?),
        _ => None,
    }
}

/// The value at a path from the document's value, where each step is a place among the elements of
/// an array or among the properties of an object. None where the path leads to nothing.
pub fn find<A: Allocator>(tree: &Tree<A>, path: &[usize]) -> Option<usize>
    ensures found { FindsExactly result (IsAt tree.now.nodes path.now) }
    ensures in_tree { IsThere tree.now.nodes result }
{
    let mut value = element_at(tree, 0, 0)?;
    for place in path {
        value = step(tree, value, *place)?;
    }
    Some(value)
}
