//! The name and the value of a property, and the value of the root.

ghost use Rattle.std.specs.Prelude.{◌≡◌, ◌<◌, length};
ghost use Rattle.jsonc_layout.specs.nodes.Properties.{behind_colon, behind_name, element_from};
ghost use Rattle.jsonc_layout.specs.nodes.Properties.{lacks_name_at, name_at, value_at, value_by};
ghost use Rattle.jsonc_layout.specs.nodes.Siblings.{AreThere, IsThere};
ghost use Rattle.jsonc_tree.specs.Content.{property};

use crate::nodes::kinds::{is_colon, is_name};
use crate::nodes::siblings::children_from;
use crate::nodes::within::first_element;
use jsonc_tree::{Children, Kind, Tree};
use std::alloc::Allocator;

/// The first element of a container from a place on.
pub fn first_element_from<A: Allocator>(tree: &Tree<A>, node: usize, place: usize) -> Option<usize>
    requires { node < length tree.now.nodes }
    ensures element { result ≡ element_from tree.now.nodes node place }
    ensures in_tree { IsThere tree.now.nodes result }
{
    first_element(tree, children_from(tree, node, place))
}

/// The name of a property: the first string or word among its children.
pub fn name_of<A: Allocator>(tree: &Tree<A>, property: usize) -> Option<usize>
    requires { property < length tree.now.nodes }
    ensures name { result ≡ name_at tree.now.nodes property }
    ensures in_tree { IsThere tree.now.nodes result }
{
    children_from(tree, property, 0).find(|child| is_name(tree, *child))
}

// What stands after the name of a property, or nothing where it has none.
fn behind_name<A: Allocator>(tree: &Tree<A>, property: usize) -> Children<'_, A>
    requires { property < length tree.now.nodes }
    ensures children { result ≡ behind_name tree.now.nodes property }
    ensures in_tree { AreThere tree.now.nodes result }
{
    let mut children = children_from(tree, property, 0);
    let _name = children.find(|child| is_name(tree, *child));
    children
}

/// Whether a property has no name, or none with a colon after it.
pub fn lacks_name<A: Allocator>(tree: &Tree<A>, property: usize) -> bool
    requires { property < length tree.now.nodes }
    ensures lacks { result ≡ lacks_name_at tree.now.nodes property }
{
    !behind_name(tree, property).any(|child| is_colon(tree, child))
}

// What stands after the first colon after the name of a property, or nothing where there is none.
fn behind_colon<A: Allocator>(tree: &Tree<A>, property: usize) -> Children<'_, A>
    requires { property < length tree.now.nodes }
    ensures children { result ≡ behind_colon tree.now.nodes property }
    ensures in_tree { AreThere tree.now.nodes result }
{
    let mut children = behind_name(tree, property);
    let _colon = children.find(|child| is_colon(tree, *child));
    children
}

// The first element after a colon after the name of a property.
fn after_colon<A: Allocator>(tree: &Tree<A>, node: usize) -> Option<usize>
    requires { node < length tree.now.nodes }
    ensures element { result ≡ value_by property tree.now.nodes node }
    ensures in_tree { IsThere tree.now.nodes result }
{
    first_element(tree, behind_colon(tree, node))
}

/// The value of the root, which is its first element, or of a property: the first element after a
/// colon after its name. None where there is none, and of any other node.
pub fn value_of<A: Allocator>(tree: &Tree<A>, node: usize) -> Option<usize>
    requires { node < length tree.now.nodes }
    ensures value { result ≡ value_at tree.now.nodes node }
    ensures in_tree { IsThere tree.now.nodes result }
{
    match tree.kind(node) {
        Kind::Root(_) => first_element_from(tree, node, 0),
        Kind::Property(_) => after_colon(tree, node),
        _ => None,
    }
}
