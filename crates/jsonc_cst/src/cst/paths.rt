//! The paths that lead to nodes, found by going up from them.

ghost use Rattle.std.specs.Prelude.{◌≡◌, ◌↔◌, ◌<◌, ℕ, List, length, map, IfErr, IfNone, IfOk, IfSome, IsTrue, Some};
ghost use Rattle.jsonc_tree.specs.Content as content;
ghost use Rattle.jsonc_tree.specs.Tree.{content_at};
ghost use Rattle.jsonc_layout.specs.input.Views.{chars_of};
ghost use Rattle.jsonc_edit.specs.Paths.{IsAt, IsElementOf, IsHeldBy, StepsTo};
ghost use Rattle.jsonc_cst.specs.Document.{nodes_of, HasNode};
ghost use Rattle.jsonc_cst.specs.Nodes.{number_of};
ghost use Rattle.jsonc_cst.specs.Paths.{IsAtNames, IsEntryOf, StepsByName, StepsThrough};

use super::node::CstNode;
use super::{CstRootNode, EditError};
use jsonc_layout::nodes::{decoded_name, element_at, element_index, is_element, value_of};
use jsonc_tree::{Kind, Tree};
use std::alloc::{AllocError, Allocator};

// The container of an element, and the element's place among the elements there, counted from 0.
fn element_place<A: Allocator>(tree: &Tree<A>, node: usize) -> Option<(usize, usize)>
    requires { node < length tree.now.nodes }
    ensures found { IfSome result (λ s. IsElementOf tree.now.nodes s.0 s.1 node) }
    ensures none { IfNone result ((p i : ℕ) → IsElementOf tree.now.nodes p i node → ⊥) }
    ensures in_tree { IfSome result (λ s. s.0 < length tree.now.nodes) }
{
    if !is_element(tree, node) {
        return None;
    }
    let Some(container) = tree.parent(node) else {
        return None;
    };
    let Some(place) = element_index(tree, node) else {
        return None;
    };
    Some((container, place))
}

// The object that a property is in, and the property's place there.
fn property_place<A: Allocator>(tree: &Tree<A>, property: usize) -> Option<(usize, usize)>
    requires { property < length tree.now.nodes }
    ensures found { IfSome result (λ s. IsEntryOf tree.now.nodes s.0 s.1 property) }
    ensures none { IfNone result ((p i : ℕ) → IsEntryOf tree.now.nodes p i property → ⊥) }
    ensures in_tree { IfSome result (λ s. s.0 < length tree.now.nodes) }
{
    let Some((container, place)) = element_place(tree, property) else {
        return None;
    };
    match tree.kind(container) {
        Kind::Object(_) => Some((container, place)),
        _ => None,
    }
}

// Whether a node is the value of a property, beside its name.
fn is_held_by<A: Allocator>(tree: &Tree<A>, property: usize, value: usize) -> bool
    requires in_tree { property < length tree.now.nodes }
    requires property { content_at tree.now.nodes property ≡ content.property }
    ensures { IsTrue result ↔ IsHeldBy tree.now.nodes property value }
{
    element_at(tree, property, 1) == Some(value) && value_of(tree, property) == Some(value)
}

// The object from which a step leads through a property to this value, and the property's place there.
fn step_through<A: Allocator>(
    tree: &Tree<A>,
    property: usize,
    value: usize,
) -> Option<(usize, usize)>
    requires in_tree { property < length tree.now.nodes }
    requires property { content_at tree.now.nodes property ≡ content.property }
    ensures held { IfSome result (λ _. IsHeldBy tree.now.nodes property value) }
    ensures found { IfSome result (λ s. IsEntryOf tree.now.nodes s.0 s.1 property) }
    ensures none { IfNone result
        ((p i : ℕ) → IsEntryOf tree.now.nodes p i property → IsHeldBy tree.now.nodes property value → ⊥) }
    ensures in_tree { IfSome result (λ s. s.0 < length tree.now.nodes) }
{
    if is_held_by(tree, property, value) {
        property_place(tree, property)
    } else {
        None
    }
}

// The array or object from which a step of a path leads to a value, and the place that the step names.
fn step_to<A: Allocator>(tree: &Tree<A>, value: usize) -> Option<(usize, usize)>
    requires { value < length tree.now.nodes }
    ensures found { IfSome result (λ s. StepsTo tree.now.nodes s.0 s.1 value) }
    ensures none { IfNone result ((p i : ℕ) → StepsTo tree.now.nodes p i value → ⊥) }
    ensures in_tree { IfSome result (λ s. s.0 < length tree.now.nodes) }
{
    let Some((container, place)) = element_place(tree, value) else {
        return None;
    };
    match tree.kind(container) {
        Kind::Array(_) => Some((container, place)),
        Kind::Property(_) => step_through(tree, container, value),
        _ => None,
    }
}

// The path that leads from the document's value to a node, if one does.
fn path_of<A: Allocator, B: Allocator>(
    alloc: B,
    tree: &Tree<A>,
    node: usize,
) -> Result<Option<Vec<usize, B>>, AllocError>
    requires { node < length tree.now.nodes }
    ensures found { IfOk result (λ found. IfSome found (λ path. IsAt tree.now.nodes path.items node)) }
    ensures none { IfOk result (λ found. IfNone found ((path : List ℕ) → IsAt tree.now.nodes path node → ⊥)) }
{
    let first = element_at(tree, 0, 0);
    let mut path = Vec::new(alloc);
    let mut value = node;
    while first != Some(value) {
        let Some((above, place)) = step_to(tree, value) else {
            return Ok(None);
        };
        path.push(place)?;
        value = above;
    }
    path.reverse();
    Ok(Some(path))
}

// The object from which a step leads to a value, and the property in it that the step goes through.
fn step_by_property<A: Allocator>(tree: &Tree<A>, value: usize) -> Option<(usize, usize)>
    requires { value < length tree.now.nodes }
    ensures found { IfSome result (λ s. StepsThrough tree.now.nodes s.0 s.1 value) }
    ensures none { IfNone result ((p r : ℕ) → StepsThrough tree.now.nodes p r value → ⊥) }
    ensures in_tree { IfSome result (λ s. s.0 < length tree.now.nodes) }
    ensures property { IfSome result (λ s. s.1 < length tree.now.nodes) }
{
    let Some((container, _)) = element_place(tree, value) else {
        return None;
    };
    match tree.kind(container) {
        Kind::Property(_) => match step_through(tree, container, value) {
            Some((object, _)) => Some((object, container)),
            None => None,
        },
        _ => None,
    }
}

// The object from which a step leads to a value, and the name of the property that the step goes through.
fn step_by_name<A: Allocator, B: Allocator + Copy>(
    alloc: B,
    tree: &Tree<A>,
    value: usize,
) -> Result<Option<(usize, String<B>)>, AllocError>
    requires { value < length tree.now.nodes }
    ensures found { IfOk result
        (λ found. IfSome found (λ s. StepsByName tree.now.nodes s.0 (chars_of s.1) value)) }
    ensures none { IfOk result (λ found. IfNone found
        ((p : ℕ) (name : List ℕ) → StepsByName tree.now.nodes p name value → ⊥)) }
    ensures in_tree { IfOk result (λ found. IfSome found (λ s. s.0 < length tree.now.nodes)) }
{
    let Some((object, property)) = step_by_property(tree, value) else {
        return Ok(None);
    };
    match decoded_name(alloc, tree, property)? {
        Some(name) => Ok(Some((object, name))),
        None => Ok(None),
    }
}

// The names that lead from the document's value to a node, if names lead there.
fn names_to<A: Allocator, B: Allocator + Copy>(
    alloc: B,
    tree: &Tree<A>,
    node: usize,
) -> Result<Option<Vec<String<B>, B>>, AllocError>
    requires { node < length tree.now.nodes }
    ensures found { IfOk result
        (λ found. IfSome found (λ names. IsAtNames tree.now.nodes (map chars_of names.items) node)) }
    ensures none { IfOk result
        (λ found. IfNone found ((names : List (List ℕ)) → IsAtNames tree.now.nodes names node → ⊥)) }
{
    let first = element_at(tree, 0, 0);
    let mut names = Vec::new(alloc);
    let mut value = node;
    while first != Some(value) {
        let Some((above, name)) = step_by_name(alloc, tree, value)? else {
            return Ok(None);
        };
        names.push(name)?;
        value = above;
    }
    names.reverse();
    Ok(Some(names))
}

impl<A: Allocator + Copy> CstRootNode<A> {
    /// The path that leads to a node from the document's value, as in an `Edit`.
    ///
    /// Each step is a place, counted from 0, among the elements of an array or the properties of an
    /// object. In `{"a": [1, 2]}` the 2 has the path `[0, 1]`, and the object the empty path. None where
    /// no path leads to the node: the root, a property, a name, a comment, blanks, a bracket or
    /// another token, and what was removed or replaced.
    pub fn path(&self, node: CstNode) -> Result<Option<Vec<usize, A>>, EditError>
        requires { HasNode self.now node }
        ensures found { IfOk result
            (λ found. IfSome found (λ path. IsAt (nodes_of self.now) path.items (number_of node))) }
        ensures none { IfOk result (λ found. IfNone found
            ((path : List ℕ) → IsAt (nodes_of self.now) path (number_of node) → ⊥)) }
        ensures memory { IfErr result (λ e. e ≡ EditError.OutOfMemory) }
    {
        let Ok(path) = path_of(self.alloc, &self.tree, node.number()) else {
            return Err(EditError::OutOfMemory);
        };
        Ok(path)
    }

    /// The names of the properties that lead to a node, outermost first.
    ///
    /// They begin at the document's value, and are decoded, as `jsonc_parser::settings` takes them. In
    /// `{"a": {"b": 1}}` the names `a` and `b` lead to the 1, and no names to the outer object: its path
    /// is empty. None where a step goes through an array, where a property on the way has no name that
    /// decodes, and where [`CstRootNode::path`] answers none.
    ///
    /// Where an object has a name twice, `jsonc_parser::settings` takes its first property of that name,
    /// and may find another node.
    pub fn path_of_names(&self, node: CstNode) -> Result<Option<Vec<String<A>, A>>, EditError>
        requires { HasNode self.now node }
        ensures found { IfOk result (λ found. IfSome found
            (λ names. IsAtNames (nodes_of self.now) (map chars_of names.items) (number_of node))) }
        ensures none { IfOk result (λ found. IfNone found
            ((names : List (List ℕ)) → IsAtNames (nodes_of self.now) names (number_of node) → ⊥)) }
        ensures memory { IfErr result (λ e. e ≡ EditError.OutOfMemory) }
    {
        let Ok(names) = names_to(self.alloc, &self.tree, node.number()) else {
            return Err(EditError::OutOfMemory);
        };
        Ok(names)
    }
}
