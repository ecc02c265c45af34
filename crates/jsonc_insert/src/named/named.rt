//! The first property of a name in an object, whose value is to be an array or object.

ghost use Rattle.std.specs.Prelude.{◌≡◌, ◌<◌, IfErr, IfOk, IfSome, OnErr, OnOk, Some, chars, false, length, true};
ghost use Rattle.jsonc_tree.specs.Building.{Keeps};
ghost use Rattle.jsonc_tree.specs.Content.{Content};
ghost use Rattle.jsonc_tree.specs.OrderedTree.{ordered_tree};
ghost use Rattle.jsonc_tree.specs.Tree.{content_at};
ghost use Rattle.jsonc_layout.specs.nodes.Properties.{lacks_name_at, value_at};
ghost use Rattle.jsonc_layout.specs.nodes.Siblings.{IsThere};
ghost use Rattle.jsonc_insert.specs.Inserted.{refusal};
ghost use Rattle.jsonc_insert.specs.named.Named.{if_shaped, ComesNamed, EnsureError, NamedEnsured};
ghost use Rattle.jsonc_edit.specs.set.Shapes.{empty_of, is_of};

use crate::members::insert_property;
use jsonc_edit::set::{empty_value, has_shape, property_value_or_set};
use jsonc_edit::{EditError, Over, Shape};
use jsonc_layout::nodes::{get, value_of};
use jsonc_tree::Tree;
use std::alloc::Allocator;

// The value of a property, if it has a shape.
fn shaped_value<A: Allocator>(tree: &Tree<A>, property: usize, shape: Shape) -> Option<usize>
    requires { property < length tree.now.nodes }
    ensures value { result ≡ if_shaped shape tree.now.nodes (value_at tree.now.nodes property) }
    ensures shape { IfSome result (λ m. is_of shape (content_at tree.now.nodes m) ≡ true) }
    ensures in_tree { IsThere tree.now.nodes result }
{
    let value = value_of(tree, property)?;
    if has_shape(tree.kind(value), shape) {
        Some(value)
    } else {
        None
    }
}

// Puts a property with an empty value after the last one of an object, and answers that value.
fn append_empty<A: Allocator + Copy>(
    alloc: A,
    tree: &mut Tree<A>,
    object: usize,
    name: &str,
    shape: Shape,
) -> Result<usize, EditError>
    requires in_tree { object < length tree.old.nodes }
    requires object { content_at tree.old.nodes object ≡ Content.object }
    ensures comes { IfOk result
        (ComesNamed tree.old.nodes tree.new.nodes object (chars name.now) (empty_of shape)) }
    ensures shape { IfOk result (λ m. is_of shape (content_at tree.new.nodes m) ≡ true) }
    ensures in_tree { IfOk result (λ m. m < length tree.new.nodes) }
    ensures error { IfErr result (λ e. e ≡ refusal tree.old.nodes object) }
    ensures kept { OnErr result (Keeps (length tree.old.nodes) tree.old.nodes tree.new.nodes) }
    ensures document { OnErr result (ordered_tree tree.new.nodes 0 ≡ ordered_tree tree.old.nodes 0) }
{
    // There are fewer properties than nodes.
    let count = tree.len();
    let empty = empty_value(alloc, shape);
    let property = insert_property(alloc, tree, object, count, name, &empty)?;
    let Some(value) = value_of(tree, property) else {
        // A property that was inserted holds its value.
        unreachable!()
    };
    Ok(value)
}

/// Sees that the first property of a name in an object has an array or an object as its value, and answers
/// it.
///
/// Where no property has the name, one with an empty value is inserted after the last one, as by
/// `insert_property` of `jsonc_insert::members`. A value of another kind is replaced by an empty one, and one that is
/// missing is set so, as by `property_value_or_set` of `jsonc_edit::set`; or it stays as it is, and the answer is
/// None. A property whose value is to be set, and that lacks its colon, answers `MissingName`; an object
/// into which a property is to be inserted, and that lacks a bracket, `MissingBrackets`. Want of memory is told
/// where neither is so, or of a name with a backslash, which takes memory to read. An error leaves the
/// document, and every node that was there, as it was.
pub fn ensure_property<A: Allocator + Copy>(
    alloc: A,
    tree: &mut Tree<A>,
    object: usize,
    name: &str,
    shape: Shape,
    over: Over,
) -> Result<Option<usize>, EditError>
    requires in_tree { object < length tree.old.nodes }
    requires object { content_at tree.old.nodes object ≡ Content.object }
    ensures ensured { IfOk result
        (NamedEnsured shape over tree.old.nodes tree.new.nodes object (chars name.now)) }
    ensures shape { IfOk result (λ a. IfSome a (λ m. is_of shape (content_at tree.new.nodes m) ≡ true)) }
    ensures error { IfErr result (EnsureError shape over tree.old.nodes object (chars name.now)) }
    ensures kept { OnErr result (Keeps (length tree.old.nodes) tree.old.nodes tree.new.nodes) }
    ensures document { OnErr result (ordered_tree tree.new.nodes 0 ≡ ordered_tree tree.old.nodes 0) }
{
    let found = get(alloc, tree, object, name)?;
    let Some(property) = found else {
        return match append_empty(alloc, tree, object, name, shape) {
            Ok(value) => Ok(Some(value)),
            Err(error) => Err(error),
        };
    };
    match over {
        Over::Keep => Ok(shaped_value(tree, property, shape)),
        Over::Replace => match property_value_or_set(alloc, tree, property, shape) {
            Ok(value) => Ok(Some(value)),
            Err(error) => Err(error),
        },
    }
}
