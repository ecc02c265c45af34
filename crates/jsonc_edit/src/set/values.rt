//! Values of properties, set.

ghost use Rattle.std.specs.Prelude.{◌≡◌, ◌<◌, IfErr, IfNone, IfOk, IfSome, OnErr, OnOk, Some, false, length, true};
ghost use Rattle.jsonc_text.specs.Options.{Options};
ghost use Rattle.jsonc_tree.specs.Building.{Keeps};
ghost use Rattle.jsonc_tree.specs.Content.{Content};
ghost use Rattle.jsonc_tree.specs.OrderedTree.{ordered_tree};
ghost use Rattle.jsonc_tree.specs.Tree.{content_at};
ghost use Rattle.jsonc_layout.specs.input.Views.{plain};
ghost use Rattle.jsonc_layout.specs.nodes.Properties.{lacks_name_at, value_at};
ghost use Rattle.jsonc_edit.specs.Reading.{IsReplaced};
ghost use Rattle.jsonc_edit.specs.Written.{Writes};
ghost use Rattle.jsonc_edit.specs.set.PropertyValues.{HeldOrSet, EnsureValueError, LastValue};
ghost use Rattle.jsonc_edit.specs.set.Shapes.{empty_of, is_of};

use crate::set::root::replace_child;
use crate::set::shapes::{empty_value, has_shape};
use crate::{
    EditError, Shape, layout_for_value, put_spaces, space_needed_last, space_needed_past,
    spaces_for,
};
use jsonc_layout::from_input::lay_out;
use jsonc_layout::input::CstInputValue;
use jsonc_layout::nodes::{lacks_name, value_of};
use jsonc_tree::Tree;
use std::alloc::Allocator;

// Lets a value come as the last child of a property.
fn put_last<A: Allocator + Copy>(
    alloc: A,
    tree: &mut Tree<A>,
    property: usize,
    value: &CstInputValue<A>,
) -> Result<usize, EditError>
    requires in_tree { property < length tree.old.nodes }
    requires property { content_at tree.old.nodes property ≡ Content.property }
    ensures last { IfOk result (LastValue tree.old.nodes tree.new.nodes property (plain value.now)) }
    ensures memory { IfErr result (λ e. e ≡ EditError.OutOfMemory) }
    ensures kept { OnErr result (Keeps (length tree.old.nodes) tree.old.nodes tree.new.nodes) }
    ensures document { OnErr result (ordered_tree tree.new.nodes 0 ≡ ordered_tree tree.old.nodes 0) }
{
    let layout = layout_for_value(alloc, tree, property, property, value)?;
    let new = lay_out(alloc, tree, value, &layout)?;
    let before = space_needed_last(tree, property, new);
    let behind = space_needed_past(tree, property);
    let spaces = spaces_for(alloc, tree, new, before, behind)?;
    tree.append(property, new);
    put_spaces(tree, spaces);
    Ok(new)
}

/// Sets the value of a property, and answers the number of its node.
///
/// Where a value stands, it is replaced by the new one, as by [`crate::replace`]. Where none does,
/// which is so only after edits of single leaves, the new value is laid out as the document tells and
/// is put after all that the property holds, with a space where two literals without quotes would meet.
/// All memory is asked for before the document changes.
///
/// An error leaves the document, and every node that was there, as it was.
pub fn set_property_value<A: Allocator + Copy>(
    alloc: A,
    tree: &mut Tree<A>,
    property: usize,
    value: &CstInputValue<A>,
) -> Result<usize, EditError>
    requires in_tree { property < length tree.old.nodes }
    requires property { content_at tree.old.nodes property ≡ Content.property }
    ensures replaced { IfOk result
        (λ m. IfSome (value_at tree.old.nodes property)
        (λ n. IsReplaced tree.old.nodes tree.new.nodes n (plain value.now) m)) }
    ensures written { (p : Options)
        → IfOk result (λ m. IfSome (value_at tree.old.nodes property)
        (λ n. Writes p tree.old.nodes tree.new.nodes n m (plain value.now))) }
    ensures last { IfOk result
        (λ m. IfNone (value_at tree.old.nodes property)
        (LastValue tree.old.nodes tree.new.nodes property (plain value.now) m)) }
    ensures memory { IfErr result (λ e. e ≡ EditError.OutOfMemory) }
    ensures kept { OnErr result (Keeps (length tree.old.nodes) tree.old.nodes tree.new.nodes) }
    ensures document { OnErr result (ordered_tree tree.new.nodes 0 ≡ ordered_tree tree.old.nodes 0) }
{
    match value_of(tree, property) {
        Some(node) => replace_child(alloc, tree, node, value),
        None => put_last(alloc, tree, property, value),
    }
}

/// The value of a property, if it has a shape. Where it is another, or there is none, an empty one is
/// set, as by [`set_property_value`]; where the property has no name, or no colon after it, the
/// answer is `MissingName`, and nothing changes.
pub fn property_value_or_set<A: Allocator + Copy>(
    alloc: A,
    tree: &mut Tree<A>,
    property: usize,
    shape: Shape,
) -> Result<usize, EditError>
    requires in_tree { property < length tree.old.nodes }
    requires property { content_at tree.old.nodes property ≡ Content.property }
    ensures value { IfOk result
        (HeldOrSet (is_of shape) (empty_of shape) tree.old.nodes tree.new.nodes property
        (value_at tree.old.nodes property)) }
    ensures shape { IfOk result (λ m. is_of shape (content_at tree.new.nodes m) ≡ true) }
    ensures named { OnOk result (lacks_name_at tree.old.nodes property ≡ false) }
    ensures error { IfErr result (EnsureValueError (is_of shape) tree.old.nodes property) }
    ensures missing { IfErr result (λ e. lacks_name_at tree.old.nodes property ≡ true → e ≡ EditError.MissingName) }
    ensures kept { OnErr result (Keeps (length tree.old.nodes) tree.old.nodes tree.new.nodes) }
    ensures document { OnErr result (ordered_tree tree.new.nodes 0 ≡ ordered_tree tree.old.nodes 0) }
{
    if lacks_name(tree, property) {
        return Err(EditError::MissingName);
    }
    let Some(node) = value_of(tree, property) else {
        return set_property_value(alloc, tree, property, &empty_value(alloc, shape));
    };
    if has_shape(tree.kind(node), shape) {
        return Ok(node);
    }
    set_property_value(alloc, tree, property, &empty_value(alloc, shape))
}
