//! The document's value by its shape: found, or set.

ghost use Rattle.std.specs.Prelude.{◌≡◌, IfErr, IfOk, None, OnErr, length};
ghost use Rattle.jsonc_tree.specs.Building.{Keeps};
ghost use Rattle.jsonc_tree.specs.OrderedTree.{ordered_tree};
ghost use Rattle.jsonc_tree.specs.Stored.{content_of};
ghost use Rattle.jsonc_layout.specs.input.Views.{plain};
ghost use Rattle.jsonc_layout.specs.nodes.Properties.{value_at};
ghost use Rattle.jsonc_edit.specs.set.Kinds.{FoundOrCreated, FoundOrSet, LacksKind};
ghost use Rattle.jsonc_edit.specs.set.Shapes.{empty_of, is_of};

use crate::set::root::set_root;
use crate::{EditError, Shape};
use jsonc_layout::input::CstInputValue;
use jsonc_layout::nodes::value_of;
use jsonc_tree::{Kind, Tree};
use std::alloc::Allocator;

/// Whether a node has a shape.
pub fn has_shape<A: Allocator>(kind: &Kind<A>, shape: Shape) -> bool
    ensures { result ≡ is_of shape (content_of kind.now) }
{
    match (shape, kind) {
        (Shape::Object, Kind::Object(_)) => true,
        (Shape::Array, Kind::Array(_)) => true,
        _ => false,
    }
}

/// The empty value of a shape.
pub fn empty_value<A: Allocator>(alloc: A, shape: Shape) -> CstInputValue<A>
    ensures { plain result ≡ empty_of shape }
{
    match shape {
        Shape::Object => {
            let properties: Vec<(String<A>, CstInputValue<A>), A> = Vec::new(alloc);
            CstInputValue::from(properties)
        }
        Shape::Array => {
            let elements: Vec<CstInputValue<A>, A> = Vec::new(alloc);
            CstInputValue::from(elements)
        }
    }
}

/// The document's value, if it has a shape. Where there is none an empty one is set, as by
/// [`set_root`]; where the value is another the answer is None, and nothing changes.
pub fn root_value_or_create<A: Allocator + Copy>(
    alloc: A,
    tree: &mut Tree<A>,
    shape: Shape,
) -> Result<Option<usize>, EditError>
    ensures value { IfOk result
        (FoundOrCreated (is_of shape) (empty_of shape) tree.old.nodes tree.new.nodes
        (value_at tree.old.nodes 0)) }
    ensures memory { IfErr result (λ e. e ≡ EditError.OutOfMemory) }
    ensures oom_only_if { OnErr result (value_at tree.old.nodes 0 ≡ None) }
    ensures kept { OnErr result (Keeps (length tree.old.nodes) tree.old.nodes tree.new.nodes) }
    ensures document { OnErr result (ordered_tree tree.new.nodes 0 ≡ ordered_tree tree.old.nodes 0) }
{
    let Some(node) = value_of(tree, 0) else {
        return Ok(Some(set_root(alloc, tree, &empty_value(alloc, shape))?));
    };
    if has_shape(tree.kind(node), shape) {
        return Ok(Some(node));
    }
    Ok(None)
}

/// The document's value, if it has a shape. Where it is another, or there is none, an empty one is
/// set, as by [`set_root`].
pub fn root_value_or_set<A: Allocator + Copy>(
    alloc: A,
    tree: &mut Tree<A>,
    shape: Shape,
) -> Result<usize, EditError>
    ensures value { IfOk result
        (FoundOrSet (is_of shape) (empty_of shape) tree.old.nodes tree.new.nodes
        (value_at tree.old.nodes 0)) }
    ensures memory { IfErr result (λ e. e ≡ EditError.OutOfMemory) }
    ensures oom_only_if { OnErr result (LacksKind (is_of shape) tree.old.nodes (value_at tree.old.nodes 0)) }
    ensures kept { OnErr result (Keeps (length tree.old.nodes) tree.old.nodes tree.new.nodes) }
    ensures document { OnErr result (ordered_tree tree.new.nodes 0 ≡ ordered_tree tree.old.nodes 0) }
{
    let Some(node) = value_of(tree, 0) else {
        return set_root(alloc, tree, &empty_value(alloc, shape));
    };
    if has_shape(tree.kind(node), shape) {
        return Ok(node);
    }
    set_root(alloc, tree, &empty_value(alloc, shape))
}
