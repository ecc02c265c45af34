//! Properties that are replaced by others.

ghost use Rattle.std.specs.Prelude.{◌≡◌, ◌<◌, IfErr, IfNone, IfOk, IfSome, None, OnErr, chars, length};
ghost use Rattle.jsonc_tree.specs.Building.{Keeps};
ghost use Rattle.jsonc_tree.specs.OrderedTree.{ordered_tree};
ghost use Rattle.jsonc_tree.specs.Tree.{parent_at};
ghost use Rattle.jsonc_layout.specs.input.Views.{plain};
ghost use Rattle.jsonc_edit.specs.set.Giving.{due_after, is_bare_value, IsPropertyReplaced};

use crate::{
    EditError, layout_for_value, make_spaces, put_in_place, put_spaces, space_needed_after,
};
use jsonc_layout::from_input::lay_out_property;
use jsonc_layout::input::CstInputValue;
use jsonc_tree::Tree;
use std::alloc::Allocator;

// Whether a value is written as a literal without quotes.
fn is_bare_value<A: Allocator>(value: &CstInputValue<A>) -> bool
    ensures { result ≡ is_bare_value (plain value.now) }
{
    match value {
        CstInputValue::Null => true,
        CstInputValue::Bool(_) => true,
        CstInputValue::Number(_) => true,
        CstInputValue::String(_) => false,
        CstInputValue::Array(_) => false,
        CstInputValue::Object(_) => false,
    }
}

// Before which node a space is due where a property is replaced by one of this value.
fn due_after<A: Allocator>(
    tree: &Tree<A>,
    property: usize,
    value: &CstInputValue<A>,
) -> Option<usize>
    requires { property < length tree.now.nodes }
    ensures { result ≡ due_after tree.now.nodes property (plain value.now) }
{
    if !is_bare_value(value) {
        return None;
    }
    space_needed_after(tree, property)
}

/// Lays a name and a value out as a new property, which replaces a property, and answers the number
/// of the new one.
///
/// The document tells how, as for [`crate::replace`]. Where the value is a literal without quotes
/// that would come to stand directly before another, a space is inserted between them. The old property is
/// detached then. Where it has no parent the answer is None, and no node changes. An error leaves
/// the document, and every node that was there, as it was.
pub fn replace_property<A: Allocator + Copy>(
    alloc: A,
    tree: &mut Tree<A>,
    property: usize,
    name: &str,
    value: &CstInputValue<A>,
) -> Result<Option<usize>, EditError>
    requires { property < length tree.old.nodes }
    ensures replaced { IfOk result
        (λ o. IfSome o (IsPropertyReplaced tree.old.nodes tree.new.nodes property (chars name.now)
        (plain value.now))) }
    ensures none { IfOk result (λ o. IfNone o (parent_at tree.old.nodes property ≡ None)) }
    ensures untouched { IfOk result (λ o. IfNone o (tree.new.nodes ≡ tree.old.nodes)) }
    ensures memory { IfErr result (λ e. e ≡ EditError.OutOfMemory) }
    ensures kept { OnErr result (Keeps (length tree.old.nodes) tree.old.nodes tree.new.nodes) }
    ensures document { OnErr result (ordered_tree tree.new.nodes 0 ≡ ordered_tree tree.old.nodes 0) }
{
    let Some(container) = tree.parent(property) else {
        return Ok(None);
    };
    let layout = layout_for_value(alloc, tree, container, property, value)?;
    let behind = due_after(tree, property, value);
    let new = lay_out_property(alloc, tree, name, value, &layout)?;
    let spaces = make_spaces(alloc, tree, None, behind)?;
    put_spaces(tree, spaces);
    put_in_place(tree, container, property, new);
    Ok(Some(new))
}
