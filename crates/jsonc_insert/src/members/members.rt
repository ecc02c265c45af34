//! Properties that are inserted into objects.

ghost use Rattle.std.specs.Prelude.{◌≡◌, ◌<◌, IfErr, IfOk, OnErr, OnOk, List, chars, false, length, true};
ghost use Rattle.std.specs.List.{list_any};
ghost use Rattle.jsonc_layout.specs.nodes.Kinds.{is_newline_at};
ghost use Rattle.jsonc_tree.specs.Building.{Keeps};
ghost use Rattle.jsonc_tree.specs.Content.{Content};
ghost use Rattle.jsonc_tree.specs.OrderedTree.{ordered_tree};
ghost use Rattle.jsonc_tree.specs.Tree.{Node, children_at, content_at};
ghost use Rattle.jsonc_layout.specs.input.Views.{plain};
ghost use Rattle.jsonc_insert.specs.Inserted.{refusal};
ghost use Rattle.jsonc_insert.specs.Planned.{has_brackets};
ghost use Rattle.jsonc_insert.specs.members.Inserted.{PropertyPut};
ghost use Rattle.jsonc_insert.specs.members.Opened.{IsSpread, WasSpread};

use crate::insert::insert_entry;
use crate::plan::has_brackets;
use jsonc_edit::multiline::{lines_for, plan_lines};
use jsonc_edit::{EditError, clear_row, set_between};
use jsonc_layout::input::CstInputValue;
use jsonc_layout::nodes::children;
use jsonc_tree::Tree;
use std::alloc::{AllocError, Allocator};

// Puts an object on several lines that is on one.
fn spread<A: Allocator + Copy>(
    alloc: A,
    tree: &mut Tree<A>,
    object: usize,
) -> Result<(), AllocError>
    requires in_tree { object < length tree.old.nodes }
    requires object { content_at tree.old.nodes object ≡ Content.object }
    requires brackets { has_brackets tree.old.nodes (children_at tree.old.nodes object) ≡ true }
    requires ends { list_any (is_newline_at tree.old.nodes) (children_at tree.old.nodes object) ≡ false }
    ensures spread { OnOk result (IsSpread tree.old.nodes tree.new.nodes object) }
    ensures kept { OnErr result (Keeps (length tree.old.nodes) tree.old.nodes tree.new.nodes) }
{
    let lines = lines_for(alloc, tree, object)?;
    let row = plan_lines(alloc, tree, object, &lines)?;
    set_between(tree, object, &row);
    Ok(())
}

// Puts an object on one line again that was put on several before nodes were added. No memory is wanted.
fn put_row_back<A: Allocator>(tree: &mut Tree<A>, object: usize, row: &[usize])
    requires { (old : List Node) × WasSpread old tree.old.nodes object row.now }
    ensures { (old : List Node) → WasSpread old tree.old.nodes object row.now → Keeps (length old) old tree.new.nodes }
{
    clear_row(tree, object);
    tree.insert_between(object, None, None, row);
}

// Inserts a property into an object on one line, which is put on several before, and on one again where
// memory is refused.
fn insert_spread<A: Allocator + Copy>(
    alloc: A,
    tree: &mut Tree<A>,
    object: usize,
    index: usize,
    name: &str,
    value: &CstInputValue<A>,
) -> Result<usize, AllocError>
    requires in_tree { object < length tree.old.nodes }
    requires object { content_at tree.old.nodes object ≡ Content.object }
    requires brackets { has_brackets tree.old.nodes (children_at tree.old.nodes object) ≡ true }
    requires ends { list_any (is_newline_at tree.old.nodes) (children_at tree.old.nodes object) ≡ false }
    ensures put { IfOk result (PropertyPut tree.old.nodes tree.new.nodes object index (chars name.now)
        (plain value.now)) }
    ensures kept { OnErr result (Keeps (length tree.old.nodes) tree.old.nodes tree.new.nodes) }
{
    let row = children(alloc, tree, object)?;
    spread(alloc, tree, object)?;
    match insert_entry(alloc, tree, object, index, Some(name), value) {
        Ok(property) => Ok(property),
        Err(error) => {
            put_row_back(tree, object, &row);
            Err(error)
        }
    }
}

/// Inserts a property of this name and value into an object as its property of this number, or after the
/// last one where there are fewer, and answers the number of its node.
///
/// An object without the end of a line between its brackets is put on several lines. Blank lines directly
/// inside the brackets are removed: after the first bracket all but the first line's end, before the last
/// all but the last. The property is inserted on a line of its own after the one before it, its comma and the
/// comments on that line, and a comma where one is wanted. Its indent, how lines end and whether the last
/// property has a comma are the document's.
///
/// An object that lacks a bracket answers `MissingBrackets`. An error leaves the document, and every node
/// that was there, as it was.
pub fn insert_property<A: Allocator + Copy>(
    alloc: A,
    tree: &mut Tree<A>,
    object: usize,
    index: usize,
    name: &str,
    value: &CstInputValue<A>,
) -> Result<usize, EditError>
    requires in_tree { object < length tree.old.nodes }
    requires object { content_at tree.old.nodes object ≡ Content.object }
    ensures put { IfOk result (PropertyPut tree.old.nodes tree.new.nodes object index (chars name.now)
        (plain value.now)) }
    ensures brackets { OnOk result (has_brackets tree.old.nodes (children_at tree.old.nodes object) ≡ true) }
    ensures error { IfErr result (λ e. e ≡ refusal tree.old.nodes object) }
    ensures kept { OnErr result (Keeps (length tree.old.nodes) tree.old.nodes tree.new.nodes) }
    ensures document { OnErr result (ordered_tree tree.new.nodes 0 ≡ ordered_tree tree.old.nodes 0) }
{
    if !has_brackets(tree, object) {
        return Err(EditError::MissingBrackets);
    }
    if !tree.has_line_end(object) {
        let property = insert_spread(alloc, tree, object, index, name, value)?;
        return Ok(property);
    }
    let property = insert_entry(alloc, tree, object, index, Some(name), value)?;
    Ok(property)
}
