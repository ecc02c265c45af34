//! The value of a node with all of its members, those of equal names too.

ghost use Rattle.std.specs.Prelude.{◌≡◌, ◌<◌, false, length, option_map, IfOk, IsTrue};
ghost use Rattle.jsonc_layout.specs.input.Views.{named, plain};
ghost use Rattle.jsonc_layout.specs.to_input.Given.{holds_value};
ghost use Rattle.jsonc_layout.specs.to_input.Taken.{GivesAt};
ghost use Rattle.jsonc_parser.specs.patch.Taking.{ElementsGive, GivesMemberAt, MembersGive};
ghost use Rattle.jsonc_tree.specs.Tree.{content_at, is_container_at};

use jsonc_cst::cst::CstInputValue;
use jsonc_layout::nodes::{decoded_name, value_of};
use jsonc_layout::to_input::to_value;
use jsonc_tree::{Kind, Tree};
use std::alloc::{AllocError, Allocator};

// The value of a leaf.
#[inline(never)]
fn take_leaf<A: Allocator + Copy>(
    alloc: A,
    tree: &Tree<A>,
    leaf: usize,
) -> Result<Option<CstInputValue<A>>, AllocError>
    requires in_tree { leaf < length tree.now.nodes }
    requires leaf { is_container_at tree.now.nodes leaf ≡ false }
    ensures { IfOk result (λ v. GivesAt tree.now.nodes leaf (option_map plain v)) }
{
    match to_value(alloc, tree, leaf) {
        Ok(value) => Ok(value),
        Err(_) => Err(AllocError),
    }
}

/// The value of a node, if it has one, with all of its members.
///
/// Of a property and the root it is that of their value. What has no value inside an array or object is passed over.
#[cycle(take)]
pub(super) fn take<A: Allocator + Copy>(
    alloc: A,
    tree: &Tree<A>,
    node: usize,
) -> Result<Option<CstInputValue<A>>, AllocError>
    requires in_tree { node < length tree.now.nodes }
    ensures { IfOk result (λ v. GivesAt tree.now.nodes node (option_map plain v)) }
{
    match tree.kind(node) {
        Kind::Root(_) | Kind::Property(_) => take_held(alloc, tree, node),
        Kind::Array(_) => match take_elements(alloc, tree, node) {
            Ok(elements) => Ok(Some(CstInputValue::from(elements))),
            Err(_) => Err(AllocError),
        },
        Kind::Object(_) => match take_members(alloc, tree, node) {
            Ok(members) => Ok(Some(CstInputValue::from(members))),
            Err(_) => Err(AllocError),
        },
        _ => take_leaf(alloc, tree, node),
    }
}

// The value of the root or of a property: that of the node that is its value.
#[cycle(take)]
fn take_held<A: Allocator + Copy>(
    alloc: A,
    tree: &Tree<A>,
    node: usize,
) -> Result<Option<CstInputValue<A>>, AllocError>
    requires in_tree { node < length tree.now.nodes }
    requires holds { IsTrue (holds_value (content_at tree.now.nodes node)) }
    ensures { IfOk result (λ v. GivesAt tree.now.nodes node (option_map plain v)) }
{
    match value_of(tree, node) {
        Some(value) => take(alloc, tree, value),
        None => Ok(None),
    }
}

// The values of an array's children that have one.
#[inline(never)]
#[cycle(take)]
fn take_elements<A: Allocator + Copy>(
    alloc: A,
    tree: &Tree<A>,
    array: usize,
) -> Result<Vec<CstInputValue<A>, A>, AllocError>
    requires in_tree { array < length tree.now.nodes }
    ensures { IfOk result (λ v. ElementsGive tree.now.nodes array v.items) }
{
    let mut elements = Vec::new(alloc);
    for child in tree.children(array) {
        if let Some(value) = take(alloc, tree, child)? {
            elements.push(value)?;
        }
    }
    Ok(elements)
}

// The names and values of an object's properties that have both.
#[inline(never)]
#[cycle(take)]
fn take_members<A: Allocator + Copy>(
    alloc: A,
    tree: &Tree<A>,
    object: usize,
) -> Result<Vec<(String<A>, CstInputValue<A>), A>, AllocError>
    requires in_tree { object < length tree.now.nodes }
    ensures { IfOk result (λ v. MembersGive tree.now.nodes object v.items) }
{
    let mut members = Vec::new(alloc);
    for child in tree.children(object) {
        if let Some(member) = take_member(alloc, tree, child)? {
            members.push(member)?;
        }
    }
    Ok(members)
}

// The name and the value of a child of an object, if it is a property that has both.
#[inline(never)]
#[cycle(take)]
fn take_member<A: Allocator + Copy>(
    alloc: A,
    tree: &Tree<A>,
    child: usize,
) -> Result<Option<(String<A>, CstInputValue<A>)>, AllocError>
    requires in_tree { child < length tree.now.nodes }
    ensures { IfOk result (λ member. GivesMemberAt tree.now.nodes child (option_map named member)) }
{
    let Kind::Property(_) = tree.kind(child) else {
        return Ok(None);
    };
    let Some(name) = decoded_name(alloc, tree, child)? else {
        return Ok(None);
    };
    match take(alloc, tree, child)? {
        Some(value) => Ok(Some((name, value))),
        None => Ok(None),
    }
}
