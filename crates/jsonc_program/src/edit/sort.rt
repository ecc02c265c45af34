//! Properties that are sorted by their names as they are written.

ghost use Rattle.std.specs.Prelude.{◌≡◌, IfErr, OnOk};
ghost use Rattle.std.specs.Cmp.Lexicographic.{slice_cmp};
ghost use Rattle.std.specs.Ordering.{nat_cmp};
ghost use Rattle.jsonc_cst.specs.Document.{HasNode, nodes_of};
ghost use Rattle.jsonc_cst.specs.Nodes.{object_node, object_prop_node};
ghost use Rattle.jsonc_engine.specs.Sorting.{written_name};
ghost use Rattle.jsonc_program.specs.edit.Sorting.{HasSorted, SortsWhatShown};

use jsonc_engine::written_name;
use jsonc_parser::cst::{CstNode, CstObject, CstObjectProp, CstRootNode, EditError, TypedNode};
use std::alloc::{AllocError, Allocator};
use std::cmp::Ordering;

/// Compares the names of two properties as they are written, without quotes, byte by byte.
fn compare_names<A: Allocator>(
    document: &CstRootNode<A>,
    one: CstObjectProp,
    other: CstObjectProp,
) -> Ordering
    requires one { HasNode document.now (object_prop_node one) }
    requires other { HasNode document.now (object_prop_node other) }
    ensures { result ≡ slice_cmp nat_cmp (written_name (nodes_of document.now) one.number)
        (written_name (nodes_of document.now) other.number) }
{
    let name = written_name(document, one);
    name.cmp(&written_name(document, other))
}

/// Sorts the properties of an object, each with all comments above it.
fn sort_plainly<A: Allocator + Copy>(
    document: &mut CstRootNode<A>,
    object: CstObject,
) -> Result<(), EditError>
    requires { HasNode document.old (object_node object) }
    ensures sorted { OnOk result (HasSorted (nodes_of document.old) (nodes_of document.new) object.number) }
    ensures memory { IfErr result (λ e. e ≡ EditError.OutOfMemory) }
{
    match object.sort_properties().by(
        document,
        |document: &CstRootNode<_>, one, other| compare_names(document, one, other),
    ) {
        Ok(()) => Ok(()),
        Err(error) => Err(error),
    }
}

/// Sorts the properties of an object under the comments above the last blank line before each.
fn sort_under_headers<A: Allocator + Copy>(
    document: &mut CstRootNode<A>,
    object: CstObject,
) -> Result<(), EditError>
    requires { HasNode document.old (object_node object) }
    ensures sorted { OnOk result (HasSorted (nodes_of document.old) (nodes_of document.new) object.number) }
    ensures memory { IfErr result (λ e. e ≡ EditError.OutOfMemory) }
{
    match object.sort_properties().keep_headers().by(
        document,
        |document: &CstRootNode<_>, one, other| compare_names(document, one, other),
    ) {
        Ok(()) => Ok(()),
        Err(error) => Err(error),
    }
}

/// Sorts the properties of an object, with headers kept or not.
pub(crate) fn sort_object<A: Allocator + Copy>(
    document: &mut CstRootNode<A>,
    object: CstObject,
    keeps_headers: bool,
) -> Result<(), EditError>
    requires { HasNode document.old (object_node object) }
    ensures sorted { OnOk result (HasSorted (nodes_of document.old) (nodes_of document.new) object.number) }
    ensures memory { IfErr result (λ e. e ≡ EditError.OutOfMemory) }
{
    if keeps_headers {
        sort_under_headers(document, object)
    } else {
        sort_plainly(document, object)
    }
}

/// The objects in a value, itself among them.
fn objects_in<A: Allocator + Copy>(
    document: &CstRootNode<A>,
    value: CstNode,
) -> Result<Vec<CstObject, A>, AllocError>
    requires { HasNode document.now value }
{
    let mut objects = Vec::new(*document.allocator());
    for node in document.descendants(value) {
        if let Some(object) = node.as_object() {
            objects.push(object)?;
        }
    }
    Ok(objects)
}

/// Sorts the properties of each of these objects that the document has.
fn sort_objects<A: Allocator + Copy>(
    document: &mut CstRootNode<A>,
    objects: &[CstObject],
    keeps_headers: bool,
) -> Result<(), EditError>
    ensures sorted { OnOk result (SortsWhatShown document.old document.new) }
    ensures memory { IfErr result (λ e. e ≡ EditError.OutOfMemory) }
{
    for object in objects {
        if !document.holds((*object).node()) {
            continue;
        }
        match sort_object(document, *object, keeps_headers) {
            Ok(()) => {}
            Err(error) => return Err(error),
        }
    }
    Ok(())
}

/// Sorts the properties of each object in a value.
pub(crate) fn sort_inside<A: Allocator + Copy>(
    document: &mut CstRootNode<A>,
    value: CstNode,
    keeps_headers: bool,
) -> Result<(), EditError>
    requires { HasNode document.old value }
    ensures sorted { OnOk result (SortsWhatShown document.old document.new) }
    ensures memory { IfErr result (λ e. e ≡ EditError.OutOfMemory) }
{
    let Ok(objects) = objects_in(document, value) else {
        return Err(EditError::OutOfMemory);
    };
    sort_objects(document, &objects, keeps_headers)
}
