//! Where words lead in a document.

ghost use Rattle.std.specs.Prelude.{◌≡◌, IfErr, IfOk, IfSome, Some, [], option_map};
ghost use Rattle.jsonc_edit.specs.Paths.{IsAt};
ghost use Rattle.jsonc_run.specs.Places.{IsEntryAt};
ghost use Rattle.jsonc_cst.specs.Document.{HasNode, nodes_of};
ghost use Rattle.jsonc_cst.specs.Nodes.{number_of};
ghost use Rattle.jsonc_parser.specs.patch.Found.{IsOfShown};
ghost use Rattle.jsonc_parser.specs.patch.Pointer.{tokens_of};
ghost use Rattle.jsonc_program.specs.edit.Routes.{IsLedOver, IsLedTo, entry_of, route_of, tokens as by_tokens, value_of_entry};

use jsonc_parser::cst::{CstContainerNode, CstNode, CstRootNode, EditError, TypedNode};
use jsonc_parser::patch::{Pointer, entry_at};
use jsonc_parser::settings::find_at;
use std::alloc::Allocator;

/// What leads from the document's value to one inside it. Of equal names the first leads on.
#[derive(Drop)]
pub(crate) enum Way<A: Allocator> {
    /// Tokens, through objects and arrays.
    Tokens(Pointer<A>),
    /// Names, through objects alone.
    Names(Vec<String<A>, A>),
}

/// The value that an entry is, or has.
fn value_of_entry<A: Allocator>(document: &CstRootNode<A>, entry: CstNode) -> Option<CstNode>
    requires { HasNode document.now entry }
    ensures value { result ≡ value_of_entry document.now entry }
    ensures in_document { IfSome result (HasNode document.now) }
{
    match entry.as_object_prop() {
        Some(property) => property.value(document),
        None => Some(entry),
    }
}

/// The value to which a pointer leads.
fn value_by_tokens<A: Allocator + Copy>(
    document: &CstRootNode<A>,
    pointer: &Pointer<A>,
) -> Result<Option<CstNode>, EditError>
    ensures led { IfOk result (IsLedTo document.now (by_tokens (tokens_of pointer.now))) }
    ensures in_document { IfOk result (λ found. IfSome found (HasNode document.now)) }
    ensures memory { IfErr result (λ e. e ≡ EditError.OutOfMemory) }
{
    if pointer.tokens().is_empty() {
        return Ok(document.value());
    }
    match entry_at(document, pointer) {
        Ok(Some(entry)) => Ok(value_of_entry(document, entry)),
        Ok(None) => Ok(None),
        Err(error) => Err(error),
    }
}

/// The value to which the way leads, if it leads to one.
pub(crate) fn value_at<A: Allocator + Copy>(
    document: &CstRootNode<A>,
    way: &Way<A>,
) -> Result<Option<CstNode>, EditError>
    ensures led { IfOk result (IsLedTo document.now (route_of way.now)) }
    ensures in_document { IfOk result (λ found. IfSome found (HasNode document.now)) }
    ensures memory { IfErr result (λ e. e ≡ EditError.OutOfMemory) }
{
    match way {
        Way::Tokens(pointer) => value_by_tokens(document, pointer),
        Way::Names(names) => find_at(document, names),
    }
}

/// The positions over which the way leads, if it leads to a value.
pub(crate) fn path_to<A: Allocator + Copy>(
    document: &CstRootNode<A>,
    way: &Way<A>,
) -> Result<Option<Vec<usize, A>>, EditError>
    ensures led { IfOk result (λ found. IsLedOver document.now (route_of way.now) (option_map (λ path. path.items) found)) }
    ensures memory { IfErr result (λ e. e ≡ EditError.OutOfMemory) }
{
    match value_at(document, way) {
        Ok(Some(value)) => document.path(value),
        Ok(None) => Ok(None),
        Err(error) => Err(error),
    }
}

/// The entry that a value is, or that has it.
pub(crate) fn entry_of<A: Allocator>(document: &CstRootNode<A>, value: CstNode) -> CstNode
    requires { HasNode document.now value }
    ensures entry { result ≡ entry_of document.now value }
    ensures in_document { HasNode document.now result }
{
    match value.parent(document) {
        Some(CstContainerNode::ObjectProp(property)) => property.node(),
        Some(CstContainerNode::Root(_)) => value,
        Some(CstContainerNode::Array(_)) => value,
        Some(CstContainerNode::Object(_)) => value,
        None => value,
    }
}
