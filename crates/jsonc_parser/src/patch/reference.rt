//! What a pointer refers to in a document.

ghost use Rattle.std.specs.Prelude.{◌≡◌, ◌<◌, ◌≤◌, ◌↔◌, ◌^◌, ◌∷◌, [], ℕ, length, chars, slice_index, IfErr, IfNone, IfOk, IfSome, IsTrue, OnErr, Some};
ghost use Rattle.std.specs.Bool.{Decides};
ghost use Rattle.std.specs.Option.{SomeIff};
ghost use Rattle.std.specs.Str.Parse.{IsNumeral, digits_value};
ghost use Rattle.jsonc_layout.specs.nodes.Names.{HoldsEscapedName};
ghost use Rattle.jsonc_layout.specs.nodes.Siblings.{IsThere};
ghost use Rattle.jsonc_tree.specs.Content.{Content};
ghost use Rattle.jsonc_tree.specs.Tree.{children_at};
ghost use Rattle.jsonc_cst.specs.Document.{content_of, nodes_of, HasNode};
ghost use Rattle.jsonc_cst.specs.Nodes.{number_of};
ghost use Rattle.jsonc_cst.specs.Readings.{value_under as value_of_property};
ghost use Rattle.jsonc_parser.specs.paths.Found.{names_of};
ghost use Rattle.jsonc_parser.specs.patch.Applied.{IsPlaceBy};
ghost use Rattle.jsonc_parser.specs.patch.Found.{FindFails, Finds, IsOfShown, ReadFails, Reads};
ghost use Rattle.jsonc_parser.specs.patch.Lookups.{found_once, IsElementBy, IsLookedUp, SaysRepeated, StepFails, StepsTo};
ghost use Rattle.jsonc_parser.specs.patch.Messages.{find_error_text};
ghost use Rattle.jsonc_parser.specs.patch.Pointer.{tokens_of};
ghost use Rattle.jsonc_parser.specs.patch.References.{IsIndex};

use super::pointer::Pointer;
use super::quoting::write_repeated_name;
use jsonc_cst::cst::{CstInputValue, CstNode, CstRootNode, TypedNode, node_at};
use jsonc_layout::nodes::{children_from, element_at, is_named, value_of};
use std::alloc::{AllocError, Allocator};
use std::error::Error;
use std::fmt;

/// Why a pointer was not followed.
#[derive(Debug, Drop)]
pub enum FindError<A: Allocator> {
    /// More than one property of an object on the way has this name, which is the next token.
    RepeatedName(String<A>),
    /// An allocation failed.
    OutOfMemory,
}

impl<A: Allocator> fmt::Display for FindError<A> {
    ghost output = { λ e. Some (find_error_text e) };

    ghost styled_output = { λ e _. Some (find_error_text e) };

    fn fmt<W: fmt::Write>(&self, f: &mut fmt::Formatter<W>) -> fmt::Result {
        match self {
            FindError::RepeatedName(name) => write_repeated_name(name.as_str(), f),
            FindError::OutOfMemory => f.write_str("Out of memory"),
        }
    }
}

impl<A: Allocator + fmt::Debug> Error for FindError<A> {}

// Which child of an object is its one property of a name.
#[derive(Clone, Copy)]
pub(crate) enum Lookup {
    // None.
    Missing,
    // This one.
    Once(usize),
    // There are two or more.
    Twice,
}

// The one property of a name among the children of an object. Memory is needed only for a name with a
// backslash.
pub(super) fn look_up<A: Allocator + Copy>(
    doc: &CstRootNode<A>,
    object: usize,
    name: &str,
) -> Result<Lookup, AllocError>
    requires { object < length (nodes_of doc.now) }
    ensures found { IfOk result (IsLookedUp (nodes_of doc.now) (chars name.now) (children_at (nodes_of doc.now) object)) }
    ensures in_tree { IfOk result (λ found. IsThere (nodes_of doc.now) (found_once found)) }
    ensures memory { OnErr result (HoldsEscapedName (nodes_of doc.now) object) }
{
    let tree = doc.tree();
    let mut found = None;
    for child in children_from(tree, object, 0) {
        if !is_named(*doc.allocator(), tree, child, name)? {
            continue;
        }
        if found.is_some() {
            return Ok(Lookup::Twice);
        }
        found = Some(child);
    }
    match found {
        Some(child) => Ok(Lookup::Once(child)),
        None => Ok(Lookup::Missing),
    }
}

// The value of a property, if it has one.
pub(super) fn value_under<A: Allocator>(doc: &CstRootNode<A>, property: usize) -> Option<CstNode>
    requires { property < length (nodes_of doc.now) }
    ensures value { result ≡ value_of_property doc.now property }
    ensures in_document { IfSome result (HasNode doc.now) }
{
    let Some(value) = value_of(doc.tree(), property) else {
        return None;
    };
    Some(node_at(doc.tree(), value))
}

// The error of a name that occurs twice, or of no memory for it.
fn repeated<A: Allocator>(alloc: A, name: &str) -> FindError<A>
    ensures { SaysRepeated (chars name.now) result }
{
    match String::from_str(alloc, name) {
        Ok(name) => FindError::RepeatedName(name),
        Err(_) => FindError::OutOfMemory,
    }
}

// The value of the one property of a name in an object.
pub(super) fn member<A: Allocator + Copy>(
    doc: &CstRootNode<A>,
    node: CstNode,
    name: &str,
) -> Result<Option<CstNode>, FindError<A>>
    requires in_document { HasNode doc.now node }
    requires object { content_of doc.now node ≡ Content.object }
    ensures found { IfOk result (StepsTo doc.now node (chars name.now)) }
    ensures in_document { IfOk result (λ o. IfSome o (HasNode doc.now)) }
    ensures fails { IfErr result (StepFails doc.now node (chars name.now)) }
{
    match look_up(doc, node.number(), name) {
        Ok(Lookup::Missing) => Ok(None),
        Ok(Lookup::Once(property)) => Ok(value_under(doc, property)),
        Ok(Lookup::Twice) => Err(repeated(*doc.allocator(), name)),
        Err(_) => Err(FindError::OutOfMemory),
    }
}

// The number that digits alone write, if a usize holds it.
fn digits_usize(text: &str) -> Option<usize>
    ensures { SomeIff result (IsNumeral 10 text.now × (digits_value 10 text.now < 2 ^ 64)) (digits_value 10 text.now) }
{
    if text.starts_with('+') {
        return None;
    }
    usize::from_str_radix(text, 10).ok()
}

// Whether a 0 is first and not alone.
pub(super) fn is_padded(text: &str) -> bool
    ensures { IsTrue result ↔ ((1 < length text.now) × (slice_index text.now 0 ≡ 0x30)) }
{
    let bytes = text.as_bytes();
    bytes.len() > 1 && bytes[0] == b'0'
}

// The index that a token is, where it is below a limit.
fn index_below(token: &str, limit: usize) -> Option<usize>
    ensures some { IfSome result (λ i. IsIndex (chars token.now) i × (i < limit)) }
    ensures none { IfNone result ((i : ℕ) → IsIndex (chars token.now) i → limit ≤ i) }
{
    let Some(index) = digits_usize(token) else {
        return None;
    };
    if is_padded(token) {
        return None;
    }
    if index >= limit {
        return None;
    }
    Some(index)
}

// The element of an array whose index a token is.
pub(super) fn element<A: Allocator>(doc: &CstRootNode<A>, node: usize, token: &str) -> Option<usize>
    requires { node < length (nodes_of doc.now) }
    ensures element { IsElementBy (nodes_of doc.now) node (chars token.now) result }
    ensures in_tree { IsThere (nodes_of doc.now) result }
{
    let tree = doc.tree();
    let Some(index) = index_below(token, tree.len()) else {
        return None;
    };
    element_at(tree, node, index)
}

// Whether a token is `-`.
pub(super) fn is_hyphen(token: &str) -> bool
    ensures { Decides result (chars token.now ≡ 0x2D ∷ []) }
{
    token == "-"
}

// The element of an array before which a token says that another is to be inserted; none of the two where it says
// after the last.
pub(super) fn element_place<A: Allocator>(
    doc: &CstRootNode<A>,
    node: usize,
    token: &str,
) -> Option<Option<usize>>
    requires { node < length (nodes_of doc.now) }
    ensures { IsPlaceBy (nodes_of doc.now) node (chars token.now) result }
{
    if is_hyphen(token) {
        return Some(None);
    }
    let tree = doc.tree();
    let Some(index) = index_below(token, tree.len()) else {
        return None;
    };
    if index == 0 {
        return Some(Some(index));
    }
    if element_at(tree, node, index - 1).is_none() {
        return None;
    }
    Some(Some(index))
}

// Where a token leads from a node.
fn step<A: Allocator + Copy>(
    doc: &CstRootNode<A>,
    node: CstNode,
    token: &str,
) -> Result<Option<CstNode>, FindError<A>>
    requires { HasNode doc.now node }
    ensures found { IfOk result (StepsTo doc.now node (chars token.now)) }
    ensures in_document { IfOk result (λ o. IfSome o (HasNode doc.now)) }
    ensures fails { IfErr result (StepFails doc.now node (chars token.now)) }
{
    if node.as_object().is_some() {
        return member(doc, node, token);
    }
    if node.as_array().is_none() {
        return Ok(None);
    }
    match element(doc, node.number(), token) {
        Some(inner) => Ok(Some(node_at(doc.tree(), inner))),
        None => Ok(None),
    }
}

// The value that tokens refer to, if there is one.
pub(super) fn follow<A: Allocator + Copy>(
    doc: &CstRootNode<A>,
    tokens: &[String<A>],
) -> Result<Option<CstNode>, FindError<A>>
    ensures found { IfOk result (λ found. IsOfShown doc.now (λ d. Finds d doc.now (names_of tokens.now) found)) }
    ensures in_document { IfOk result (λ o. IfSome o (HasNode doc.now)) }
    ensures fails { IfErr result (λ e. IsOfShown doc.now (λ d. FindFails d doc.now (names_of tokens.now) e)) }
{
    let Some(value) = doc.value() else {
        return Ok(None);
    };
    let mut node = value;
    for token in tokens {
        match step(doc, node, token) {
            Ok(Some(inner)) => node = inner,
            Ok(None) => return Ok(None),
            Err(error) => return Err(error),
        }
    }
    Ok(Some(node))
}

/// The value that a pointer refers to, if there is one.
///
/// From the document's value each token leads on: in an object to the value of the one property of that
/// name, in an array to the element of that index, which counts from 0 and is written without leading
/// zeros. None where a step finds no array or object, no such name, or no such element; `-`, which
/// represents the element after the last, leads to none.
///
/// A name that occurs twice where it is looked up is an error. Memory is allocated only for its text, or
/// to look up a name in an object that has a name with a backslash.
pub fn find<A: Allocator + Copy>(
    doc: &CstRootNode<A>,
    pointer: &Pointer<A>,
) -> Result<Option<CstNode>, FindError<A>>
    ensures found { IfOk result (λ found. IsOfShown doc.now (λ d. Finds d doc.now (tokens_of pointer.now) found)) }
    ensures in_document { IfOk result (λ o. IfSome o (HasNode doc.now)) }
    ensures fails { IfErr result (λ e. IsOfShown doc.now (λ d. FindFails d doc.now (tokens_of pointer.now) e)) }
{
    follow(doc, pointer.tokens())
}

/// The value that a pointer refers to, as a value for edits.
///
/// Of equal names in it the last value is at the first place. None where [`find`] answers none.
///
/// Memory is allocated only as by [`find`], or for a value that is there.
pub fn read<A: Allocator + Copy>(
    doc: &CstRootNode<A>,
    pointer: &Pointer<A>,
) -> Result<Option<CstInputValue<A>>, FindError<A>>
    ensures read { IfOk result (λ taken. IsOfShown doc.now (λ d. Reads d (tokens_of pointer.now) taken)) }
    ensures fails { IfErr result (λ e. IsOfShown doc.now (λ d. ReadFails d doc.now (tokens_of pointer.now) e)) }
{
    let node = match find(doc, pointer) {
        Ok(Some(node)) => node,
        Ok(None) => return Ok(None),
        Err(error) => return Err(error),
    };
    match node.to_value(doc) {
        Ok(value) => Ok(value),
        Err(_) => Err(FindError::OutOfMemory),
    }
}
