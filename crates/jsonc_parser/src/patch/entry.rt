//! The entries and values to which pointers lead where of equal names the first leads on.

ghost use Rattle.std.specs.Prelude.{◌≡◌, ℕ, chars, length, IfErr, IfOk, IfSome, OnErr};
ghost use Rattle.std.specs.Bool.{Decides};
ghost use Rattle.std.specs.Char.{is_ascii_digit};
ghost use Rattle.std.specs.List.{list_all};
ghost use Rattle.jsonc_layout.specs.nodes.Names.{HoldsEscapedName};
ghost use Rattle.jsonc_tree.specs.Content.{Content};
ghost use Rattle.jsonc_cst.specs.Document.{content_of, nodes_of, HasNode};
ghost use Rattle.jsonc_cst.specs.Nodes.{number_of};
ghost use Rattle.jsonc_parser.specs.paths.Found.{names_of};
ghost use Rattle.jsonc_parser.specs.patch.Found.{IsOfShown};
ghost use Rattle.jsonc_parser.specs.patch.Pointer.{tokens_of};
ghost use Rattle.jsonc_parser.specs.patch.PutCalls.{FindsEntry, PassesEscaped};
ghost use Rattle.jsonc_parser.specs.patch.PutSteps.{Enters, EntryHolds, IsLed, LedHolds, StepsTo};
ghost use Rattle.jsonc_parser.specs.patch.References.{IsIndex};

use super::pointer::Pointer;
use super::reference::{element, element_place, is_padded, value_under};
use crate::paths::which::{Which, property_of};
use jsonc_cst::cst::{CstNode, CstRootNode, EditError, TypedNode, node_at};
use std::alloc::Allocator;

// Why a token leads to nothing from a value.
#[derive(Clone, Copy)]
pub(crate) enum Stop {
    // The object has no member of this name.
    NoMember,
    // By the token an element is appended to the array.
    AfterLast,
    // The token is a greater index.
    PastEnd,
    // The value is no object, nor an array if the token may be an index.
    OtherKind,
}

// What a token leads to from a node.
#[derive(Clone, Copy)]
pub(crate) enum Entry {
    // To this node.
    There(CstNode),
    // To nothing.
    Stops(Stop),
}

// How far tokens lead from the document's value.
#[derive(Clone, Copy)]
pub(crate) enum Led {
    // The document has no value.
    Nothing,
    // To this value.
    To(CstNode),
    // To this node, from which the token of this number leads to nothing.
    Stops(CstNode, usize, Stop),
}

// Whether each byte of a text is a digit.
fn are_digits(text: &str) -> bool
    ensures { result ≡ list_all is_ascii_digit text.now }
{
    text.as_bytes().iter().all(|byte| byte.is_ascii_digit())
}

// Whether a token is an index, however large.
pub(super) fn is_index(token: &str) -> bool
    ensures { Decides result ((i : ℕ) × IsIndex (chars token.now) i) }
{
    if token.is_empty() {
        return false;
    }
    if is_padded(token) {
        return false;
    }
    are_digits(token)
}

// What a token leads to in an array.
fn enter_array<A: Allocator>(doc: &CstRootNode<A>, array: CstNode, token: &str) -> Entry
    requires in_document { HasNode doc.now array }
    requires array { content_of doc.now array ≡ Content.array }
    ensures entry { Enters doc.now array (chars token.now) result }
    ensures in_document { EntryHolds doc.now result }
{
    let number = array.number();
    if let Some(inner) = element(doc, number, token) {
        return Entry::There(node_at(doc.tree(), inner));
    }
    if element_place(doc, number, token).is_some() {
        return Entry::Stops(Stop::AfterLast);
    }
    if is_index(token) {
        return Entry::Stops(Stop::PastEnd);
    }
    Entry::Stops(Stop::OtherKind)
}

// The property or element to which a token leads from a node.
fn enter<A: Allocator + Copy>(
    doc: &CstRootNode<A>,
    node: CstNode,
    token: &str,
) -> Result<Entry, EditError>
    requires { HasNode doc.now node }
    ensures entry { IfOk result (Enters doc.now node (chars token.now)) }
    ensures in_document { IfOk result (EntryHolds doc.now) }
    ensures memory { IfErr result (λ e. e ≡ EditError.OutOfMemory) }
    ensures escaped { OnErr result (HoldsEscapedName (nodes_of doc.now) (number_of node)) }
{
    if let Some(object) = node.as_object() {
        return match property_of(doc, object, token, Which::First) {
            Ok(Some(property)) => Ok(Entry::There(property.node())),
            Ok(None) => Ok(Entry::Stops(Stop::NoMember)),
            Err(error) => Err(error),
        };
    }
    if node.as_array().is_none() {
        return Ok(Entry::Stops(Stop::OtherKind));
    }
    Ok(enter_array(doc, node, token))
}

// The value to which a token leads from a node.
fn step<A: Allocator + Copy>(
    doc: &CstRootNode<A>,
    node: CstNode,
    token: &str,
) -> Result<Entry, EditError>
    requires { HasNode doc.now node }
    ensures step { IfOk result (StepsTo doc.now node (chars token.now)) }
    ensures in_document { IfOk result (EntryHolds doc.now) }
    ensures memory { IfErr result (λ e. e ≡ EditError.OutOfMemory) }
    ensures escaped { OnErr result (HoldsEscapedName (nodes_of doc.now) (number_of node)) }
{
    let entry = match enter(doc, node, token) {
        Ok(Entry::There(entry)) => entry,
        Ok(Entry::Stops(stop)) => return Ok(Entry::Stops(stop)),
        Err(error) => return Err(error),
    };
    if node.as_object().is_none() {
        return Ok(Entry::There(entry));
    }
    match value_under(doc, entry.number()) {
        Some(value) => Ok(Entry::There(value)),
        None => Ok(Entry::Stops(Stop::OtherKind)),
    }
}

// How far tokens lead.
pub(super) fn lead<A: Allocator + Copy>(
    doc: &CstRootNode<A>,
    tokens: &[String<A>],
) -> Result<Led, EditError>
    ensures led { IfOk result (λ led. IsOfShown doc.now (IsLed doc.now (names_of tokens.now) led)) }
    ensures in_document { IfOk result (LedHolds doc.now (length tokens.now)) }
    ensures memory { IfErr result (λ e. e ≡ EditError.OutOfMemory) }
    ensures escaped { OnErr result (IsOfShown doc.now (λ d. PassesEscaped d (nodes_of doc.now) (names_of tokens.now))) }
{
    let Some(value) = doc.value() else {
        return Ok(Led::Nothing);
    };
    let mut node = value;
    for (number, token) in tokens.iter().enumerate() {
        match step(doc, node, token) {
            Ok(Entry::There(inner)) => node = inner,
            Ok(Entry::Stops(stop)) => return Ok(Led::Stops(node, number, stop)),
            Err(error) => return Err(error),
        }
    }
    Ok(Led::To(node))
}

/// The property or element itself to which a pointer leads, where [`find`](super::find) answers the value.
///
/// From the document's value each token leads on: in an object to the first property of that name, in an array to the
/// element of that index. None for the empty pointer, which refers to the document's value, and where a step finds no
/// array or object, no such name, or no such element; `-` leads to none.
///
/// Memory is allocated only to look up a name in an object that has a name with a backslash.
pub fn entry_at<A: Allocator + Copy>(
    doc: &CstRootNode<A>,
    pointer: &Pointer<A>,
) -> Result<Option<CstNode>, EditError>
    ensures entry { IfOk result (λ found. IsOfShown doc.now (FindsEntry doc.now (tokens_of pointer.now) found)) }
    ensures in_document { IfOk result (λ o. IfSome o (HasNode doc.now)) }
    ensures memory { IfErr result (λ e. e ≡ EditError.OutOfMemory) }
    ensures oom_only_if { OnErr result (IsOfShown doc.now (λ d. PassesEscaped d (nodes_of doc.now) (tokens_of pointer.now))) }
{
    let Some((last, front)) = pointer.tokens().split_last() else {
        return Ok(None);
    };
    let container = match lead(doc, front) {
        Ok(Led::To(container)) => container,
        Ok(Led::Nothing) => return Ok(None),
        Ok(Led::Stops(_, _, _)) => return Ok(None),
        Err(error) => return Err(error),
    };
    match enter(doc, container, last) {
        Ok(Entry::There(entry)) => Ok(Some(entry)),
        Ok(Entry::Stops(_)) => Ok(None),
        Err(error) => Err(error),
    }
}
