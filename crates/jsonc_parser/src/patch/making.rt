//! The operations of a patch, made on a document.

ghost use Rattle.std.specs.Prelude.{◌≡◌, [], chars, true, IfErr, IfOk, OnErr, OnOk, Some};
ghost use Rattle.jsonc_tree.specs.Content.{Content};
ghost use Rattle.jsonc_edit.specs.Writing.{IsOfNumbers};
ghost use Rattle.jsonc_layout.specs.input.Views.{plain};
ghost use Rattle.jsonc_cst.specs.Document.{content_of, nodes_of, HasNode};
ghost use Rattle.jsonc_cst.specs.Nodes.{number_of};
ghost use Rattle.jsonc_parser.specs.paths.Found.{names_of};
ghost use Rattle.jsonc_parser.specs.patch.Applied.{is_one_edit, AddsMember, FailsBelow, FailsWhatShown, HasCause};
ghost use Rattle.jsonc_parser.specs.patch.Applied.{IsKept, IsUnfound, MakesWhatShown, Takes};
ghost use Rattle.jsonc_parser.specs.patch.Asked.{asked, FitsIn};
ghost use Rattle.jsonc_parser.specs.patch.FaultMessages.{patch_cause_text};
ghost use Rattle.jsonc_parser.specs.patch.Found.{IsOfShown, RefersToNode};
ghost use Rattle.jsonc_parser.specs.patch.Operations as standard;
ghost use Rattle.jsonc_parser.specs.patch.Pointer.{tokens_of};
ghost use Rattle.jsonc_parser.specs.patch.References.{RefersTo};
ghost use Rattle.jsonc_parser.specs.patch.Room.{KeepsContents};

use super::equality::{Numbers, are_equal};
use super::moving::{copy_value, move_value};
use super::operation::Operation;
use super::pointer::Pointer;
use super::quoting::write_repeated_name;
use super::reference::{FindError, element_place, follow, member, read};
use super::taking::take;
use jsonc_cst::cst::{CstInputValue, CstNode, CstRootNode, EditError, TypedNode};
use std::alloc::Allocator;
use std::fmt;

/// Why an operation was not made.
#[derive(Debug, Drop)]
pub enum PatchCause<A: Allocator> {
    /// A pointer leads to nothing.
    NoTarget,
    /// More than one property of an object on the way has this name.
    RepeatedName(String<A>),
    /// A value was to be moved into itself.
    IntoItself,
    /// The value is not equal to the one that it was tested against.
    NotEqual,
    /// The document's text would have more bytes than are allowed, as [`Patch::apply_within`](super::Patch::apply_within)
    /// says.
    TooLarge,
    /// An edit was refused: a value would be nested too deep, or there was no memory.
    Edit(EditError),
}

impl<A: Allocator> fmt::Display for PatchCause<A> {
    ghost output = { λ e. Some (patch_cause_text e) };

    ghost styled_output = { λ e _. Some (patch_cause_text e) };

    fn fmt<W: fmt::Write>(&self, f: &mut fmt::Formatter<W>) -> fmt::Result {
        match self {
            PatchCause::NoTarget => f.write_str("Pointer leads to nothing"),
            PatchCause::RepeatedName(name) => write_repeated_name(name.as_str(), f),
            PatchCause::IntoItself => f.write_str("Value cannot be moved into itself"),
            PatchCause::NotEqual => f.write_str("Value is another"),
            PatchCause::TooLarge => f.write_str("Document would be larger than allowed"),
            PatchCause::Edit(error) => error.fmt(f),
        }
    }
}

// Makes one operation.
pub(super) fn make<A: Allocator + Copy>(
    doc: &mut CstRootNode<A>,
    operation: &Operation<A>,
) -> Result<(), PatchCause<A>>
    ensures made { OnOk result (MakesWhatShown doc.old (asked operation.now) (λ o. FitsIn o operation.now) doc.new) }
    ensures contents { OnOk result (KeepsContents (nodes_of doc.old) (nodes_of doc.new)) }
    ensures kept { OnErr result (is_one_edit operation.now ≡ true → IsKept doc.old doc.new) }
    ensures fails { IfErr result (FailsWhatShown doc.old (asked operation.now)) }
{
    match operation {
        Operation::Add(path, value) => add(doc, path, value),
        Operation::Remove(path) => remove(doc, path),
        Operation::Replace(path, value) => replace(doc, path, value),
        Operation::Move(from, path) => move_value(doc, from, path),
        Operation::Copy(from, path) => copy_value(doc, from, path),
        Operation::Test(path, value) => test(doc, path, value),
    }
}

// The cause of a pointer that was not followed.
pub(super) fn cause_of<A: Allocator>(error: FindError<A>) -> PatchCause<A>
    ensures { HasCause error result }
{
    match error {
        FindError::RepeatedName(name) => PatchCause::RepeatedName(name),
        FindError::OutOfMemory => PatchCause::Edit(EditError::OutOfMemory),
    }
}

// The value that tokens refer to, where there has to be one.
pub(super) fn target<A: Allocator + Copy>(
    doc: &CstRootNode<A>,
    tokens: &[String<A>],
) -> Result<CstNode, PatchCause<A>>
    ensures found { IfOk result
        (λ node. IsOfShown doc.now (λ d. RefersToNode d (nodes_of doc.now) (names_of tokens.now) (number_of node))) }
    ensures in_document { IfOk result (HasNode doc.now) }
    ensures fails { IfErr result (λ cause. IsOfShown doc.now (λ d. IsUnfound d.value (names_of tokens.now) cause)) }
{
    match follow(doc, tokens) {
        Ok(Some(node)) => Ok(node),
        Ok(None) => Err(PatchCause::NoTarget),
        Err(error) => Err(cause_of(error)),
    }
}

// The value that a pointer refers to, taken; of equal names the last value is at the first place.
fn value_at<A: Allocator + Copy>(
    doc: &CstRootNode<A>,
    pointer: &Pointer<A>,
) -> Result<CstInputValue<A>, PatchCause<A>>
    ensures taken { IfOk result (λ v. IsOfShown doc.now (λ d. Takes d (tokens_of pointer.now) (plain v))) }
    ensures fails { IfErr result (λ cause. IsOfShown doc.now (λ d. IsUnfound d.value (tokens_of pointer.now) cause)) }
{
    match read(doc, pointer) {
        Ok(Some(value)) => Ok(value),
        Ok(None) => Err(PatchCause::NoTarget),
        Err(error) => Err(cause_of(error)),
    }
}

// The value that a pointer refers to, taken with all of its members, those of equal names too.
pub(super) fn whole_at<A: Allocator + Copy>(
    doc: &CstRootNode<A>,
    pointer: &Pointer<A>,
) -> Result<CstInputValue<A>, PatchCause<A>>
    ensures taken { IfOk result (λ v. IsOfShown doc.now (λ d. RefersTo d.value (tokens_of pointer.now) (plain v))) }
    ensures fails { IfErr result (λ cause. IsOfShown doc.now (λ d. IsUnfound d.value (tokens_of pointer.now) cause)) }
{
    let node = match target(doc, pointer.tokens()) {
        Ok(node) => node,
        Err(cause) => return Err(cause),
    };
    match take(*doc.allocator(), doc.tree(), node.number()) {
        Ok(Some(value)) => Ok(value),
        Ok(None) => Err(PatchCause::NoTarget),
        Err(_) => Err(PatchCause::Edit(EditError::OutOfMemory)),
    }
}

// Removes the value that a pointer refers to.
pub(super) fn remove<A: Allocator + Copy>(
    doc: &mut CstRootNode<A>,
    pointer: &Pointer<A>,
) -> Result<(), PatchCause<A>>
    ensures made { OnOk result (MakesWhatShown doc.old (standard.remove (tokens_of pointer.now)) (λ o. Unit {0}) doc.new) }
    ensures contents { OnOk result (KeepsContents (nodes_of doc.old) (nodes_of doc.new)) }
    ensures kept { OnErr result (IsKept doc.old doc.new) }
    ensures fails { IfErr result (FailsWhatShown doc.old (standard.remove (tokens_of pointer.now))) }
{
    let node = match target(doc, pointer.tokens()) {
        Ok(node) => node,
        Err(cause) => return Err(cause),
    };
    match doc.remove_there(node) {
        Ok(()) => Ok(()),
        Err(error) => Err(PatchCause::Edit(error)),
    }
}

// Replaces the value that a pointer refers to.
fn replace<A: Allocator + Copy>(
    doc: &mut CstRootNode<A>,
    pointer: &Pointer<A>,
    value: &CstInputValue<A>,
) -> Result<(), PatchCause<A>>
    ensures made { OnOk result
        (MakesWhatShown doc.old (standard.replace (tokens_of pointer.now) (plain value.now)) (λ o. IsOfNumbers o (plain value.now)) doc.new) }
    ensures contents { OnOk result (KeepsContents (nodes_of doc.old) (nodes_of doc.new)) }
    ensures kept { OnErr result (IsKept doc.old doc.new) }
    ensures fails { IfErr result (FailsWhatShown doc.old (standard.replace (tokens_of pointer.now) (plain value.now))) }
{
    let node = match target(doc, pointer.tokens()) {
        Ok(node) => node,
        Err(cause) => return Err(cause),
    };
    match doc.replace_there(node, value) {
        Ok(()) => Ok(()),
        Err(error) => Err(PatchCause::Edit(error)),
    }
}

// Sets the document's value.
fn add_whole<A: Allocator + Copy>(
    doc: &mut CstRootNode<A>,
    value: &CstInputValue<A>,
) -> Result<(), PatchCause<A>>
    ensures made { OnOk result (MakesWhatShown doc.old (standard.add [] (plain value.now)) (λ o. IsOfNumbers o (plain value.now)) doc.new) }
    ensures contents { OnOk result (KeepsContents (nodes_of doc.old) (nodes_of doc.new)) }
    ensures kept { OnErr result (IsKept doc.old doc.new) }
    ensures fails { IfErr result (FailsWhatShown doc.old (standard.add [] (plain value.now))) }
{
    match doc.set_root_there(value) {
        Ok(()) => Ok(()),
        Err(error) => Err(PatchCause::Edit(error)),
    }
}

// Adds a value where a pointer leads.
pub(super) fn add<A: Allocator + Copy>(
    doc: &mut CstRootNode<A>,
    pointer: &Pointer<A>,
    value: &CstInputValue<A>,
) -> Result<(), PatchCause<A>>
    ensures made { OnOk result
        (MakesWhatShown doc.old (standard.add (tokens_of pointer.now) (plain value.now)) (λ o. IsOfNumbers o (plain value.now)) doc.new) }
    ensures contents { OnOk result (KeepsContents (nodes_of doc.old) (nodes_of doc.new)) }
    ensures kept { OnErr result (IsKept doc.old doc.new) }
    ensures fails { IfErr result (FailsWhatShown doc.old (standard.add (tokens_of pointer.now) (plain value.now))) }
{
    let Some((last, front)) = pointer.tokens().split_last() else {
        return match add_whole(doc, value) {
            Ok(()) => Ok(()),
            Err(cause) => Err(cause),
        };
    };
    let container = match target(doc, front) {
        Ok(container) => container,
        Err(cause) => return Err(cause),
    };
    match add_below(doc, container, last, value) {
        Ok(()) => Ok(()),
        Err(cause) => Err(cause),
    }
}

// Adds a value where a token leads from a node.
fn add_below<A: Allocator + Copy>(
    doc: &mut CstRootNode<A>,
    container: CstNode,
    token: &str,
    value: &CstInputValue<A>,
) -> Result<(), PatchCause<A>>
    requires { HasNode doc.old container }
    ensures made { OnOk result (AddsMember doc.old container (chars token.now) (plain value.now) doc.new) }
    ensures contents { OnOk result (KeepsContents (nodes_of doc.old) (nodes_of doc.new)) }
    ensures kept { OnErr result (IsKept doc.old doc.new) }
    ensures fails { IfErr result (FailsBelow doc.old container (chars token.now) (plain value.now)) }
{
    if container.as_array().is_some() {
        return add_element(doc, container, token, value);
    }
    if container.as_object().is_some() {
        return add_member(doc, container, token, value);
    }
    Err(PatchCause::NoTarget)
}

// Adds an element to an array.
fn add_element<A: Allocator + Copy>(
    doc: &mut CstRootNode<A>,
    array: CstNode,
    token: &str,
    value: &CstInputValue<A>,
) -> Result<(), PatchCause<A>>
    requires in_document { HasNode doc.old array }
    requires array { content_of doc.old array ≡ Content.array }
    ensures made { OnOk result (AddsMember doc.old array (chars token.now) (plain value.now) doc.new) }
    ensures contents { OnOk result (KeepsContents (nodes_of doc.old) (nodes_of doc.new)) }
    ensures kept { OnErr result (IsKept doc.old doc.new) }
    ensures fails { IfErr result (FailsBelow doc.old array (chars token.now) (plain value.now)) }
{
    let Some(place) = element_place(doc, array.number(), token) else {
        return Err(PatchCause::NoTarget);
    };
    match place {
        Some(index) => match doc.insert_element_there(array, index, value) {
            Ok(()) => Ok(()),
            Err(error) => Err(PatchCause::Edit(error)),
        },
        None => match doc.append_element_there(array, value) {
            Ok(()) => Ok(()),
            Err(error) => Err(PatchCause::Edit(error)),
        },
    }
}

// Adds a member to an object, or replaces the value of the one that has its name.
fn add_member<A: Allocator + Copy>(
    doc: &mut CstRootNode<A>,
    object: CstNode,
    name: &str,
    value: &CstInputValue<A>,
) -> Result<(), PatchCause<A>>
    requires in_document { HasNode doc.old object }
    requires object { content_of doc.old object ≡ Content.object }
    ensures made { OnOk result (AddsMember doc.old object (chars name.now) (plain value.now) doc.new) }
    ensures contents { OnOk result (KeepsContents (nodes_of doc.old) (nodes_of doc.new)) }
    ensures kept { OnErr result (IsKept doc.old doc.new) }
    ensures fails { IfErr result (FailsBelow doc.old object (chars name.now) (plain value.now)) }
{
    match member(doc, object, name) {
        Ok(Some(node)) => match doc.replace_there(node, value) {
            Ok(()) => Ok(()),
            Err(error) => Err(PatchCause::Edit(error)),
        },
        Ok(None) => match doc.append_property_there(object, name, value) {
            Ok(()) => Ok(()),
            Err(error) => Err(PatchCause::Edit(error)),
        },
        Err(error) => Err(cause_of(error)),
    }
}

// Sees that the value that a pointer refers to is equal to another.
fn test<A: Allocator + Copy>(
    doc: &CstRootNode<A>,
    pointer: &Pointer<A>,
    value: &CstInputValue<A>,
) -> Result<(), PatchCause<A>>
    ensures tests { OnOk result (IsOfShown doc.now (λ d. standard.Tests (tokens_of pointer.now) (plain value.now) d.value d.value)) }
    ensures fails { IfErr result (FailsWhatShown doc.now (standard.test (tokens_of pointer.now) (plain value.now))) }
{
    let found = match value_at(doc, pointer) {
        Ok(found) => found,
        Err(cause) => return Err(cause),
    };
    match are_equal(value, &found, Numbers::ByValue) {
        Ok(true) => Ok(()),
        Ok(false) => Err(PatchCause::NotEqual),
        Err(_) => Err(PatchCause::Edit(EditError::OutOfMemory)),
    }
}
