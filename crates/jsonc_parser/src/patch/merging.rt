//! Merge patches, made on a document whole or not at all.

ghost use Rattle.std.specs.Prelude.{◌≡◌, ◌++◌, ◌∷◌, [], IfErr, IfOk, OnErr, OnOk, Some};
ghost use Rattle.std.specs.Bool.{Decides};
ghost use Rattle.jsonc_edit.specs.Writing.{AreNamedOfNumbers, IsOfNumbers};
ghost use Rattle.jsonc_layout.specs.input.Views.{chars_of, members_plain, plain};
ghost use Rattle.jsonc_parser.specs.paths.Found.{names_of};
ghost use Rattle.jsonc_parser.specs.patch.Applied.{IsKept};
ghost use Rattle.jsonc_parser.specs.patch.Equality.{HasUniqueNames};
ghost use Rattle.jsonc_parser.specs.patch.FaultMessages.{merge_fault_text};
ghost use Rattle.jsonc_parser.specs.patch.Found.{IsOfShown};
ghost use Rattle.jsonc_parser.specs.patch.Merged.{MembersMergeIn, MergesIn, MergesWhatShown, MergeStopsWhatShown};
ghost use Rattle.jsonc_parser.specs.patch.MergeSteps.{Drops, FailsToMerge, FailsToMergeAll, FailsToSet, IsTwice, MergesNamed};
ghost use Rattle.jsonc_parser.specs.patch.MergeSteps.{IsReportedAs, ReachesWhatShown, RefersToObject, Sets};
ghost use Rattle.jsonc_parser.specs.patch.Merging.{made_of, members_made, IsThere};
ghost use Rattle.jsonc_parser.specs.patch.Pointer.{tokens_of};
ghost use Rattle.jsonc_text.specs.Plain.{member, no_members, object};

use super::equality::{Numbers, are_equal, is_null};
use super::making::{PatchCause, add, cause_of, remove};
use super::pointer::Pointer;
use super::quoting::write_repeated_name;
use super::reference::{follow, read};
use super::unique::see_unique_names;
use jsonc_cst::cst::{CstInputValue, CstRootNode, EditError, TypedNode};
use std::alloc::{AllocError, Allocator};
use std::error::Error;
use std::fmt;

/// Why a patch was not merged.
#[derive(Debug, Drop)]
pub enum MergeFault<A: Allocator> {
    /// This name occurs twice in an object of the patch, or in the object of the document that it is looked up in.
    RepeatedName(String<A>),
    /// A value would be nested deeper in the document than texts are parsed.
    NestingDepthExceeded,
    /// An allocation failed.
    OutOfMemory,
}

impl<A: Allocator> fmt::Display for MergeFault<A> {
    ghost output = { λ e. Some (merge_fault_text e) };

    ghost styled_output = { λ e _. Some (merge_fault_text e) };

    fn fmt<W: fmt::Write>(&self, f: &mut fmt::Formatter<W>) -> fmt::Result {
        match self {
            MergeFault::RepeatedName(name) => write_repeated_name(name.as_str(), f),
            MergeFault::NestingDepthExceeded => f.write_str("Maximum nesting depth exceeded"),
            MergeFault::OutOfMemory => f.write_str("Out of memory"),
        }
    }
}

impl<A: Allocator + fmt::Debug> Error for MergeFault<A> {}

// What merging makes of members where there are none: those of the value null are left out, and so in the others.
#[cycle(made)]
fn made_members<A: Allocator + Copy>(
    alloc: A,
    members: &[(String<A>, CstInputValue<A>)],
) -> Result<Vec<(String<A>, CstInputValue<A>), A>, AllocError>
    ensures { IfOk result (λ v. members_plain v.items ≡ members_made (members_plain members.now)) }
{
    let mut made = Vec::new(alloc);
    for member in members {
        if is_null(&member.1) {
            continue;
        }
        made.push((member.0.clone()?, made_value(alloc, &member.1)?))?;
    }
    Ok(made)
}

// What merging makes of a patch where there is no value.
#[cycle(made)]
fn made_value<A: Allocator + Copy>(
    alloc: A,
    patch: &CstInputValue<A>,
) -> Result<CstInputValue<A>, AllocError>
    ensures { IfOk result (λ v. plain v ≡ made_of (plain patch.now)) }
{
    match patch {
        CstInputValue::Object(members) => Ok(CstInputValue::Object(made_members(
            alloc,
            members.as_slice(),
        )?)),
        _ => patch.try_clone(),
    }
}

// Whether tokens refer to an object.
pub(super) fn is_object<A: Allocator + Copy>(
    doc: &CstRootNode<A>,
    tokens: &[String<A>],
) -> Result<bool, PatchCause<A>>
    ensures decided { IfOk result (λ b. IsOfShown doc.now (λ d. Decides b (RefersToObject d.value (names_of tokens.now)))) }
    ensures fails { IfErr result (λ cause. IsOfShown doc.now (λ d. IsTwice d.value (names_of tokens.now) cause)) }
{
    match follow(doc, tokens) {
        Ok(Some(node)) => Ok(node.as_object().is_some()),
        Ok(None) => Ok(false),
        Err(error) => Err(cause_of(error)),
    }
}

// Whether the value that a pointer refers to is equal to another, with the same texts of numbers.
fn is_there<A: Allocator + Copy>(
    doc: &CstRootNode<A>,
    pointer: &Pointer<A>,
    value: &CstInputValue<A>,
) -> Result<bool, PatchCause<A>>
    ensures decided { IfOk result (λ b. IsOfShown doc.now (λ d. Decides b (IsThere (plain value.now) (tokens_of pointer.now) d.value))) }
    ensures fails { IfErr result (λ cause. IsOfShown doc.now (λ d. IsTwice d.value (tokens_of pointer.now) cause)) }
{
    match read(doc, pointer) {
        Ok(Some(there)) => match are_equal(value, &there, Numbers::ByText) {
            Ok(equal) => Ok(equal),
            Err(_) => Err(PatchCause::Edit(EditError::OutOfMemory)),
        },
        Ok(None) => Ok(false),
        Err(error) => Err(cause_of(error)),
    }
}

// Puts what merging makes of a patch where a pointer leads, unless it is there.
fn set_value<A: Allocator + Copy>(
    doc: &mut CstRootNode<A>,
    pointer: &Pointer<A>,
    patch: &CstInputValue<A>,
) -> Result<(), PatchCause<A>>
    ensures set { OnOk result
        (ReachesWhatShown doc.old (λ o. IsOfNumbers o (plain patch.now)) (Sets (tokens_of pointer.now) (plain patch.now)) doc.new) }
    ensures fails { IfErr result (FailsToSet doc.old (tokens_of pointer.now)) }
{
    let Ok(new) = made_value(*doc.allocator(), patch) else {
        return Err(PatchCause::Edit(EditError::OutOfMemory));
    };
    match is_there(doc, pointer, &new) {
        Ok(true) => Ok(()),
        Ok(false) => match add(doc, pointer, &new) {
            Ok(()) => Ok(()),
            Err(cause) => Err(cause),
        },
        Err(cause) => Err(cause),
    }
}

// Removes the value that a pointer refers to, if there is one.
fn drop_value<A: Allocator + Copy>(
    doc: &mut CstRootNode<A>,
    pointer: &Pointer<A>,
) -> Result<(), PatchCause<A>>
    ensures dropped { OnOk result (ReachesWhatShown doc.old (λ o. Unit {0}) (Drops (tokens_of pointer.now)) doc.new) }
    ensures fails { IfErr result (λ cause. IsOfShown doc.old (λ d. IsTwice d.value (tokens_of pointer.now) cause)) }
{
    match remove(doc, pointer) {
        Ok(()) => Ok(()),
        Err(PatchCause::NoTarget) => Ok(()),
        Err(cause) => Err(cause),
    }
}

// Merges a patch into the value that a pointer refers to, or puts it where the pointer leads.
#[cycle(merging)]
fn merge_value<A: Allocator + Copy>(
    doc: &mut CstRootNode<A>,
    pointer: &mut Pointer<A>,
    patch: &CstInputValue<A>,
) -> Result<(), PatchCause<A>>
    ensures merged { OnOk result
        (ReachesWhatShown doc.old (λ o. IsOfNumbers o (plain patch.now)) (MergesIn (tokens_of pointer.old) (plain patch.now)) doc.new) }
    ensures pointer { OnOk result (tokens_of pointer.new ≡ tokens_of pointer.old) }
    ensures fails { IfErr result (FailsToMerge doc.old (tokens_of pointer.old) (plain patch.now)) }
{
    match patch {
        CstInputValue::Object(members) => merge_object(doc, pointer, members.as_slice(), patch),
        _ => set_value(doc, pointer, patch),
    }
}

// Merges a patch of these members into the object that a pointer refers to, or puts it where the pointer leads.
#[cycle(merging)]
fn merge_object<A: Allocator + Copy>(
    doc: &mut CstRootNode<A>,
    pointer: &mut Pointer<A>,
    members: &[(String<A>, CstInputValue<A>)],
    patch: &CstInputValue<A>,
) -> Result<(), PatchCause<A>>
    ensures merged { OnOk result (plain patch.now ≡ object (members_plain members.now)
        → ReachesWhatShown doc.old (λ o. IsOfNumbers o (plain patch.now)) (MergesIn (tokens_of pointer.old) (plain patch.now)) doc.new) }
    ensures pointer { OnOk result (tokens_of pointer.new ≡ tokens_of pointer.old) }
    ensures fails { IfErr result (λ cause. plain patch.now ≡ object (members_plain members.now)
        → FailsToMerge doc.old (tokens_of pointer.old) (plain patch.now) cause) }
{
    match is_object(doc, pointer.tokens()) {
        Ok(true) => merge_members(doc, pointer, members),
        Ok(false) => set_value(doc, pointer, patch),
        Err(cause) => Err(cause),
    }
}

// Merges a patch at a member, which null drops.
#[cycle(merging)]
fn merge_named<A: Allocator + Copy>(
    doc: &mut CstRootNode<A>,
    pointer: &mut Pointer<A>,
    patch: &CstInputValue<A>,
) -> Result<(), PatchCause<A>>
    ensures merged { OnOk result
        (ReachesWhatShown doc.old (λ o. IsOfNumbers o (plain patch.now)) (MergesNamed (tokens_of pointer.old) (plain patch.now)) doc.new) }
    ensures pointer { OnOk result (tokens_of pointer.new ≡ tokens_of pointer.old) }
    ensures fails { IfErr result (FailsToMerge doc.old (tokens_of pointer.old) (plain patch.now)) }
{
    if is_null(patch) {
        return drop_value(doc, pointer);
    }
    merge_value(doc, pointer, patch)
}

// Merges a patch at the member of a name in the object that a pointer refers to.
#[cycle(merging)]
fn merge_member<A: Allocator + Copy>(
    doc: &mut CstRootNode<A>,
    pointer: &mut Pointer<A>,
    name: &String<A>,
    patch: &CstInputValue<A>,
) -> Result<(), PatchCause<A>>
    ensures merged { OnOk result
        (ReachesWhatShown doc.old (λ o. IsOfNumbers o (plain patch.now))
        (MembersMergeIn (tokens_of pointer.old) (member (chars_of name.now) (plain patch.now) no_members)) doc.new) }
    ensures pointer { OnOk result (tokens_of pointer.new ≡ tokens_of pointer.old) }
    ensures fails { IfErr result (FailsToMerge doc.old (tokens_of pointer.old ++ chars_of name.now ∷ []) (plain patch.now)) }
{
    let Ok(token) = name.clone() else {
        return Err(PatchCause::Edit(EditError::OutOfMemory));
    };
    let Ok(()) = pointer.push(token) else {
        return Err(PatchCause::Edit(EditError::OutOfMemory));
    };
    match merge_named(doc, pointer, patch) {
        Ok(()) => {}
        Err(cause) => return Err(cause),
    }
    pointer.pop();
    Ok(())
}

// Merges members into the object that a pointer refers to.
#[cycle(merging)]
fn merge_members<A: Allocator + Copy>(
    doc: &mut CstRootNode<A>,
    pointer: &mut Pointer<A>,
    members: &[(String<A>, CstInputValue<A>)],
) -> Result<(), PatchCause<A>>
    ensures merged { OnOk result
        (ReachesWhatShown doc.old (λ o. AreNamedOfNumbers o (members_plain members.now)) (MembersMergeIn (tokens_of pointer.old) (members_plain members.now)) doc.new) }
    ensures pointer { OnOk result (tokens_of pointer.new ≡ tokens_of pointer.old) }
    ensures fails { IfErr result (FailsToMergeAll doc.old (tokens_of pointer.old) (members_plain members.now)) }
{
    for member in members {
        match merge_member(doc, pointer, &member.0, &member.1) {
            Ok(()) => {}
            Err(cause) => return Err(cause),
        }
    }
    Ok(())
}

// The fault of a cause. Others than a name that occurs twice, a value nested too deep and a lack of memory do not
// arise in a merge.
fn fault_of<A: Allocator>(cause: PatchCause<A>) -> MergeFault<A>
    ensures { IsReportedAs cause result }
{
    match cause {
        PatchCause::RepeatedName(name) => MergeFault::RepeatedName(name),
        PatchCause::NoTarget => MergeFault::OutOfMemory,
        PatchCause::IntoItself => MergeFault::OutOfMemory,
        PatchCause::NotEqual => MergeFault::OutOfMemory,
        PatchCause::TooLarge => MergeFault::OutOfMemory,
        PatchCause::Edit(EditError::NestingDepthExceeded) => MergeFault::NestingDepthExceeded,
        PatchCause::Edit(_) => MergeFault::OutOfMemory,
    }
}

// Merges a patch into a document's value.
fn merge_whole<A: Allocator + Copy>(
    doc: &mut CstRootNode<A>,
    patch: &CstInputValue<A>,
) -> Result<(), MergeFault<A>>
    ensures merged { OnOk result (MergesWhatShown doc.old (plain patch.now) doc.new) }
    ensures stops { IfErr result (MergeStopsWhatShown doc.old (plain patch.now)) }
{
    let mut pointer = Pointer::from_tokens(Vec::new(*doc.allocator()));
    match merge_value(doc, &mut pointer, patch) {
        Ok(()) => Ok(()),
        Err(cause) => Err(fault_of(cause)),
    }
}

/// Merges a patch into a document (RFC 7396).
///
/// An object is merged into an object member by member: the member of a name whose value is `null` is removed,
/// and any other value is merged in turn, or appended where there is no member of the name. Any other patch
/// takes the place of the value, and of an object the members with the value `null` are left out. A value that is there
/// already, with the same texts of numbers, is not touched. An array is a value as a whole.
///
/// A name that occurs twice in an object of the patch, or in the object of the document that it is looked
/// up in, is an error, and so is a value that would be nested deeper in the document than [`CstRootNode::parse`]
/// accepts. On an error the document and each of its nodes are as they were.
///
/// A document keeps no options: the numbers of the patch have to be numbers of those that it was parsed with.
/// The patch is merged into a copy of the document's nodes, which shares its text.
pub fn merge<A: Allocator + Copy>(
    doc: &mut CstRootNode<A>,
    patch: &CstInputValue<A>,
) -> Result<(), MergeFault<A>>
    ensures unique { OnOk result (HasUniqueNames (plain patch.now)) }
    ensures merged { OnOk result (MergesWhatShown doc.old (plain patch.now) doc.new) }
    ensures kept { OnErr result (IsKept doc.old doc.new) }
    ensures stops { IfErr result (MergeStopsWhatShown doc.old (plain patch.now)) }
{
    match see_unique_names(*doc.allocator(), patch) {
        Ok(()) => {}
        Err(fault) => return Err(fault),
    }
    let Ok(mut copy) = doc.try_clone() else {
        return Err(MergeFault::OutOfMemory);
    };
    match merge_whole(&mut copy, patch) {
        Ok(()) => {}
        Err(fault) => return Err(fault),
    }
    *doc = copy;
    Ok(())
}
