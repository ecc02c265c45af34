//! Values put at paths of names, and dropped.

ghost use Rattle.std.specs.Bool.{Decides};
ghost use Rattle.std.specs.Prelude.{◌≡◌, ◌<◌, ◌∷◌, [], length, true, IfErr, IfOk, OnErr, OnOk};
ghost use Rattle.jsonc_layout.specs.input.Views.{chars_of, plain};
ghost use Rattle.jsonc_run.specs.Edits.{is_whole, operation_of, unsorted, EditStep};
ghost use Rattle.jsonc_run.specs.Refusals.{FailsWith};
ghost use Rattle.jsonc_cst.specs.Document.{nodes_of, tree_of};
ghost use Rattle.jsonc_parser.specs.declared.paths.which.Which.TheVariants.{First, Last};
ghost use Rattle.jsonc_parser.specs.paths.Calls.{DropsWhatShown, FailsToPut, FitsAt, IsReadThere, MakesOneEdit};
ghost use Rattle.jsonc_parser.specs.paths.Calls.{PutsWhatShown, WantsMemory};
ghost use Rattle.jsonc_parser.specs.paths.Choices.{Chooses, IsAppending};
ghost use Rattle.jsonc_parser.specs.paths.Found.{names_of};
ghost use Rattle.jsonc_parser.specs.paths.Memory.{DecidesMustStay, WantsForSomething, WantsToLookUp, WantsToPut};
ghost use Rattle.jsonc_parser.specs.paths.Settings.{nest};

use crate::paths::find::find_at;
use crate::paths::reached::{Reached, is_in_the_way, reach};
use crate::paths::which::Which;
use jsonc_cst::cst::{CstInputValue, CstRootNode, EditError};
use jsonc_run::{Edit, Over};
use jsonc_walk::context::MAXIMUM_NESTING;
use std::alloc::Allocator;

// A name, as text of its own.
pub(crate) fn copy_of<A: Allocator + Copy>(
    alloc: A,
    name: &String<A>,
) -> Result<String<A>, EditError>
    ensures copy { IfOk result (λ s. chars_of s ≡ chars_of name.now) }
    ensures memory { IfErr result (λ e. e ≡ EditError.OutOfMemory) }
{
    match String::from_str(alloc, name) {
        Ok(copy) => Ok(copy),
        Err(_) => Err(EditError::OutOfMemory),
    }
}

// A value in an object of one property.
fn nested_once<A: Allocator + Copy>(
    alloc: A,
    name: &String<A>,
    value: CstInputValue<A>,
) -> Result<CstInputValue<A>, EditError>
    ensures nested { IfOk result (λ v. plain v ≡ nest (chars_of name.now ∷ []) (plain value)) }
    ensures memory { IfErr result (λ e. e ≡ EditError.OutOfMemory) }
{
    let copy = match copy_of(alloc, name) {
        Ok(copy) => copy,
        Err(error) => return Err(error),
    };
    let mut properties = Vec::new(alloc);
    match properties.push((copy, value)) {
        Ok(()) => Ok(CstInputValue::Object(properties)),
        Err(_) => Err(EditError::OutOfMemory),
    }
}

// A value in objects of one property each, for each name one.
pub(crate) fn nested<A: Allocator + Copy>(
    alloc: A,
    names: &[String<A>],
    value: CstInputValue<A>,
) -> Result<CstInputValue<A>, EditError>
    ensures nested { IfOk result (λ v. plain v ≡ nest (names_of names.now) (plain value)) }
    ensures memory { IfErr result (λ e. e ≡ EditError.OutOfMemory) }
{
    let mut nested = value;
    let mut count = names.len();
    while count > 0 {
        count -= 1;
        nested = match nested_once(alloc, &names[count], nested) {
            Ok(nested) => nested,
            Err(error) => return Err(error),
        };
    }
    Ok(nested)
}

// The edit that appends a property of the first of these names, with the rest nested.
fn appending<A: Allocator + Copy>(
    alloc: A,
    path: Vec<usize, A>,
    names: &[String<A>],
    count: usize,
    value: CstInputValue<A>,
) -> Result<Option<Edit<A>>, EditError>
    requires { count < length names.now }
    ensures appends { IfOk result (IsAppending path.items (names_of names.now) count (plain value)) }
    ensures memory { IfErr result (λ e. e ≡ EditError.OutOfMemory) }
{
    let name = match copy_of(alloc, &names[count]) {
        Ok(name) => name,
        Err(error) => return Err(error),
    };
    match nested(alloc, &names[count + 1..], value) {
        Ok(value) => Ok(Some(Edit::AppendProperty(path, name, value))),
        Err(error) => Err(error),
    }
}

// The edit that puts a value at names, or none where a value on the way is to stay.
fn choose<A: Allocator + Copy>(
    doc: &CstRootNode<A>,
    names: &[String<A>],
    value: CstInputValue<A>,
    over: Over,
    which: Which,
) -> Result<Option<Edit<A>>, EditError>
    ensures chosen { IfOk result (Chooses which doc.now (plain value) over (names_of names.now)) }
    ensures memory { IfErr result (λ e. e ≡ EditError.OutOfMemory) }
{
    let alloc = *doc.allocator();
    match reach(doc, names, which) {
        Ok(Reached::Nothing) => match nested(alloc, names, value) {
            Ok(value) => Ok(Some(Edit::SetRoot(value))),
            Err(error) => Err(error),
        },
        Ok(Reached::Value(path)) => {
            if names.is_empty() {
                Ok(Some(Edit::SetRoot(value)))
            } else {
                Ok(Some(Edit::SetValue(path, value)))
            }
        }
        Ok(Reached::Missing(path, count)) => appending(alloc, path, names, count, value),
        Ok(Reached::Another(path, count)) => match over {
            Over::Keep => Ok(None),
            Over::Replace => match nested(alloc, &names[count..], value) {
                Ok(value) => Ok(Some(Edit::Replace(path, value))),
                Err(error) => Err(error),
            },
        },
        Err(error) => Err(error),
    }
}

// Whether a value of another kind than an object is in the way of names, and is to stay.
fn must_stay<A: Allocator + Copy>(
    doc: &CstRootNode<A>,
    names: &[String<A>],
    over: Over,
    which: Which,
) -> Result<bool, EditError>
    ensures stays { IfOk result (DecidesMustStay which over (nodes_of doc.now) (names_of names.now)) }
    ensures memory { IfErr result (λ e. e ≡ EditError.OutOfMemory) }
    ensures oom_only_if { OnErr result (WantsToLookUp which (nodes_of doc.now) (names_of names.now)) }
{
    match over {
        Over::Keep => is_in_the_way(doc, names, which),
        Over::Replace => Ok(false),
    }
}

// Makes one edit, whole or not at all.
fn make_one<A: Allocator + Copy>(doc: &mut CstRootNode<A>, edit: Edit<A>) -> Result<(), EditError>
    requires { is_whole edit ≡ true }
    ensures made { OnOk result (EditStep (nodes_of doc.old) (operation_of unsorted edit) (nodes_of doc.new)) }
    ensures error { IfErr result (FailsWith (nodes_of doc.old) (operation_of unsorted edit)) }
    ensures document { OnErr result (tree_of doc.new ≡ tree_of doc.old) }
{
    doc.make(&edit)
}

// Whether a value fits at names, at which it has an object and a property around it for each name.
pub(crate) fn fits_at<A: Allocator>(names: &[String<A>], value: &CstInputValue<A>) -> bool
    ensures { Decides result (FitsAt (names_of names.now) (plain value.now)) }
{
    if names.len() > MAXIMUM_NESTING / 2 {
        return false;
    }
    value.is_within(MAXIMUM_NESTING - 2 * names.len())
}

// Sets the value at a path of names by one edit.
fn put<A: Allocator + Copy>(
    doc: &mut CstRootNode<A>,
    names: &[String<A>],
    value: CstInputValue<A>,
    over: Over,
    which: Which,
) -> Result<bool, EditError>
    ensures put { IfOk result
        (PutsWhatShown which (plain value) over (names_of names.now) (nodes_of doc.old) (nodes_of doc.new)) }
    ensures one { IfOk result (MakesOneEdit (nodes_of doc.old) (nodes_of doc.new)) }
    ensures fits { OnOk result (FitsAt (names_of names.now) (plain value)) }
    ensures error { IfErr result (FailsToPut (nodes_of doc.old) (names_of names.now) (plain value)) }
    ensures oom_only_if { IfErr result (λ e. e ≡ EditError.OutOfMemory
        → WantsToPut which over (nodes_of doc.old) (names_of names.now)) }
    ensures document { OnErr result (tree_of doc.new ≡ tree_of doc.old) }
{
    // The depth is seen first, before anything is nested or laid out.
    if !fits_at(names, &value) {
        return Err(EditError::NestingDepthExceeded);
    }
    // What is to stay is seen before memory is allocated for the edit.
    let stays = match must_stay(doc, names, over, which) {
        Ok(stays) => stays,
        Err(error) => return Err(error),
    };
    if stays {
        return Ok(false);
    }
    let edit = match choose(doc, names, value, over, which) {
        Ok(Some(edit)) => edit,
        Ok(None) => return Ok(false),
        Err(error) => return Err(error),
    };
    match make_one(doc, edit) {
        Ok(()) => Ok(true),
        Err(error) => Err(error),
    }
}

/// Sets the value at a path of names by one edit, and answers whether it did.
///
/// With no names it is the document's value. Where all names lead on, the value of the last one's
/// property is replaced. Where a name is missing, a property of it is appended to the object that
/// those before it lead to, with the rest nested in new objects; in a document without a value all
/// nested is its first. A value of another kind than an object on the way stays with `Over::Keep`,
/// and the answer is false; with `Over::Replace` it is replaced by the rest nested.
/// `{"a": {"b": 1}}` with 2 at `a`, `b` is `{"a": {"b": 2}}`.
///
/// A value that would be nested deeper than [`CstRootNode::parse`] accepts is refused as
/// `NestingDepthExceeded`, before the document is looked at: each name counts two, an object and its
/// property, so a path of more than 256 names is always refused. So a document that can be parsed
/// stays one.
///
/// In a document that was parsed, and changed by no edit of single leaves, the one other error is an
/// allocation failure. Memory is allocated only to look up a name in an object that has a name with
/// a backslash, or where nothing is in the way that is to be kept. On an error the document stays
/// as it was.
pub fn set_at<A: Allocator + Copy>(
    doc: &mut CstRootNode<A>,
    names: &[String<A>],
    value: CstInputValue<A>,
    over: Over,
) -> Result<bool, EditError>
    ensures put { IfOk result
        (PutsWhatShown First (plain value) over (names_of names.now) (nodes_of doc.old) (nodes_of doc.new)) }
    ensures one { IfOk result (MakesOneEdit (nodes_of doc.old) (nodes_of doc.new)) }
    ensures fits { OnOk result (FitsAt (names_of names.now) (plain value)) }
    ensures error { IfErr result (FailsToPut (nodes_of doc.old) (names_of names.now) (plain value)) }
    ensures oom_only_if { IfErr result (λ e. e ≡ EditError.OutOfMemory
        → WantsToPut First over (nodes_of doc.old) (names_of names.now)) }
    ensures document { OnErr result (tree_of doc.new ≡ tree_of doc.old) }
{
    put(doc, names, value, over, Which::First)
}

/// Sets the value at a path of names, where of equal names the last leads on, and answers whether it did.
///
/// So it is put where readers find it that take of equal names the last, as [`crate::parse_to_value`]: what that
/// reads of the text afterwards has the value at the names. All else is as [`set_at`] says. `{"a": 1, "a": 2}` with 3 at
/// `a` is `{"a": 1, "a": 3}`.
pub fn set_last_at<A: Allocator + Copy>(
    doc: &mut CstRootNode<A>,
    names: &[String<A>],
    value: CstInputValue<A>,
    over: Over,
) -> Result<bool, EditError>
    ensures put { IfOk result
        (PutsWhatShown Last (plain value) over (names_of names.now) (nodes_of doc.old) (nodes_of doc.new)) }
    ensures read { IfOk result (IsReadThere (plain value) (names_of names.now) (nodes_of doc.old) (nodes_of doc.new)) }
    ensures one { IfOk result (MakesOneEdit (nodes_of doc.old) (nodes_of doc.new)) }
    ensures fits { OnOk result (FitsAt (names_of names.now) (plain value)) }
    ensures error { IfErr result (FailsToPut (nodes_of doc.old) (names_of names.now) (plain value)) }
    ensures oom_only_if { IfErr result (λ e. e ≡ EditError.OutOfMemory
        → WantsToPut Last over (nodes_of doc.old) (names_of names.now)) }
    ensures document { OnErr result (tree_of doc.new ≡ tree_of doc.old) }
{
    put(doc, names, value, over, Which::Last)
}

/// Removes what is at a path of names, and answers whether something was there.
///
/// That is the first property of the last name, in the object that those before it lead to, or with
/// no names the document's value. `{ "a": 1, "b": 2 }` without what is at `b` is `{ "a": 1 }`.
///
/// In a document that was parsed, and changed by no edit of single leaves, the one error is an
/// allocation failure. Memory is allocated only to look up a name in an object that has a name with
/// a backslash, or where something is there. On an error the document stays as it was.
pub fn remove_at<A: Allocator + Copy>(
    doc: &mut CstRootNode<A>,
    names: &[String<A>],
) -> Result<bool, EditError>
    ensures dropped { IfOk result
        (DropsWhatShown (names_of names.now) (nodes_of doc.old) (nodes_of doc.new)) }
    ensures one { IfOk result (MakesOneEdit (nodes_of doc.old) (nodes_of doc.new)) }
    ensures error { IfErr result (WantsMemory (nodes_of doc.old)) }
    ensures oom_only_if { OnErr result (WantsForSomething (nodes_of doc.old) (names_of names.now)) }
    ensures document { OnErr result (tree_of doc.new ≡ tree_of doc.old) }
{
    // Whether something is there is seen before memory is allocated for the edit.
    match find_at(doc, names) {
        Ok(Some(_)) => {}
        Ok(None) => return Ok(false),
        Err(error) => return Err(error),
    }
    let path = match reach(doc, names, Which::First) {
        Ok(Reached::Value(path)) => path,
        Ok(Reached::Nothing) => return Ok(false),
        Ok(Reached::Missing(_, _)) => return Ok(false),
        Ok(Reached::Another(_, _)) => return Ok(false),
        Err(error) => return Err(error),
    };
    match make_one(doc, Edit::Remove(path)) {
        Ok(()) => Ok(true),
        Err(error) => Err(error),
    }
}
