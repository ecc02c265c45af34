//! Edits of C, read.
ghost use Rattle.std.specs.Prelude.{◌≡◌, IfErr, IfOk, IsUtf8, OnOk, string_bytes};
ghost use Rattle.jsonc_c.specs.Edits.{AreReadAs, HasName, HasValue, IsReadAs, IsUnread, IsUnreadIn, IsValueOf, IsWanting};
ghost use Rattle.jsonc_c.specs.Edits.{IsOfName, IsOfPath, IsOfProperty, IsOfRoot, IsOfValue, mode_of, over_of, place_of, shape_of};

use crate::edits::{
    APPEND_ELEMENT, APPEND_PROPERTY, CLEAR_ROOT, ENSURE_MULTILINE, ENSURE_PROPERTY, ENSURE_ROOT,
    ENSURE_VALUE, INSERT_COMMENT, INSERT_ELEMENT, INSERT_PROPERTY, JsoncEdit, REMOVE,
    REMOVE_COMMENT, RENAME_PROPERTY, REPLACE, REPLACE_PROPERTY, SET_BOOLEAN, SET_ROOT,
    SET_TRAILING_COMMAS, SET_VALUE, SORT,
};
use crate::fault::{
    JSON, JsoncFault, NO_SUCH_EDIT, NO_VALUE, OUT_OF_MEMORY, WORD_NOT_UTF8, tell_error,
};
use jsonc_parser::ParseOptions;
use jsonc_parser::cst::{CstInputValue, Edit, Over, Place, Shape, TrailingCommaMode, input};
use std::alloc::Global;

fn shape_of(is_array: bool) -> Shape
    ensures { result ≡ shape_of is_array }
{
    if is_array {
        Shape::Array
    } else {
        Shape::Object
    }
}

fn over_of(replaces: bool) -> Over
    ensures { result ≡ over_of replaces }
{
    if replaces { Over::Replace } else { Over::Keep }
}

fn mode_of(never: bool) -> TrailingCommaMode
    ensures { result ≡ mode_of never }
{
    if never {
        TrailingCommaMode::Never
    } else {
        TrailingCommaMode::IfMultiline
    }
}

fn place_of(after: bool) -> Place
    ensures { result ≡ place_of after }
{
    if after { Place::After } else { Place::Above }
}

/// The path of an edit.
fn path_of(alloc: Global, edit: &JsoncEdit) -> Result<Vec<usize>, u32>
    ensures path { IfOk result (λ path. path.items ≡ edit.now.path.now) }
    ensures memory { IfErr result (λ status. status ≡ 1) }
{
    match Vec::from_slice(alloc, edit.path) {
        Ok(path) => Ok(path),
        Err(_) => Err(OUT_OF_MEMORY),
    }
}

/// Its name, or the text of its comment.
fn name_of(alloc: Global, edit: &JsoncEdit) -> Result<String, u32>
    requires { HasName edit.now.kind }
    ensures name { IfOk result (λ name. string_bytes name ≡ edit.now.name.now) }
    ensures refused { IfErr result (λ status. IsWanting edit.now status) }
{
    let Ok(name) = str::from_utf8(edit.name) else {
        return Err(WORD_NOT_UTF8);
    };
    match String::from_str(alloc, name) {
        Ok(name) => Ok(name),
        Err(_) => Err(OUT_OF_MEMORY),
    }
}

/// The value of its JSON text, which is parsed under the default options.
fn value_of(
    alloc: Global,
    edit: &JsoncEdit,
    fault: &mut JsoncFault,
) -> Result<CstInputValue<Global>, u32>
    requires { HasValue edit.now.kind }
    ensures value { IfOk result (IsValueOf edit.now) }
    ensures refused { IfErr result (λ status. IsUnread edit.now status fault.new) }
    ensures left { OnOk result (fault.new ≡ fault.old) }
    ensures untold { IfErr result (λ status. ¬ (status ≡ 7) → fault.new ≡ fault.old) }
{
    let Ok(json) = str::from_utf8(edit.json) else {
        return Err(WORD_NOT_UTF8);
    };
    match input::from_json(alloc, json, &ParseOptions::default()) {
        Ok(Some(value)) => Ok(value),
        Ok(None) => Err(NO_VALUE),
        Err(error) => Err(tell_error(alloc, &error, JSON, fault)),
    }
}

/// An edit of the document's value, or of a comment.
fn root_edit(alloc: Global, edit: &JsoncEdit, fault: &mut JsoncFault) -> Result<Edit<Global>, u32>
    requires { IsOfRoot edit.now.kind }
    ensures read { IfOk result (IsReadAs edit.now) }
    ensures refused { IfErr result (λ status. IsUnread edit.now status fault.new) }
    ensures left { OnOk result (fault.new ≡ fault.old) }
    ensures untold { IfErr result (λ status. ¬ (status ≡ 7) → fault.new ≡ fault.old) }
{
    match edit.kind {
        REMOVE_COMMENT => Ok(Edit::RemoveComment(edit.index)),
        CLEAR_ROOT => Ok(Edit::ClearRoot),
        ENSURE_ROOT => Ok(Edit::EnsureRoot(shape_of(edit.first), over_of(edit.second))),
        _ => match value_of(alloc, edit, fault) {
            Ok(value) => Ok(Edit::SetRoot(value)),
            Err(status) => Err(status),
        },
    }
}

/// An edit at a path that writes no value.
fn path_edit(alloc: Global, edit: &JsoncEdit) -> Result<Edit<Global>, u32>
    requires { IsOfPath edit.now.kind }
    ensures read { IfOk result (IsReadAs edit.now) }
    ensures memory { IfErr result (λ status. status ≡ 1) }
{
    let path = match path_of(alloc, edit) {
        Ok(path) => path,
        Err(status) => return Err(status),
    };
    match edit.kind {
        REMOVE => Ok(Edit::Remove(path)),
        ENSURE_VALUE => Ok(Edit::EnsureValue(path, shape_of(edit.first))),
        SET_BOOLEAN => Ok(Edit::SetBoolean(path, edit.first)),
        ENSURE_MULTILINE => Ok(Edit::EnsureMultiline(path)),
        SET_TRAILING_COMMAS => Ok(Edit::SetTrailingCommas(path, mode_of(edit.first))),
        _ => Ok(Edit::Sort(path, edit.first, edit.second)),
    }
}

/// An edit at a path that writes a value.
#[tactic(auto, using(crate::proofs::Unread::unread_memory, crate::proofs::Unread::unread_wanting))]
fn value_edit(alloc: Global, edit: &JsoncEdit, fault: &mut JsoncFault) -> Result<Edit<Global>, u32>
    requires { IsOfValue edit.now.kind }
    ensures read { IfOk result (IsReadAs edit.now) }
    ensures refused { IfErr result (λ status. IsUnread edit.now status fault.new) }
    ensures left { OnOk result (fault.new ≡ fault.old) }
    ensures untold { IfErr result (λ status. ¬ (status ≡ 7) → fault.new ≡ fault.old) }
{
    let value = match value_of(alloc, edit, fault) {
        Ok(value) => value,
        Err(status) => return Err(status),
    };
    let path = match path_of(alloc, edit) {
        Ok(path) => path,
        Err(status) => return Err(status),
    };
    match edit.kind {
        REPLACE => Ok(Edit::Replace(path, value)),
        SET_VALUE => Ok(Edit::SetValue(path, value)),
        INSERT_ELEMENT => Ok(Edit::InsertElement(path, edit.index, value)),
        _ => Ok(Edit::AppendElement(path, value)),
    }
}

/// An edit at a path that has a name or a comment's text, and no value.
fn name_edit(alloc: Global, edit: &JsoncEdit) -> Result<Edit<Global>, u32>
    requires { IsOfName edit.now.kind }
    ensures read { IfOk result (IsReadAs edit.now) }
    ensures refused { IfErr result (λ status. IsWanting edit.now status) }
{
    let name = match name_of(alloc, edit) {
        Ok(name) => name,
        Err(status) => return Err(status),
    };
    let path = match path_of(alloc, edit) {
        Ok(path) => path,
        Err(status) => return Err(status),
    };
    match edit.kind {
        RENAME_PROPERTY => Ok(Edit::RenameProperty(path, name)),
        INSERT_COMMENT => Ok(Edit::InsertComment(path, place_of(edit.first), name)),
        _ => {
            let (shape, over) = (shape_of(edit.first), over_of(edit.second));
            Ok(Edit::EnsureProperty(path, name, shape, over))
        }
    }
}

/// An edit at a path that writes a property.
#[tactic(auto, using(crate::proofs::Unread::unread_memory, crate::proofs::Unread::unread_wanting))]
fn property_edit(
    alloc: Global,
    edit: &JsoncEdit,
    fault: &mut JsoncFault,
) -> Result<Edit<Global>, u32>
    requires { IsOfProperty edit.now.kind }
    ensures read { IfOk result (IsReadAs edit.now) }
    ensures refused { IfErr result (λ status. IsUnread edit.now status fault.new) }
    ensures left { OnOk result (fault.new ≡ fault.old) }
    ensures untold { IfErr result (λ status. ¬ (status ≡ 7) → fault.new ≡ fault.old) }
{
    let value = match value_of(alloc, edit, fault) {
        Ok(value) => value,
        Err(status) => return Err(status),
    };
    let name = match name_of(alloc, edit) {
        Ok(name) => name,
        Err(status) => return Err(status),
    };
    let path = match path_of(alloc, edit) {
        Ok(path) => path,
        Err(status) => return Err(status),
    };
    match edit.kind {
        REPLACE_PROPERTY => Ok(Edit::ReplaceProperty(path, name, value)),
        INSERT_PROPERTY => Ok(Edit::InsertProperty(path, edit.index, name, value)),
        _ => Ok(Edit::AppendProperty(path, name, value)),
    }
}

/// The edit that is asked for.
#[tactic(auto, using(crate::proofs::Unread::unread_kind, crate::proofs::Unread::unread_memory, crate::proofs::Unread::unread_wanting))]
fn read_edit(alloc: Global, edit: &JsoncEdit, fault: &mut JsoncFault) -> Result<Edit<Global>, u32>
    ensures read { IfOk result (IsReadAs edit.now) }
    ensures refused { IfErr result (λ status. IsUnread edit.now status fault.new) }
    ensures left { OnOk result (fault.new ≡ fault.old) }
    ensures untold { IfErr result (λ status. ¬ (status ≡ 7) → fault.new ≡ fault.old) }
{
    match edit.kind {
        REMOVE_COMMENT | SET_ROOT | CLEAR_ROOT | ENSURE_ROOT => root_edit(alloc, edit, fault),
        REMOVE | ENSURE_VALUE | SET_BOOLEAN | ENSURE_MULTILINE | SET_TRAILING_COMMAS | SORT => {
            path_edit(alloc, edit)
        }
        REPLACE | SET_VALUE | INSERT_ELEMENT | APPEND_ELEMENT => value_edit(alloc, edit, fault),
        REPLACE_PROPERTY | INSERT_PROPERTY | APPEND_PROPERTY => property_edit(alloc, edit, fault),
        ENSURE_PROPERTY | RENAME_PROPERTY | INSERT_COMMENT => name_edit(alloc, edit),
        _ => Err(NO_SUCH_EDIT),
    }
}

/// The edits that are asked for, or why one is none; the fault tells how many were read before it.
pub(crate) fn read_edits(
    alloc: Global,
    edits: &[JsoncEdit],
    fault: &mut JsoncFault,
) -> Result<Vec<Edit<Global>>, u32>
    ensures read { IfOk result (λ read. AreReadAs edits.now read.items) }
    ensures refused { IfErr result (λ status. IsUnreadIn edits.now status fault.new) }
    ensures left { OnOk result (fault.new ≡ fault.old) }
    ensures untold { IfErr result (λ status. ¬ (status ≡ 7) → fault.new ≡ record fault.old { made = fault.new.made }) }
    ensures some { IfErr result (λ status. ¬ (status ≡ 0)) }
{
    let mut read = Vec::new(alloc);
    for (count, edit) in edits.iter().enumerate() {
        match read_edit(alloc, edit, fault) {
            Ok(edit) => {
                let Ok(()) = read.push(edit) else {
                    fault.made = count;
                    return Err(OUT_OF_MEMORY);
                };
            }
            Err(status) => {
                fault.made = count;
                return Err(status);
            }
        }
    }
    Ok(read)
}
