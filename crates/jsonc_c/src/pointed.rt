//! What a JSON Pointer (RFC 6901) leads to: its path for edits, its string, and its removal with its comments.
ghost use Rattle.std.specs.Prelude.{◌≡◌, [], List, ℕ, IfErr, IfNone, IfOk, IfSome, OnOk, chars, string_bytes};
ghost use Rattle.std.specs.declared.alloc.Global.{Global};
ghost use Rattle.jsonc_text.specs.Options.{Options};
ghost use Rattle.jsonc_text.specs.Plain.{string};
ghost use Rattle.jsonc_layout.specs.input.Views.{plain};
ghost use Rattle.jsonc_sound.specs.Documents.{ShowsText};
ghost use Rattle.jsonc_cst.specs.Document.{tree_of};
ghost use Rattle.jsonc_parser.specs.patch.Pointer.{pointer_text, tokens_of};
ghost use Rattle.jsonc_c.specs.Options.{options_of};
ghost use Rattle.jsonc_c.specs.PatchTold.{TellsOfPatches};
ghost use Rattle.jsonc_c.specs.Patches.{IsUnfound};
ghost use Rattle.jsonc_c.specs.Pointed.{IsClearedOf, IsNoStringAt, IsPathOf, IsStringAt, IsUncleared};
ghost use Rattle.jsonc_c.specs.Told.{no_fault};

use crate::fault::{JsoncFault, NO_SUCH_VALUE, NOT_STRING, OK, OUT_OF_MEMORY, edit_status};
use crate::handed::{hand_out, hand_out_path};
use crate::patch_fault::tell_name;
use crate::patches::{opened, value_at};
use jsonc_parser::cst::{CstInputValue, CstRootNode};
use jsonc_parser::patch::{FindError, Pointer, entry_at, read};
use std::alloc::Global;

/// The path of the value that the pointer of bytes refers to in the document of bytes.
fn path_found(
    alloc: Global,
    text: &[u8],
    pointer: &[u8],
    options: u32,
    fault: &mut JsoncFault,
) -> Result<Vec<usize>, u32>
    ensures found { IfOk result (λ path. IsPathOf (options_of options) pointer.now text.now path.items) }
    ensures refused { IfErr result
        (λ status. IsUnfound (options_of options) pointer.now text.now status fault.new) }
    ensures untold { OnOk result (fault.new ≡ no_fault) }
{
    let (document, pointer) = match opened(alloc, text, pointer, options, fault) {
        Ok(read) => read,
        Err(status) => return Err(status),
    };
    let node = match value_at(alloc, &document, &pointer, fault) {
        Ok(node) => node,
        Err(status) => return Err(status),
    };
    match document.path(node) {
        Ok(Some(path)) => Ok(path),
        // (a value that is found has a path)
        Ok(None) => Err(NO_SUCH_VALUE),
        Err(_) => Err(OUT_OF_MEMORY),
    }
}

/// The text of a value, if it is a string.
fn string_of(value: CstInputValue<Global>) -> Option<String>
    ensures string { IfSome result (λ text. plain value ≡ string (chars (string_bytes text))) }
    ensures other { IfNone result ((s : List ℕ) → plain value ≡ string s → ⊥) }
{
    match value {
        CstInputValue::String(text) => Some(text),
        _ => None,
    }
}

/// The string that a pointer refers to in a document, its escapes decoded.
fn string_at(
    alloc: Global,
    document: &CstRootNode<Global>,
    pointer: &Pointer<Global>,
    fault: &mut JsoncFault,
) -> Result<String, u32>
    requires untold { fault.old ≡ no_fault }
    ensures found { (o : Options) (words text : List ℕ)
        → pointer_text (tokens_of pointer.now) ≡ chars words → ShowsText o (chars text) (tree_of document.now)
        → IfOk result (λ made. IsStringAt o words text (string_bytes made)) }
    ensures refused { (o : Options) (words text : List ℕ)
        → pointer_text (tokens_of pointer.now) ≡ chars words → ShowsText o (chars text) (tree_of document.now)
        → IfErr result (λ status. IsNoStringAt o words text status fault.new) }
    ensures untold { OnOk result (fault.new ≡ no_fault) }
{
    match read(document, pointer) {
        Ok(Some(value)) => match string_of(value) {
            Some(text) => Ok(text),
            None => Err(NOT_STRING),
        },
        Ok(None) => Err(NO_SUCH_VALUE),
        Err(FindError::RepeatedName(name)) => Err(tell_name(alloc, &name, fault)),
        Err(FindError::OutOfMemory) => Err(OUT_OF_MEMORY),
    }
}

/// The string that the pointer of bytes refers to in the document of bytes, its escapes decoded.
fn string_found(
    alloc: Global,
    text: &[u8],
    pointer: &[u8],
    options: u32,
    fault: &mut JsoncFault,
) -> Result<String, u32>
    ensures found { IfOk result (λ made. IsStringAt (options_of options) pointer.now text.now (string_bytes made)) }
    ensures refused { IfErr result
        (λ status. IsNoStringAt (options_of options) pointer.now text.now status fault.new) }
    ensures untold { OnOk result (fault.new ≡ no_fault) }
{
    match opened(alloc, text, pointer, options, fault) {
        Ok((document, pointer)) => string_at(alloc, &document, &pointer, fault),
        Err(status) => Err(status),
    }
}

/// The text of a document without the element or property to which a pointer leads, and without its comments.
fn text_without(
    document: CstRootNode<Global>,
    pointer: &Pointer<Global>,
    fault: &JsoncFault,
) -> Result<String, u32>
    requires untold { fault.now ≡ no_fault }
    ensures cleared { (o : Options) (words text : List ℕ)
        → pointer_text (tokens_of pointer.now) ≡ chars words → ShowsText o (chars text) (tree_of document)
        → IfOk result (λ made. IsClearedOf Global o words text (string_bytes made)) }
    ensures refused { (o : Options) (words text : List ℕ)
        → pointer_text (tokens_of pointer.now) ≡ chars words → ShowsText o (chars text) (tree_of document)
        → IfErr result (λ status. IsUncleared Global o words text status fault.now) }
{
    let mut document = document;
    let entry = match entry_at(&document, pointer) {
        Ok(Some(entry)) => entry,
        Ok(None) => return Err(NO_SUCH_VALUE),
        Err(_) => return Err(OUT_OF_MEMORY),
    };
    match entry.remove_with_comments(&mut document) {
        Ok(()) => {}
        Err(error) => return Err(edit_status(error)),
    }
    match document.text() {
        Ok(text) => Ok(text),
        Err(_) => Err(OUT_OF_MEMORY),
    }
}

/// The text of bytes without the element or property to which the pointer of bytes leads, and without its comments.
fn cleared(
    alloc: Global,
    text: &[u8],
    pointer: &[u8],
    options: u32,
    fault: &mut JsoncFault,
) -> Result<String, u32>
    ensures cleared { IfOk result
        (λ made. IsClearedOf Global (options_of options) pointer.now text.now (string_bytes made)) }
    ensures refused { IfErr result
        (λ status. IsUncleared Global (options_of options) pointer.now text.now status fault.new) }
    ensures untold { OnOk result (fault.new ≡ no_fault) }
{
    match opened(alloc, text, pointer, options, fault) {
        Ok((document, pointer)) => text_without(document, &pointer, fault),
        Err(status) => Err(status),
    }
}

/// Hands out the path of the value that a JSON Pointer (RFC 6901) refers to, as an edit takes it.
///
/// Each step is a place among elements or properties, from 0. The path of a member's value is that of the member. In a
/// list of edits each path is one of the text after the edits before it.
///
/// 0: it is done. 1, 3 and 4 as of `jsonc_check`. 2 and 19: the pointer is not UTF-8, or none. 20: it refers to nothing.
/// 21: a name on its way stands twice in its object.
#[unsafe(no_mangle)]
pub extern "C" fn jsonc_path_of(
    alloc: Global,
    text: &[u8],
    pointer: &[u8],
    options: u32,
    out: &mut &'static [usize],
    fault: &mut JsoncFault,
) -> u32
    ensures found { result ≡ 0 → IsPathOf (options_of options) pointer.now text.now out.new.now }
    ensures refused { ¬ (result ≡ 0) → IsUnfound (options_of options) pointer.now text.now result fault.new }
    ensures empty { ¬ (result ≡ 0) → out.new.now ≡ [] }
    ensures told { TellsOfPatches result fault.new }
{
    *out = &[];
    match path_found(alloc, text, pointer, options, fault) {
        Ok(path) => {
            hand_out_path(path, out);
            OK
        }
        Err(status) => status,
    }
}

/// Hands out the string that a JSON Pointer (RFC 6901) refers to, its escapes decoded and without quotes.
///
/// 29: the value that it refers to is no string. Else as `jsonc_find`.
#[unsafe(no_mangle)]
pub extern "C" fn jsonc_find_string(
    alloc: Global,
    text: &[u8],
    pointer: &[u8],
    options: u32,
    out: &mut &'static [u8],
    fault: &mut JsoncFault,
) -> u32
    ensures found { result ≡ 0 → IsStringAt (options_of options) pointer.now text.now out.new.now }
    ensures refused { ¬ (result ≡ 0) → IsNoStringAt (options_of options) pointer.now text.now result fault.new }
    ensures empty { ¬ (result ≡ 0) → out.new.now ≡ [] }
    ensures told { TellsOfPatches result fault.new }
{
    *out = &[];
    match string_found(alloc, text, pointer, options, fault) {
        Ok(made) => {
            hand_out(made, out);
            OK
        }
        Err(status) => status,
    }
}

/// Removes the element or property to which a JSON Pointer (RFC 6901) leads, with the comments that belong to it, and
/// hands out the text after it. Of equal names the first leads on.
///
/// 0: it is done. 1, 3 and 4 as of `jsonc_check`. 2 and 19: the pointer is not UTF-8, or none. 20: it leads to no element
/// or property.
#[unsafe(no_mangle)]
pub extern "C" fn jsonc_remove_with_comments(
    alloc: Global,
    text: &[u8],
    pointer: &[u8],
    options: u32,
    out: &mut &'static [u8],
    fault: &mut JsoncFault,
) -> u32
    ensures removed { result ≡ 0 → IsClearedOf Global (options_of options) pointer.now text.now out.new.now }
    ensures refused { ¬ (result ≡ 0) →
        IsUncleared Global (options_of options) pointer.now text.now result fault.new }
    ensures empty { ¬ (result ≡ 0) → out.new.now ≡ [] }
    ensures told { TellsOfPatches result fault.new }
{
    *out = &[];
    match cleared(alloc, text, pointer, options, fault) {
        Ok(made) => {
            hand_out(made, out);
            OK
        }
        Err(status) => status,
    }
}
