//! The value at a JSON Pointer (RFC 6901), JSON Patches (RFC 6902) and merge patches (RFC 7396).
ghost use Rattle.std.specs.Prelude.{◌≡◌, ◌≤◌, List, ℕ, [], IfErr, IfOk, OnOk, Some, chars, string_bytes};
ghost use Rattle.std.specs.List.{All};
ghost use Rattle.std.specs.declared.alloc.Global.{Global};
ghost use Rattle.jsonc_text.specs.Options.{Options};
ghost use Rattle.jsonc_text.specs.OptionsOf.{parse_options};
ghost use Rattle.jsonc_edit.specs.Writing.{IsOfNumbers};
ghost use Rattle.jsonc_layout.specs.input.Views.{plain};
ghost use Rattle.jsonc_sound.specs.Documents.{ShowsText};
ghost use Rattle.jsonc_cst.specs.Document.{HasNode, tree_of};
ghost use Rattle.jsonc_parser.specs.patch.Asked.{FitsIn};
ghost use Rattle.jsonc_parser.specs.patch.Found.{Finds, IsOfShown};
ghost use Rattle.jsonc_parser.specs.patch.MergeTexts.{IsMergePatch};
ghost use Rattle.jsonc_parser.specs.patch.PatchTexts.{IsPatch};
ghost use Rattle.jsonc_parser.specs.patch.Patches.{operations_in, operations_of};
ghost use Rattle.jsonc_parser.specs.patch.Pointer.{pointer_text, tokens_of};
ghost use Rattle.jsonc_c.specs.Options.{options_of};
ghost use Rattle.jsonc_c.specs.PatchTold.{TellsOfPatches};
ghost use Rattle.jsonc_c.specs.Patches.{IsFound, IsMergedBy, IsPatchedBy};
ghost use Rattle.jsonc_c.specs.Patches.{IsNoDocument, IsNoMergePatch, IsNoPatch, IsNoPointer, IsUnfound, IsUnmerged, IsUnopened, IsUnpatched};
ghost use Rattle.jsonc_c.specs.Told.{no_fault};

use crate::fault::{
    JSON, JsoncFault, NESTED_TOO_DEEP, NO_SUCH_VALUE, NO_VALUE, NOT_UTF8, OK, OUT_OF_MEMORY, TEXT,
    WORD_NOT_UTF8, no_fault, tell_error,
};
use crate::handed::hand_out;
use crate::options::options_of;
use crate::patch_fault::{tell_name, tell_operation, tell_patch, tell_pointer};
use jsonc_parser::ParseOptions;
use jsonc_parser::cst::{CstInputValue, CstNode, CstRootNode, TypedNode};
use jsonc_parser::patch::{
    FindError, MergeFault, MergePatchError, Patch, PatchError, Pointer, find, merge,
    merge_patch_from_json,
};
use std::alloc::Global;

/// The document of bytes.
fn document_of(
    alloc: Global,
    text: &[u8],
    options: &ParseOptions,
    fault: &mut JsoncFault,
) -> Result<CstRootNode<Global>, u32>
    requires untold { fault.old ≡ no_fault }
    ensures shown { IfOk result
        (λ document. ShowsText (parse_options options.now) (chars text.now) (tree_of document)) }
    ensures refused { IfErr result
        (λ status. IsNoDocument (parse_options options.now) text.now status fault.new) }
    ensures untold { OnOk result (fault.new ≡ no_fault) }
{
    let Ok(text) = str::from_utf8(text) else {
        return Err(NOT_UTF8);
    };
    match CstRootNode::parse(alloc, text, options) {
        Ok(document) => Ok(document),
        Err(error) => Err(tell_error(alloc, &error, TEXT, fault)),
    }
}

/// The pointer of bytes.
fn pointer_of(alloc: Global, pointer: &[u8], fault: &mut JsoncFault) -> Result<Pointer<Global>, u32>
    requires untold { fault.old ≡ no_fault }
    ensures parsed { IfOk result (λ read. pointer_text (tokens_of read) ≡ chars pointer.now) }
    ensures refused { IfErr result (λ status. IsNoPointer pointer.now status fault.new) }
    ensures untold { OnOk result (fault.new ≡ no_fault) }
{
    let Ok(text) = str::from_utf8(pointer) else {
        return Err(WORD_NOT_UTF8);
    };
    match Pointer::parse(alloc, text) {
        Ok(pointer) => Ok(pointer),
        Err(error) => Err(tell_pointer(alloc, error, fault)),
    }
}

/// The pointer of bytes, which is read first, and the document of bytes.
pub(crate) fn opened(
    alloc: Global,
    text: &[u8],
    pointer: &[u8],
    options: u32,
    fault: &mut JsoncFault,
) -> Result<(CstRootNode<Global>, Pointer<Global>), u32>
    ensures document { IfOk result
        (λ read. ShowsText (options_of options) (chars text.now) (tree_of read.0)) }
    ensures pointer { IfOk result (λ read. pointer_text (tokens_of read.1) ≡ chars pointer.now) }
    ensures refused { IfErr result
        (λ status. IsUnopened (options_of options) pointer.now text.now status fault.new) }
    ensures untold { OnOk result (fault.new ≡ no_fault) }
{
    *fault = no_fault();
    let pointer = match pointer_of(alloc, pointer, fault) {
        Ok(pointer) => pointer,
        Err(status) => return Err(status),
    };
    match document_of(alloc, text, &options_of(options), fault) {
        Ok(document) => Ok((document, pointer)),
        Err(status) => Err(status),
    }
}

/// The value that a pointer refers to in a document.
pub(crate) fn value_at(
    alloc: Global,
    document: &CstRootNode<Global>,
    pointer: &Pointer<Global>,
    fault: &mut JsoncFault,
) -> Result<CstNode, u32>
    requires untold { fault.old ≡ no_fault }
    ensures found { IfOk result (λ node. IsOfShown document.now
        (λ d. Finds d document.now (tokens_of pointer.now) (Some node))) }
    ensures in_document { IfOk result (HasNode document.now) }
    ensures refused { IfErr result (λ status. (o : Options) (words text : List ℕ)
        → pointer_text (tokens_of pointer.now) ≡ chars words → ShowsText o (chars text) (tree_of document.now)
        → IsUnfound o words text status fault.new) }
    ensures untold { OnOk result (fault.new ≡ no_fault) }
{
    match find(document, pointer) {
        Ok(Some(node)) => Ok(node),
        Ok(None) => Err(NO_SUCH_VALUE),
        Err(FindError::RepeatedName(name)) => Err(tell_name(alloc, &name, fault)),
        Err(FindError::OutOfMemory) => Err(OUT_OF_MEMORY),
    }
}

/// The value that the pointer of bytes refers to in the document of bytes, as it is written there.
pub(crate) fn found(
    alloc: Global,
    text: &[u8],
    pointer: &[u8],
    options: u32,
    fault: &mut JsoncFault,
) -> Result<String, u32>
    ensures found { IfOk result
        (λ made. IsFound (options_of options) pointer.now text.now (string_bytes made)) }
    ensures refused { IfErr result
        (λ status. IsUnfound (options_of options) pointer.now text.now status fault.new) }
    ensures untold { OnOk result (fault.new ≡ no_fault) }
{
    let (document, pointer) = match opened(alloc, text, pointer, options, fault) {
        Ok(read) => read,
        Err(status) => return Err(status),
    };
    let node = match value_at(alloc, &document, &pointer, fault) {
        Ok(node) => node,
        Err(status) => return Err(status),
    };
    match node.shown(&document).to_string(alloc) {
        Ok(text) => Ok(text),
        Err(_) => Err(OUT_OF_MEMORY),
    }
}

/// The patch of bytes.
fn patch_of(
    alloc: Global,
    patch: &[u8],
    options: &ParseOptions,
    fault: &mut JsoncFault,
) -> Result<Patch<Global>, u32>
    requires untold { fault.old ≡ no_fault }
    ensures read { IfOk result (λ read. IsPatch (parse_options options.now) (chars patch.now) (operations_of read)) }
    ensures fits { IfOk result (λ read. All (FitsIn (parse_options options.now)) (operations_in read)) }
    ensures refused { IfErr result
        (λ status. IsNoPatch Global (parse_options options.now) patch.now status fault.new) }
    ensures untold { OnOk result (fault.new ≡ no_fault) }
{
    let Ok(text) = str::from_utf8(patch) else {
        return Err(WORD_NOT_UTF8);
    };
    match Patch::from_json(alloc, text, options) {
        Ok(patch) => Ok(patch),
        Err(PatchError::Parse(error)) => Err(tell_error(alloc, &error, JSON, fault)),
        Err(error) => Err(tell_patch(alloc, &error, fault)),
    }
}

/// The text after a patch.
fn text_by(
    alloc: Global,
    document: CstRootNode<Global>,
    patch: &Patch<Global>,
    fault: &mut JsoncFault,
) -> Result<String, u32>
    requires untold { fault.old ≡ no_fault }
    ensures patched { (o : Options) (words text : List ℕ)
        → IsPatch o (chars words) (operations_of patch.now) → All (FitsIn o) (operations_in patch.now)
        → ShowsText o (chars text) (tree_of document)
        → IfOk result (λ made. IsPatchedBy Global o words text (string_bytes made)) }
    ensures refused { (o : Options) (words text : List ℕ)
        → IsPatch o (chars words) (operations_of patch.now) → All (FitsIn o) (operations_in patch.now)
        → ShowsText o (chars text) (tree_of document)
        → IfErr result (λ status. IsUnpatched Global o words text status fault.new) }
    ensures untold { OnOk result (fault.new ≡ no_fault) }
{
    let mut document = document;
    match patch.apply(&mut document) {
        Ok(()) => {}
        Err(stopped) => return Err(tell_operation(alloc, &stopped, fault)),
    }
    match document.text() {
        Ok(text) => Ok(text),
        Err(_) => Err(OUT_OF_MEMORY),
    }
}

/// The text of bytes after the patch of bytes, which is read first.
pub(crate) fn patched(
    alloc: Global,
    text: &[u8],
    patch: &[u8],
    options: u32,
    fault: &mut JsoncFault,
) -> Result<String, u32>
    ensures patched { IfOk result
        (λ made. IsPatchedBy Global (options_of options) patch.now text.now (string_bytes made)) }
    ensures refused { IfErr result
        (λ status. IsUnpatched Global (options_of options) patch.now text.now status fault.new) }
    ensures untold { OnOk result (fault.new ≡ no_fault) }
{
    *fault = no_fault();
    let options = options_of(options);
    let patch = match patch_of(alloc, patch, &options, fault) {
        Ok(patch) => patch,
        Err(status) => return Err(status),
    };
    let document = match document_of(alloc, text, &options, fault) {
        Ok(document) => document,
        Err(status) => return Err(status),
    };
    text_by(alloc, document, &patch, fault)
}

/// The merge patch of bytes.
fn merge_patch_of(
    alloc: Global,
    patch: &[u8],
    options: &ParseOptions,
    fault: &mut JsoncFault,
) -> Result<CstInputValue<Global>, u32>
    requires untold { fault.old ≡ no_fault }
    ensures read { IfOk result (λ read. IsMergePatch (parse_options options.now) (chars patch.now) (plain read)) }
    ensures fits { IfOk result (λ read. IsOfNumbers (parse_options options.now) (plain read)) }
    ensures refused { IfErr result
        (λ status. IsNoMergePatch (parse_options options.now) patch.now status fault.new) }
    ensures untold { OnOk result (fault.new ≡ no_fault) }
{
    let Ok(text) = str::from_utf8(patch) else {
        return Err(WORD_NOT_UTF8);
    };
    match merge_patch_from_json(alloc, text, options) {
        Ok(patch) => Ok(patch),
        Err(MergePatchError::Parse(error)) => Err(tell_error(alloc, &error, JSON, fault)),
        Err(MergePatchError::NoValue) => Err(NO_VALUE),
        Err(MergePatchError::RepeatedName(name)) => Err(tell_name(alloc, &name, fault)),
        Err(MergePatchError::OutOfMemory) => Err(OUT_OF_MEMORY),
    }
}

/// The text with a patch merged into it.
fn text_with(
    alloc: Global,
    document: CstRootNode<Global>,
    patch: &CstInputValue<Global>,
    fault: &mut JsoncFault,
) -> Result<String, u32>
    requires untold { fault.old ≡ no_fault }
    ensures merged { (o : Options) (words text : List ℕ)
        → IsMergePatch o (chars words) (plain patch.now) → IsOfNumbers o (plain patch.now)
        → ShowsText o (chars text) (tree_of document)
        → IfOk result (λ made. IsMergedBy o words text (string_bytes made)) }
    ensures refused { (o : Options) (words text : List ℕ)
        → IsMergePatch o (chars words) (plain patch.now) → IsOfNumbers o (plain patch.now)
        → ShowsText o (chars text) (tree_of document)
        → IfErr result (λ status. IsUnmerged Global o words text status fault.new) }
    ensures untold { OnOk result (fault.new ≡ no_fault) }
{
    let mut document = document;
    match merge(&mut document, patch) {
        Ok(()) => {}
        Err(MergeFault::RepeatedName(name)) => return Err(tell_name(alloc, &name, fault)),
        Err(MergeFault::NestingDepthExceeded) => return Err(NESTED_TOO_DEEP),
        Err(MergeFault::OutOfMemory) => return Err(OUT_OF_MEMORY),
    }
    match document.text() {
        Ok(text) => Ok(text),
        Err(_) => Err(OUT_OF_MEMORY),
    }
}

/// The text of bytes with the merge patch of bytes merged into it, which is read first.
pub(crate) fn merged(
    alloc: Global,
    text: &[u8],
    patch: &[u8],
    options: u32,
    fault: &mut JsoncFault,
) -> Result<String, u32>
    ensures merged { IfOk result
        (λ made. IsMergedBy (options_of options) patch.now text.now (string_bytes made)) }
    ensures refused { IfErr result
        (λ status. IsUnmerged Global (options_of options) patch.now text.now status fault.new) }
    ensures untold { OnOk result (fault.new ≡ no_fault) }
{
    *fault = no_fault();
    let options = options_of(options);
    let patch = match merge_patch_of(alloc, patch, &options, fault) {
        Ok(patch) => patch,
        Err(status) => return Err(status),
    };
    let document = match document_of(alloc, text, &options, fault) {
        Ok(document) => document,
        Err(status) => return Err(status),
    };
    text_with(alloc, document, &patch, fault)
}

/// Hands out the value that a JSON Pointer (RFC 6901) refers to, as it is written.
///
/// 0: it is done. 1, 3 and 4 as of `jsonc_check`. 2 and 19: the pointer is not UTF-8, or none. 20: it refers to nothing.
/// 21: a name on its way stands twice in its object.
#[unsafe(no_mangle)]
pub extern "C" fn jsonc_find(
    alloc: Global,
    text: &[u8],
    pointer: &[u8],
    options: u32,
    out: &mut &'static [u8],
    fault: &mut JsoncFault,
) -> u32
    ensures found { result ≡ 0 → IsFound (options_of options) pointer.now text.now out.new.now }
    ensures refused { ¬ (result ≡ 0) → IsUnfound (options_of options) pointer.now text.now result fault.new }
    ensures empty { ¬ (result ≡ 0) → out.new.now ≡ [] }
    ensures told { TellsOfPatches result fault.new }
{
    *out = &[];
    match found(alloc, text, pointer, options, fault) {
        Ok(made) => {
            hand_out(made, out);
            OK
        }
        Err(status) => status,
    }
}

/// Makes the operations of a JSON Patch (RFC 6902), and hands out the text after them. Where one is not made, none is.
///
/// The patch is a JSON text, which is read under the options of the document's.
///
/// 0: it is done. 1, 3 and 4 as of `jsonc_check`. 2 and 7: the patch is not UTF-8, or no document of the options. 22: it
/// is no patch. Of an operation that is not made, 20: a pointer leads to nothing; 21: a name on its way stands twice in its
/// object; 23: a value would be moved into itself; 24: the value is another than that of a `test`; 28: a value would be
/// nested deeper than texts are parsed. With 20 to 24 and 28 the fault tells how many operations stand before.
#[unsafe(no_mangle)]
pub extern "C" fn jsonc_apply_patch(
    alloc: Global,
    text: &[u8],
    patch: &[u8],
    options: u32,
    out: &mut &'static [u8],
    fault: &mut JsoncFault,
) -> u32
    ensures patched { result ≡ 0 → IsPatchedBy Global (options_of options) patch.now text.now out.new.now }
    ensures refused { ¬ (result ≡ 0) →
        IsUnpatched Global (options_of options) patch.now text.now result fault.new }
    ensures empty { ¬ (result ≡ 0) → out.new.now ≡ [] }
    ensures told { TellsOfPatches result fault.new }
{
    *out = &[];
    match patched(alloc, text, patch, options, fault) {
        Ok(made) => {
            hand_out(made, out);
            OK
        }
        Err(status) => status,
    }
}

/// Merges a JSON Merge Patch (RFC 7396) into the document, and hands out the text after it. Where a name cannot be looked
/// up, nothing is merged.
///
/// The patch is a JSON text, which is read under the options of the document's.
///
/// 0: it is done. 1, 3 and 4 as of `jsonc_check`. 2, 7 and 8: the patch is not UTF-8, or no document of the options, or has
/// no value. 21: a name stands twice in an object of the patch, or in one of the document where it is looked up. 28: a
/// value would be nested deeper than texts are parsed.
#[unsafe(no_mangle)]
pub extern "C" fn jsonc_merge_patch(
    alloc: Global,
    text: &[u8],
    patch: &[u8],
    options: u32,
    out: &mut &'static [u8],
    fault: &mut JsoncFault,
) -> u32
    ensures merged { result ≡ 0 → IsMergedBy (options_of options) patch.now text.now out.new.now }
    ensures refused { ¬ (result ≡ 0) →
        IsUnmerged Global (options_of options) patch.now text.now result fault.new }
    ensures empty { ¬ (result ≡ 0) → out.new.now ≡ [] }
    ensures told { TellsOfPatches result fault.new }
{
    *out = &[];
    match merged(alloc, text, patch, options, fault) {
        Ok(made) => {
            hand_out(made, out);
            OK
        }
        Err(status) => status,
    }
}
