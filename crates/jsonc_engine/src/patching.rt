//! Patches: how their texts are read, and what they make of a document.
ghost use Rattle.std.specs.Prelude.{List, ℕ, IfErr, IfOk};
ghost use Rattle.jsonc_text.specs.Options.{Options};
ghost use Rattle.jsonc_text.specs.OptionsOf.{parse_options};
ghost use Rattle.jsonc_layout.specs.input.Views.{plain};
ghost use Rattle.jsonc_sound.specs.SoundTrees.{SoundTree};
ghost use Rattle.jsonc_cst.specs.Document.{printed_of, tree_of, HasNoDeeperValue};
ghost use Rattle.jsonc_parser.specs.patch.Patches.{operations_in};
ghost use Rattle.jsonc_engine.specs.Argument.{IsFaultOfText};
ghost use Rattle.jsonc_engine.specs.Command.{merge as merging, patch as patching};
ghost use Rattle.jsonc_engine.specs.Fault.{IsFaultOn};
ghost use Rattle.jsonc_engine.specs.Output.{output_bytes};
ghost use Rattle.jsonc_engine.specs.Patched.{IsApplied, IsMergedInto, IsMergePatchOf, IsPatchOf, IsToldFor};

use crate::fault::Fault;
use crate::output::Output;
use jsonc_parser::ParseOptions;
use jsonc_parser::cst::{CstInputValue, CstRootNode, EditError};
use jsonc_parser::patch::{
    MergeFault, MergePatchError, OperationFault, Patch, PatchCause, PatchError, PatchFault, merge,
    merge_patch_from_json,
};
use std::alloc::Allocator;

/// The patch of a text.
pub(crate) fn patch_of<A: Allocator + Copy>(
    alloc: A,
    options: &ParseOptions,
    text: &str,
) -> Result<Patch<A>, Fault<A>>
    ensures parsed { IfOk result (λ read. IsPatchOf (parse_options options.now) text.now (operations_in read)) }
    ensures refused { (most : ℕ) → IfErr result (IsFaultOfText (parse_options options.now) (patching text.now most)) }
{
    match Patch::from_json(alloc, text, options) {
        Ok(patch) => Ok(patch),
        Err(PatchError::Operation(_, OperationFault::OutOfMemory)) => {
            Err(Fault::Edit(EditError::OutOfMemory))
        }
        Err(error) => Err(Fault::Patch(error)),
    }
}

/// The merge patch of a text.
pub(crate) fn merge_patch_of<A: Allocator + Copy>(
    alloc: A,
    options: &ParseOptions,
    text: &str,
) -> Result<CstInputValue<A>, Fault<A>>
    ensures parsed { IfOk result (λ patch. IsMergePatchOf (parse_options options.now) text.now (plain patch)) }
    ensures refused { IfErr result (IsFaultOfText (parse_options options.now) (merging text.now)) }
{
    match merge_patch_from_json(alloc, text, options) {
        Ok(patch) => Ok(patch),
        Err(MergePatchError::OutOfMemory) => Err(Fault::Edit(EditError::OutOfMemory)),
        Err(error) => Err(Fault::MergePatch(error)),
    }
}

// What is reported of an operation that was not made under a bound: where that was for an edit, a value would be nested
// too deep, or there was no memory.
fn fault_of<A: Allocator>(fault: PatchFault<A>, most: usize) -> Fault<A>
    ensures { IsToldFor most fault result }
{
    let PatchFault { operation, cause } = fault;
    match cause {
        PatchCause::Edit(EditError::NestingDepthExceeded) => Fault::Operation(PatchFault {
            operation,
            cause: PatchCause::Edit(EditError::NestingDepthExceeded),
        }),
        PatchCause::Edit(_) => Fault::Edit(EditError::OutOfMemory),
        PatchCause::TooLarge => Fault::TooLarge(operation, most),
        cause => Fault::Operation(PatchFault { operation, cause }),
    }
}

/// The document after the operations of a patch, with at most so many bytes after each operation.
pub(crate) fn patched<A: Allocator + Copy>(
    document: CstRootNode<A>,
    patch: &Patch<A>,
    most: usize,
) -> Result<Output<A>, Fault<A>>
    ensures made { (o : Options) (text : List ℕ) → IsPatchOf o text (operations_in patch.now)
        → SoundTree o (tree_of document) → HasNoDeeperValue o (printed_of document)
        → IfOk result (λ output. IsApplied A o text most (printed_of document) (output_bytes output)) }
    ensures refused { (o : Options) (text : List ℕ) → IsPatchOf o text (operations_in patch.now)
        → SoundTree o (tree_of document)
        → IfErr result (IsFaultOn o (patching text most) (printed_of document)) }
{
    let mut document = document;
    match patch.apply_within(&mut document, most) {
        Ok(()) => Ok(Output::Document(document)),
        Err(fault) => Err(fault_of(fault, most)),
    }
}

/// The document with a patch merged into it.
pub(crate) fn merged<A: Allocator + Copy>(
    document: CstRootNode<A>,
    patch: &CstInputValue<A>,
) -> Result<Output<A>, Fault<A>>
    ensures made { (o : Options) (text : List ℕ) → IsMergePatchOf o text (plain patch.now)
        → SoundTree o (tree_of document) → HasNoDeeperValue o (printed_of document)
        → IfOk result (λ output. IsMergedInto o text (printed_of document) (output_bytes output)) }
    ensures refused { (o : Options) (text : List ℕ) → IsMergePatchOf o text (plain patch.now)
        → SoundTree o (tree_of document)
        → IfErr result (IsFaultOn o (merging text) (printed_of document)) }
{
    let mut document = document;
    match merge(&mut document, patch) {
        Ok(()) => Ok(Output::Document(document)),
        Err(MergeFault::RepeatedName(name)) => Err(Fault::RepeatedName(name)),
        Err(MergeFault::NestingDepthExceeded) => {
            Err(Fault::Edit(EditError::NestingDepthExceeded))
        }
        Err(MergeFault::OutOfMemory) => Err(Fault::Edit(EditError::OutOfMemory)),
    }
}
