//! The value that a JSON Pointer refers to.
ghost use Rattle.std.specs.Prelude.{ℕ, List, IfErr, IfOk};
ghost use Rattle.jsonc_text.specs.Options.{Options};
ghost use Rattle.jsonc_sound.specs.SoundTrees.{SoundTree};
ghost use Rattle.jsonc_cst.specs.Document.{printed_of, tree_of};
ghost use Rattle.jsonc_parser.specs.patch.Pointer.{tokens_of};
ghost use Rattle.jsonc_engine.specs.Command.{find as find_at};
ghost use Rattle.jsonc_engine.specs.Fault.{IsFaultOn};
ghost use Rattle.jsonc_engine.specs.Finding.{IsFound, IsPointer};
ghost use Rattle.jsonc_engine.specs.Output.{output_bytes};

use crate::fault::Fault;
use crate::output::Output;
use jsonc_parser::cst::{CstRootNode, EditError, TypedNode};
use jsonc_parser::patch::{FindError, Pointer, find};
use std::alloc::Allocator;

/// The value that a pointer refers to as it is written, and a line feed after it.
///
/// It is `Fault::NoSuchValue` where the pointer refers to nothing, and `Fault::RepeatedName` where a name on its way
/// occurs twice in its object. Memory may be needed to look up a name, or for the text, which is `Fault::Edit`.
pub(crate) fn find_value<A: Allocator + Copy>(
    document: &CstRootNode<A>,
    pointer: &Pointer<A>,
) -> Result<Output<A>, Fault<A>>
    ensures found { (o : Options) (words : List ℕ) → IsPointer words (tokens_of pointer.now)
        → SoundTree o (tree_of document.now)
        → IfOk result (λ output. IsFound o words (printed_of document.now) (output_bytes output)) }
    ensures error { (o : Options) (words : List ℕ) → IsPointer words (tokens_of pointer.now)
        → SoundTree o (tree_of document.now)
        → IfErr result (IsFaultOn o (find_at words) (printed_of document.now)) }
{
    let node = match find(document, pointer) {
        Ok(Some(node)) => node,
        Ok(None) => return Err(Fault::NoSuchValue),
        Err(FindError::RepeatedName(name)) => return Err(Fault::RepeatedName(name)),
        Err(FindError::OutOfMemory) => return Err(Fault::Edit(EditError::OutOfMemory)),
    };
    match format!(in *document.allocator(); "{}\n", node.shown(document)) {
        Ok(text) => Ok(Output::Text(text)),
        Err(_) => Err(Fault::Edit(EditError::OutOfMemory)),
    }
}
