//! Values at paths of names.
ghost use Rattle.std.specs.Prelude.{◌≡◌, IfErr, IfOk, OnErr, OnOk};
ghost use Rattle.jsonc_text.specs.Options.{Options};
ghost use Rattle.jsonc_layout.specs.input.Views.{plain};
ghost use Rattle.jsonc_sound.specs.SoundTrees.{SoundTree};
ghost use Rattle.jsonc_cst.specs.Document.{nodes_of, printed_of, tree_of};
ghost use Rattle.jsonc_parser.specs.paths.Found.{names_of};
ghost use Rattle.jsonc_engine.specs.Fault.{EndsDropping, EndsGetting, EndsPutting};
ghost use Rattle.jsonc_engine.specs.Output.{output_bytes};
ghost use Rattle.jsonc_engine.specs.Settings.{DropsIfSound, PutsIfSound, ShownIfSound};

use crate::fault::Fault;
use crate::output::Output;
use jsonc_parser::cst::{CstInputValue, CstRootNode, EditError, Over, TypedNode};
use jsonc_parser::settings::{find_at, remove_at, set_at};
use std::alloc::Allocator;

/// The value at names as it is written, and a line feed behind it.
///
/// It is `Fault::NoSetting` where nothing stands there. Memory may be wanted, which is `Fault::Edit`: to look up
/// a name in an object that has a name with a backslash, or for the text.
pub(crate) fn get_setting<A: Allocator + Copy>(
    document: &CstRootNode<A>,
    names: &[String<A>],
) -> Result<Output<A>, Fault<A>>
    ensures text { (o : Options) → IfOk result
        (λ output. ShownIfSound o (names_of names.now) (nodes_of document.now) (output_bytes output)) }
    ensures error { (o : Options) → SoundTree o (tree_of document.now)
        → IfErr result (EndsGetting o (printed_of document.now) (names_of names.now)) }
{
    let node = match find_at(document, names) {
        Ok(Some(node)) => node,
        Ok(None) => return Err(Fault::NoSetting),
        Err(error) => return Err(Fault::Edit(error)),
    };
    match format!(in *document.allocator(); "{}\n", node.shown(document)) {
        Ok(text) => Ok(Output::Text(text)),
        Err(_) => Err(Fault::Edit(EditError::OutOfMemory)),
    }
}

/// Puts a value at names.
///
/// It is `Fault::OnTheWay` where a value of another kind than an object stands on the way. `Fault::Edit` tells of a
/// value that would be nested too deep, before the document is looked at; or memory may be wanted, to look up a name as
/// `get_setting` does, or where nothing is in the way. An error leaves the document as it was.
pub(crate) fn put_setting<A: Allocator + Copy>(
    document: &mut CstRootNode<A>,
    names: &[String<A>],
    value: CstInputValue<A>,
) -> Result<(), Fault<A>>
    ensures put { (o : Options) → OnOk result
        (PutsIfSound o (plain value) (names_of names.now) (nodes_of document.old) (nodes_of document.new)) }
    ensures error { (o : Options) → SoundTree o (tree_of document.old)
        → IfErr result (EndsPutting o (printed_of document.old) (names_of names.now) (plain value)) }
    ensures document { (o : Options) → SoundTree o (tree_of document.old)
        → OnErr result (tree_of document.new ≡ tree_of document.old) }
{
    match set_at(document, names, value, Over::Keep) {
        Ok(true) => Ok(()),
        Ok(false) => Err(Fault::OnTheWay),
        Err(error) => Err(Fault::Edit(error)),
    }
}

/// Drops what stands at names. Where nothing stands there the document stays as it is.
///
/// Memory may be wanted, which is `Fault::Edit`: to look up a name as `get_setting` does, or where something
/// stands there. On an error the document stays as it was.
pub(crate) fn drop_setting<A: Allocator + Copy>(
    document: &mut CstRootNode<A>,
    names: &[String<A>],
) -> Result<(), Fault<A>>
    ensures dropped { (o : Options) → OnOk result
        (DropsIfSound o (names_of names.now) (nodes_of document.old) (nodes_of document.new)) }
    ensures error { (o : Options) → SoundTree o (tree_of document.old)
        → IfErr result (EndsDropping o (printed_of document.old) (names_of names.now)) }
    ensures document { OnErr result (tree_of document.new ≡ tree_of document.old) }
{
    match remove_at(document, names) {
        Ok(_) => Ok(()),
        Err(error) => Err(Fault::Edit(error)),
    }
}
