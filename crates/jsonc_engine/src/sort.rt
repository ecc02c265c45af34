//! Properties that are sorted by their names as they are written.
ghost use Rattle.std.specs.Prelude.{◌≡◌, IfErr, OnErr, OnOk, false, true};
ghost use Rattle.jsonc_cst.specs.Document.{nodes_of, printed_of, tree_of, HasNode};
ghost use Rattle.jsonc_cst.specs.typed.Edits.{HandlesStay};
ghost use Rattle.std.specs.Cmp.Lexicographic.{slice_cmp};
ghost use Rattle.std.specs.Ordering.{nat_cmp};
ghost use Rattle.jsonc_engine.specs.Sorting.{IsSorted, SortsIfSound, between_quotes, written_name};
ghost use Rattle.jsonc_text.specs.Options.{Options};
ghost use Rattle.jsonc_sound.specs.SoundTrees.{SoundTree};
ghost use Rattle.jsonc_cst.specs.Nodes.{object_node, object_prop_node};
ghost use Rattle.jsonc_engine.specs.Fault.{EndsOnObject};

use crate::fault::Fault;
use jsonc_parser::cst::{CstObject, CstObjectProp, CstRootNode, EditError, ObjectPropName};
use std::alloc::Allocator;
use std::cmp::Ordering;

/// The bytes of a string as it is written, without its quotes.
fn between_quotes(text: &str) -> &[u8]
    ensures { result.now ≡ between_quotes text.now }
{
    let bytes = text.as_bytes();
    if bytes.len() < 2 {
        return &[];
    }
    &bytes[1..bytes.len() - 1]
}

/// The name of a property as it is written, without quotes, or nothing where it has none.
pub fn written_name<A: Allocator>(document: &CstRootNode<A>, property: CstObjectProp) -> &[u8]
    requires { HasNode document.now (object_prop_node property) }
    ensures { result.now ≡ written_name (nodes_of document.now) property.number }
{
    match property.name(document) {
        Some(ObjectPropName::String(string)) => between_quotes(string.raw_value(document)),
        Some(ObjectPropName::Word(word)) => word.raw_value(document).as_bytes(),
        None => &[],
    }
}

/// Compares the names of two properties as they are written, without quotes, byte by byte.
fn compare_names<A: Allocator>(
    document: &CstRootNode<A>,
    one: CstObjectProp,
    other: CstObjectProp,
) -> Ordering
    requires one { HasNode document.now (object_prop_node one) }
    requires other { HasNode document.now (object_prop_node other) }
    ensures { result ≡ slice_cmp nat_cmp (written_name (nodes_of document.now) one.number)
        (written_name (nodes_of document.now) other.number) }
{
    let name = written_name(document, one);
    name.cmp(&written_name(document, other))
}

/// Sorts the properties of an object by their names, each with all comments above it.
fn sort_plainly<A: Allocator + Copy>(
    document: &mut CstRootNode<A>,
    object: CstObject,
) -> Result<(), EditError>
    requires { HasNode document.old (object_node object) }
    ensures sorted { OnOk result (IsSorted false document.old document.new object) }
    ensures memory { IfErr result (λ e. e ≡ EditError.OutOfMemory) }
    ensures handles { HandlesStay document.old document.new }
    ensures document { OnErr result (tree_of document.new ≡ tree_of document.old) }
{
    object.sort_properties().by(
        document,
        |document: &CstRootNode<_>, one, other| compare_names(document, one, other),
    )
}

/// Sorts the properties of an object by their names, under the comments above the last blank line before each.
fn sort_under_headers<A: Allocator + Copy>(
    document: &mut CstRootNode<A>,
    object: CstObject,
) -> Result<(), EditError>
    requires { HasNode document.old (object_node object) }
    ensures sorted { OnOk result (IsSorted true document.old document.new object) }
    ensures memory { IfErr result (λ e. e ≡ EditError.OutOfMemory) }
    ensures handles { HandlesStay document.old document.new }
    ensures document { OnErr result (tree_of document.new ≡ tree_of document.old) }
{
    object.sort_properties().keep_headers().by(
        document,
        |document: &CstRootNode<_>, one, other| compare_names(document, one, other),
    )
}

/// Sorts the properties of an object by their names as they are written, without quotes, byte by byte.
///
/// What belongs to a property goes with it, all comments above it too; where headers are kept, those above the last blank
/// line before it stay where they are. Properties of one name stay in their order. Memory may be wanted, and then
/// the document stays as it was.
pub fn sort_object<A: Allocator + Copy>(
    document: &mut CstRootNode<A>,
    object: CstObject,
    keeps_headers: bool,
) -> Result<(), EditError>
    requires { HasNode document.old (object_node object) }
    ensures sorted { OnOk result (IsSorted keeps_headers document.old document.new object) }
    ensures memory { IfErr result (λ e. e ≡ EditError.OutOfMemory) }
    ensures handles { HandlesStay document.old document.new }
    ensures document { OnErr result (tree_of document.new ≡ tree_of document.old) }
{
    if keeps_headers {
        sort_under_headers(document, object)
    } else {
        sort_plainly(document, object)
    }
}

/// Sorts the properties of the document's object as [`sort_object`] does, and keeps no headers.
///
/// It is `Fault::NotObject` where the document's value is no object, or there is none. Memory may be wanted,
/// which is `Fault::Edit`. On an error the document stays as it was.
pub(crate) fn sort_properties<A: Allocator + Copy>(
    document: &mut CstRootNode<A>,
) -> Result<(), Fault<A>>
    ensures sorted { (o : Options)
        → OnOk result (SortsIfSound o (nodes_of document.old) (nodes_of document.new)) }
    ensures error { (o : Options)
        → SoundTree o (tree_of document.old) → IfErr result (EndsOnObject o (printed_of document.old)) }
    ensures document { OnErr result (tree_of document.new ≡ tree_of document.old) }
{
    let Some(object) = document.object_value() else {
        return Err(Fault::NotObject);
    };
    match sort_object(document, object, false) {
        Ok(()) => Ok(()),
        Err(error) => Err(Fault::Edit(error)),
    }
}
