//! Commands that change the document.
ghost use Rattle.std.specs.Prelude.{◌≡◌, chars, IfErr, OnErr, OnOk};
ghost use Rattle.jsonc_text.specs.Options.{Options};
ghost use Rattle.jsonc_layout.specs.input.Views.{plain};
ghost use Rattle.jsonc_sound.specs.SoundTrees.{SoundTree};
ghost use Rattle.jsonc_cst.specs.Document.{nodes_of, printed_of, tree_of};
ghost use Rattle.jsonc_engine.specs.Appending.{AppendsIfSound};
ghost use Rattle.jsonc_engine.specs.Change.{IsChangeFor, MakesIfSound};
ghost use Rattle.jsonc_engine.specs.Command.{Request};
ghost use Rattle.jsonc_engine.specs.Fault.{EndsAppending, EndsOnObject, EndsSetting, IsFaultOn};
ghost use Rattle.jsonc_engine.specs.Removal.{LosesIfSound};
ghost use Rattle.jsonc_engine.specs.Setting.{SetsIfSound};

use crate::fault::Fault;
use crate::settings::{drop_setting, put_setting};
use crate::sort::sort_properties;
use crate::task::Change;
use jsonc_parser::cst::{CstInputValue, CstRootNode, EditError};
use jsonc_walk::context::MAXIMUM_NESTING;
use std::alloc::Allocator;

/// Takes the first property of a name out of the document's object, with what leaves with it. Where the
/// object has none of that name the document stays as it is.
///
/// It is `Fault::NotObject` where the document's value is no object, or there is none. Memory may be wanted
/// for the decoded names and for a space, which is `Fault::Edit`. On an error the document stays as it was.
fn remove_property<A: Allocator + Copy>(
    document: &mut CstRootNode<A>,
    name: &str,
) -> Result<(), Fault<A>>
    ensures removed { (o : Options)
        → OnOk result (LosesIfSound o (chars name.now) (nodes_of document.old) (nodes_of document.new)) }
    ensures error { (o : Options)
        → SoundTree o (tree_of document.old) → IfErr result (EndsOnObject o (printed_of document.old)) }
    ensures document { OnErr result (tree_of document.new ≡ tree_of document.old) }
{
    let Some(object) = document.object_value() else {
        return Err(Fault::NotObject);
    };
    let Some(property) = object.get(document, name)? else {
        return Ok(());
    };
    match property.remove(document) {
        Ok(()) => Ok(()),
        Err(error) => Err(Fault::Edit(error)),
    }
}

/// Puts a value behind the last element of the document's array. A document without a value first gets an
/// empty array.
///
/// It is `Fault::NotArray` where the document's value is another. `Fault::Edit` tells of a value that would be
/// nested too deep, before the document is looked at; or memory may be wanted, and then a document without a value
/// may have got the empty array.
fn append_element<A: Allocator + Copy>(
    document: &mut CstRootNode<A>,
    value: CstInputValue<A>,
) -> Result<(), Fault<A>>
    ensures appended { (o : Options)
        → OnOk result (AppendsIfSound o (plain value) (nodes_of document.old) (nodes_of document.new)) }
    ensures error { (o : Options)
        → SoundTree o (tree_of document.old) → IfErr result (EndsAppending o (printed_of document.old) (plain value)) }
{
    if !value.is_within(MAXIMUM_NESTING - 1) {
        return Err(Fault::Edit(EditError::NestingDepthExceeded));
    }
    let array = match document.array_value_or_create() {
        Ok(Some(array)) => array,
        Ok(None) => return Err(Fault::NotArray),
        Err(error) => return Err(Fault::Edit(error)),
    };
    match array.append(document, value) {
        Ok(_) => Ok(()),
        Err(error) => Err(Fault::Edit(error)),
    }
}

/// Sets the value of the first property of a name in the document's object, or puts such a property behind its
/// last one. A document without a value first gets an empty object.
///
/// It is `Fault::NotObject` where the document's value is another. `Fault::Edit` tells of a value that would be
/// nested too deep, before the document is looked at; or memory may be wanted, and then a document without a value
/// may have got the empty object.
fn set_property<A: Allocator + Copy>(
    document: &mut CstRootNode<A>,
    name: &str,
    value: CstInputValue<A>,
) -> Result<(), Fault<A>>
    ensures set { (o : Options)
        → OnOk result (SetsIfSound o (chars name.now) (plain value) (nodes_of document.old) (nodes_of document.new)) }
    ensures error { (o : Options)
        → SoundTree o (tree_of document.old)
        → IfErr result (EndsSetting o (printed_of document.old) (chars name.now) (plain value)) }
{
    if !value.is_within(MAXIMUM_NESTING - 2) {
        return Err(Fault::Edit(EditError::NestingDepthExceeded));
    }
    let object = match document.object_value_or_create() {
        Ok(Some(object)) => object,
        Ok(None) => return Err(Fault::NotObject),
        Err(error) => return Err(Fault::Edit(error)),
    };
    let found = match object.get(document, name) {
        Ok(found) => found,
        Err(error) => return Err(Fault::Edit(error)),
    };
    match found {
        Some(property) => match property.set_value(document, value) {
            Ok(_) => Ok(()),
            Err(error) => Err(Fault::Edit(error)),
        },
        None => match object.append(document, name, value) {
            Ok(_) => Ok(()),
            Err(error) => Err(Fault::Edit(error)),
        },
    }
}

/// Makes a change of the document.
pub(crate) fn make<A: Allocator + Copy>(
    document: &mut CstRootNode<A>,
    change: Change<'_, A>,
) -> Result<(), Fault<A>>
    ensures made { (o : Options) (request : Request)
        → IsChangeFor request change.entry
        → OnOk result (MakesIfSound o request (nodes_of document.old) (nodes_of document.new)) }
    ensures error { (o : Options) (request : Request)
        → IsChangeFor request change.entry
        → SoundTree o (tree_of document.old)
        → IfErr result (IsFaultOn o request (printed_of document.old)) }
{
    match change {
        Change::Set(name, value) => set_property(document, name, value),
        Change::Append(value) => append_element(document, value),
        Change::Remove(name) => remove_property(document, name),
        Change::Sort => sort_properties(document),
        Change::Put(names, value) => put_setting(document, &names, value),
        Change::Drop(names) => drop_setting(document, &names),
    }
}
