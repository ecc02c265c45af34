//! The value at a place.
ghost use Rattle.std.specs.Prelude.{IfErr, IfOk, Some, string_bytes};
ghost use Rattle.jsonc_text.specs.OptionsOf.{parse_options};
ghost use Rattle.jsonc_engine.specs.Change.{IsGot};
ghost use Rattle.jsonc_program.specs.Values.{IsNotPointed, IsPointed, IsValueText};

use crate::edit::place::{Way, value_at};
use crate::edit::words::pointer_of;
use crate::edit::{EditFault, document_of};
use crate::raw::raw;
use jsonc_engine::command::{Command, Place};
use jsonc_engine::engine::run_with;
use jsonc_engine::fault::Fault;
use jsonc_parser::ParseOptions;
use jsonc_parser::cst::{EditError, TypedNode};
use std::alloc::Global;

/// The value at a pointer as it is written, and a line feed. Of equal names the first leads on.
fn pointed(
    alloc: Global,
    options: &ParseOptions,
    pointer: &str,
    input: &[u8],
) -> Result<String, EditFault<Global>>
    ensures found { IfOk result (λ text. IsPointed (parse_options options.now) pointer.now input.now (string_bytes text)) }
    ensures refused { IfErr result (IsNotPointed (parse_options options.now) pointer.entry input.now) }
{
    let pointer = pointer_of(alloc, pointer)?;
    let document = document_of(alloc, options, input)?;
    let way = Way::Tokens(pointer);
    let value = match value_at(&document, &way) {
        Ok(Some(value)) => value,
        Ok(None) => return Err(EditFault::Engine(Fault::NoSuchValue)),
        Err(error) => return Err(EditFault::from(error)),
    };
    match format!(in alloc; "{}\n", value.shown(&document)) {
        Ok(text) => Ok(text),
        Err(_) => Err(EditFault::from(EditError::OutOfMemory)),
    }
}

/// The value at names as it is written, and a line feed. Of equal names the first leads on.
fn named(
    alloc: Global,
    options: &ParseOptions,
    names: &str,
    input: &[u8],
) -> Result<String, EditFault<Global>>
    ensures { IfOk result (λ text. IsGot (parse_options options.now) names.now input.now (string_bytes text)) }
{
    let place = Place::Names(names);
    match run_with(alloc, options, Command::Get { place }, input) {
        Ok(Some(text)) => Ok(text),
        Ok(None) => Err(EditFault::Engine(Fault::NoSetting)),
        Err(fault) => Err(EditFault::Engine(fault)),
    }
}

/// The value at a place as it is written, or where it is a string and asked for raw its characters; and a line feed.
pub fn value_text(
    alloc: Global,
    options: &ParseOptions,
    place: Place<'_>,
    is_raw: bool,
    input: &[u8],
) -> Result<String, EditFault<Global>>
    ensures { IfOk result (λ text. IsValueText (parse_options options.now) place.entry is_raw input.now (string_bytes text)) }
{
    let written = match place {
        Place::Names(names) => named(alloc, options, names, input)?,
        Place::Pointer(pointer) => pointed(alloc, options, pointer, input)?,
    };
    if !is_raw {
        return Ok(written);
    }
    match raw(alloc, options, written) {
        Ok(text) => Ok(text),
        Err(error) => Err(EditFault::from(error)),
    }
}
