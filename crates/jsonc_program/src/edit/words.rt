//! The places and the values that words name.

ghost use Rattle.std.specs.Prelude.{◌≡◌, IfErr, IfOk, Some, chars, false, map, option_map, true, []};
ghost use Rattle.jsonc_text.specs.OptionsOf.{parse_options};
ghost use Rattle.jsonc_text.specs.Plain.{array};
ghost use Rattle.jsonc_ast.specs.Views as ast;
ghost use Rattle.jsonc_layout.specs.input.Views.{items_of, plain};
ghost use Rattle.jsonc_parser.specs.paths.Found.{names_of};
ghost use Rattle.jsonc_parser.specs.patch.Pointer.{tokens_of};
ghost use Rattle.jsonc_engine.specs.Argument.{AreNames, AreNoNames, IsFaultOfNames, IsFaultOfPath, IsPath, items_in};
ghost use Rattle.jsonc_engine.specs.Argument.{strings, text_in};
ghost use Rattle.jsonc_engine.specs.Finding.{IsPointer};
ghost use Rattle.jsonc_engine.specs.declared.command.Place.{Place};
ghost use Rattle.jsonc_program.specs.edit.Faults.{IsFaultOfJson, IsFaultOfPlace, IsFaultOfPlaceIf};
ghost use Rattle.jsonc_program.specs.edit.Faults.{IsFaultOfTarget};
ghost use Rattle.jsonc_program.specs.edit.Routes.{route_of};
ghost use Rattle.jsonc_program.specs.edit.Words.{IsJson, IsRouteIf, IsRouteOf, IsRouteTo};

use crate::edit::fault::EditFault;
use crate::edit::place::Way;
use crate::edit::task::Target;
use jsonc_engine::command::Place;
use jsonc_engine::fault::Fault;
use jsonc_parser::ast::Value;
use jsonc_parser::cst::{CstInputValue, EditError, input};
use jsonc_parser::patch::{Pointer, PointerError};
use jsonc_parser::{CollectOptions, ParseOptions, parse_to_ast};
use std::alloc::Allocator;

/// The pointer of a text.
pub(crate) fn pointer_of<A: Allocator + Copy>(
    alloc: A,
    text: &str,
) -> Result<Pointer<A>, EditFault<A>>
    ensures parsed { IfOk result (λ pointer. IsPointer text.now (tokens_of pointer)) }
    ensures refused { IfErr result (IsFaultOfPlace (Place.Pointer text.entry)) }
{
    match Pointer::parse(alloc, text) {
        Ok(pointer) => Ok(pointer),
        Err(PointerError::OutOfMemory) => Err(EditFault::from(EditError::OutOfMemory)),
        Err(error) => Err(EditFault::Engine(Fault::Pointer(error))),
    }
}

/// The value of a JSON text, of equal names the last at the first place.
pub(crate) fn value_of<A: Allocator + Copy>(
    alloc: A,
    options: &ParseOptions,
    json: &str,
) -> Result<CstInputValue<A>, EditFault<A>>
    ensures value { IfOk result (λ value. IsJson (parse_options options.now) json.now (plain value)) }
    ensures refused { IfErr result (IsFaultOfJson (parse_options options.now) json.now) }
{
    match input::from_json(alloc, json, options) {
        Ok(Some(value)) => Ok(value),
        Ok(None) => Err(EditFault::Engine(Fault::NoValue)),
        Err(error) => Err(EditFault::Engine(Fault::Argument(error))),
    }
}

/// The text of a value that is a string.
pub(crate) fn text_of<'b, A: Allocator>(value: &'b Value<'_, A>) -> Option<&'b str>
    ensures { option_map (λ s. chars s.now) result ≡ text_in (ast.plain value.now) }
{
    match value {
        Value::StringLit(string) => Some(string.value.as_str()),
        Value::NumberLit(_) => None,
        Value::BooleanLit(_) => None,
        Value::Object(_) => None,
        Value::Array(_) => None,
        Value::NullKeyword(_) => None,
    }
}

/// The elements of a value that is an array.
fn elements_of<'b, 'a, A: Allocator>(value: &'b Value<'a, A>) -> Option<&'b [Value<'a, A>]>
    ensures { option_map (λ vs. items_of (map ast.plain vs.now)) result ≡ items_in (ast.plain value.now) }
{
    match value {
        Value::StringLit(_) => None,
        Value::NumberLit(_) => None,
        Value::BooleanLit(_) => None,
        Value::Object(_) => None,
        Value::Array(array) => Some(array.elements.as_slice()),
        Value::NullKeyword(_) => None,
    }
}

/// Whether these values are strings.
fn are_strings<A: Allocator>(values: &[Value<'_, A>]) -> bool
    ensures strings { result ≡ true → AreNames (Some (array (items_of (map ast.plain values.now)))) }
    ensures other { result ≡ false → AreNoNames (Some (array (items_of (map ast.plain values.now)))) }
{
    for value in values {
        let Some(_) = text_of(value) else {
            return false;
        };
    }
    true
}

/// The strings that these values are, or a fault where one is none, which is seen without memory.
fn strings_of<A: Allocator + Copy>(
    alloc: A,
    values: &[Value<'_, A>],
) -> Result<Vec<String<A>, A>, Fault<A>>
    ensures strings { IfOk result (λ names. array (items_of (map ast.plain values.now)) ≡ strings (names_of names.items)) }
    ensures refused { IfErr result (IsFaultOfNames (Some (array (items_of (map ast.plain values.now))))) }
{
    if !are_strings(values) {
        return Err(Fault::NotNames);
    }
    let mut names = Vec::new(alloc);
    for value in values {
        let Some(text) = text_of(value) else {
            return Err(Fault::NotNames);
        };
        let name = String::from_str(alloc, text)?;
        names.push(name)?;
    }
    Ok(names)
}

/// The names that a value is, if there is one.
fn names_in<A: Allocator + Copy>(
    alloc: A,
    value: &Option<Value<'_, A>>,
) -> Result<Vec<String<A>, A>, Fault<A>>
    ensures names { IfOk result (λ names. option_map ast.plain value.now ≡ Some (strings (names_of names.items))) }
    ensures refused { IfErr result (IsFaultOfNames (option_map ast.plain value.now)) }
{
    let Some(value) = value else {
        return Err(Fault::NotNames);
    };
    match elements_of(value) {
        Some(elements) => strings_of(alloc, elements),
        None => Err(Fault::NotNames),
    }
}

/// The names of a path, which is read under the default options, as the engine reads it.
fn read_path<A: Allocator + Copy>(alloc: A, path: &str) -> Result<Vec<String<A>, A>, Fault<A>>
    ensures names { IfOk result (λ names. IsPath path.now (names_of names.items)) }
    ensures refused { IfErr result (IsFaultOfPath path.now) }
{
    match parse_to_ast(
        alloc,
        path,
        &CollectOptions::default(),
        &ParseOptions::default(),
    ) {
        Ok(read) => names_in(alloc, &read.value),
        Err(error) => Err(Fault::Path(error)),
    }
}

/// The way to a place.
pub(crate) fn way_to<A: Allocator + Copy>(
    alloc: A,
    place: Place<'_>,
) -> Result<Way<A>, EditFault<A>>
    ensures way { IfOk result (λ way. IsRouteTo place.entry (route_of way)) }
    ensures refused { IfErr result (IsFaultOfPlace place.entry) }
{
    match place {
        Place::Pointer(text) => match pointer_of(alloc, text) {
            Ok(pointer) => Ok(Way::Tokens(pointer)),
            Err(fault) => Err(fault),
        },
        Place::Names(path) => match read_path(alloc, path) {
            Ok(names) => Ok(Way::Names(names)),
            Err(fault) => Err(EditFault::Engine(fault)),
        },
    }
}

/// The way to the first property of a name in the document's object.
fn way_by_name<A: Allocator + Copy>(alloc: A, name: &str) -> Result<Way<A>, EditFault<A>>
    ensures way { IfOk result (λ way. IsRouteOf (Target.Named name.entry) (route_of way)) }
    ensures refused { IfErr result (IsFaultOfTarget (Target.Named name.entry)) }
{
    let name = String::from_str(alloc, name)?;
    let mut names = Vec::new(alloc);
    names.push(name)?;
    Ok(Way::Names(names))
}

/// The way to what an edit is of.
pub(crate) fn way_of<A: Allocator + Copy>(
    alloc: A,
    target: Target<'_>,
) -> Result<Way<A>, EditFault<A>>
    ensures way { IfOk result (λ way. IsRouteOf target.entry (route_of way)) }
    ensures refused { IfErr result (IsFaultOfTarget target.entry) }
{
    match target {
        Target::At(place) => way_to(alloc, place),
        Target::Named(name) => way_by_name(alloc, name),
    }
}

/// The way to what is sorted: without a place, to the document's value, to which no names lead.
pub(crate) fn way_if<A: Allocator + Copy>(
    alloc: A,
    at: Option<Place<'_>>,
) -> Result<Way<A>, EditFault<A>>
    ensures way { IfOk result (λ way. IsRouteIf at.entry (route_of way)) }
    ensures refused { IfErr result (IsFaultOfPlaceIf at.entry) }
{
    match at {
        Some(place) => way_to(alloc, place),
        None => Ok(Way::Names(Vec::new(alloc))),
    }
}
