//! What words say: the value of a JSON text, the names that one lists, and a pointer.
ghost use Rattle.std.specs.Prelude.{◌≡◌, IfErr, IfOk, Some, chars, false, map, option_map, true};
ghost use Rattle.jsonc_text.specs.Options.{Options, all_on};
ghost use Rattle.jsonc_text.specs.OptionsOf.{parse_options};
ghost use Rattle.jsonc_text.specs.Plain.{array};
ghost use Rattle.jsonc_ast.specs.Views as ast;
ghost use Rattle.jsonc_layout.specs.input.Views.{items_of, plain};
ghost use Rattle.jsonc_parser.specs.paths.Found.{names_of};
ghost use Rattle.jsonc_parser.specs.patch.Pointer.{tokens_of};
ghost use Rattle.jsonc_engine.specs.Argument.{AreNames, AreNoNames, IsArgument, IsFaultOfArgument, IsFaultOfJson};
ghost use Rattle.jsonc_engine.specs.Argument.{IsFaultOfNames, IsFaultOfPath, IsFaultOfText, IsPath, IsValueOf, items_in, strings, text_in};
ghost use Rattle.jsonc_engine.specs.Change.{IsChangeFor};
ghost use Rattle.jsonc_engine.specs.Command.{find, put};
ghost use Rattle.jsonc_engine.specs.Finding.{IsPointer};

use crate::fault::Fault;
use crate::task::Change;
use jsonc_parser::ast::Value;
use jsonc_parser::cst::{CstInputValue, EditError, input};
use jsonc_parser::patch::{Pointer, PointerError};
use jsonc_parser::{CollectOptions, ParseOptions, parse_to_ast};
use std::alloc::Allocator;

/// The pointer of a text. A text that is none is `Fault::Pointer`.
pub fn pointer_of<A: Allocator + Copy>(alloc: A, text: &str) -> Result<Pointer<A>, Fault<A>>
    ensures parsed { IfOk result (λ pointer. IsPointer text.now (tokens_of pointer)) }
    ensures refused { (o : Options) → IfErr result (IsFaultOfText o (find text.now)) }
{
    match Pointer::parse(alloc, text) {
        Ok(pointer) => Ok(pointer),
        Err(PointerError::OutOfMemory) => Err(Fault::Edit(EditError::OutOfMemory)),
        Err(error) => Err(Fault::Pointer(error)),
    }
}

/// The value of a JSON text, which may hold what the options allow; of equal names the last at the first place.
///
/// A text that is no document is `Fault::Argument`, one without a value `Fault::NoValue`.
pub fn value_of<A: Allocator + Copy>(
    alloc: A,
    options: &ParseOptions,
    json: &str,
) -> Result<CstInputValue<A>, Fault<A>>
    ensures value { IfOk result (λ value. IsValueOf (parse_options options.now) json.now (plain value)) }
    ensures refused { IfErr result (IsFaultOfJson (parse_options options.now) json.now) }
{
    match input::from_json(alloc, json, options) {
        Ok(Some(value)) => Ok(value),
        Ok(None) => Err(Fault::NoValue),
        Err(error) => Err(Fault::Argument(error)),
    }
}

/// The value of a command's JSON text, which may hold all that options allow.
pub(crate) fn argument_of<A: Allocator + Copy>(
    alloc: A,
    json: &str,
) -> Result<CstInputValue<A>, Fault<A>>
    ensures value { IfOk result (λ value. IsArgument json.now (plain value)) }
    ensures refused { IfErr result (IsFaultOfJson all_on json.now) }
{
    value_of(alloc, &ParseOptions::default(), json)
}

/// The text of a value that is a string, with its escapes decoded.
pub fn text_of<'b, A: Allocator>(value: &'b Value<'_, A>) -> Option<&'b str>
    ensures { option_map (λ s. chars s.now) result ≡ text_in (ast.plain value.now) }
{
    match value {
        Value::StringLit(string) => Some(string.value.as_str()),
        Value::NumberLit(_) => None,
        Value::BooleanLit(_) => None,
        Value::Object(_) => None,
        Value::Array(_) => None,
        Value::NullKeyword(_) => None,
    }
}

/// The elements of a value that is an array.
fn elements_of<'b, 'a, A: Allocator>(value: &'b Value<'a, A>) -> Option<&'b [Value<'a, A>]>
    ensures { option_map (λ vs. items_of (map ast.plain vs.now)) result ≡ items_in (ast.plain value.now) }
{
    match value {
        Value::StringLit(_) => None,
        Value::NumberLit(_) => None,
        Value::BooleanLit(_) => None,
        Value::Object(_) => None,
        Value::Array(array) => Some(array.elements.as_slice()),
        Value::NullKeyword(_) => None,
    }
}

/// Whether these values are strings.
fn are_strings<A: Allocator>(values: &[Value<'_, A>]) -> bool
    ensures strings { result ≡ true → AreNames (Some (array (items_of (map ast.plain values.now)))) }
    ensures other { result ≡ false → AreNoNames (Some (array (items_of (map ast.plain values.now)))) }
{
    for value in values {
        let Some(_) = text_of(value) else {
            return false;
        };
    }
    true
}

/// The strings that these values are, or `Fault::NotNames` where one is no string, which is seen without memory.
fn strings_of<A: Allocator + Copy>(
    alloc: A,
    values: &[Value<'_, A>],
) -> Result<Vec<String<A>, A>, Fault<A>>
    ensures strings { IfOk result (λ names. array (items_of (map ast.plain values.now)) ≡ strings (names_of names.items)) }
    ensures refused { IfErr result (IsFaultOfNames (Some (array (items_of (map ast.plain values.now))))) }
{
    if !are_strings(values) {
        return Err(Fault::NotNames);
    }
    let mut names = Vec::new(alloc);
    for value in values {
        let Some(text) = text_of(value) else {
            return Err(Fault::NotNames);
        };
        let name = String::from_str(alloc, text)?;
        names.push(name)?;
    }
    Ok(names)
}

/// The names that a value is, if there is one.
fn names_in<A: Allocator + Copy>(
    alloc: A,
    value: &Option<Value<'_, A>>,
) -> Result<Vec<String<A>, A>, Fault<A>>
    ensures names { IfOk result (λ names. option_map ast.plain value.now ≡ Some (strings (names_of names.items))) }
    ensures refused { IfErr result (IsFaultOfNames (option_map ast.plain value.now)) }
{
    let Some(value) = value else {
        return Err(Fault::NotNames);
    };
    match elements_of(value) {
        Some(elements) => strings_of(alloc, elements),
        None => Err(Fault::NotNames),
    }
}

/// The names that a JSON text lists, which may hold all that options allow: of `["a", 'b']` these are `a` and `b`.
///
/// A text that is no document is `Fault::Path`; one that has no value, or a value that is no list of strings, is
/// `Fault::NotNames`. Behind the parse, memory is wanted for the names alone.
pub fn read_path<A: Allocator + Copy>(alloc: A, path: &str) -> Result<Vec<String<A>, A>, Fault<A>>
    ensures names { IfOk result (λ names. IsPath path.now (names_of names.items)) }
    ensures refused { IfErr result (IsFaultOfPath path.now) }
{
    match parse_to_ast(
        alloc,
        path,
        &CollectOptions::default(),
        &ParseOptions::default(),
    ) {
        Ok(read) => names_in(alloc, &read.value),
        Err(error) => Err(Fault::Path(error)),
    }
}

/// A value that is put at names: the path is read before the JSON text.
pub(crate) fn put_of<'a, A: Allocator + Copy>(
    alloc: A,
    path: &str,
    json: &str,
) -> Result<Change<'a, A>, Fault<A>>
    ensures change { IfOk result (IsChangeFor (put path.now json.now)) }
    ensures refused { (o : Options) → IfErr result (IsFaultOfArgument o (put path.now json.now)) }
{
    let names = match read_path(alloc, path) {
        Ok(names) => names,
        Err(fault) => return Err(fault),
    };
    match argument_of(alloc, json) {
        Ok(value) => Ok(Change::Put(names, value)),
        Err(fault) => Err(fault),
    }
}
