//! Look-ups by name in the object of a text, as `JsonObject` answers them.

use crate::value::{push_boolean, push_value, push_word};
use jsonc_cases::lookups::{Kind, Lookup};
use jsonc_parser::{JsonObject, JsonValue, ParseOptions, parse_to_value};
use std::alloc::{AllocError, Global};

/// What is left of the object of a text, and the answer to each look-up.
pub fn looked_up(
    alloc: Global,
    text: &str,
    options: &ParseOptions,
    lookups: &[Lookup],
) -> Result<String, AllocError> {
    let Ok(Some(JsonValue::Object(object))) = parse_to_value(alloc, text, options) else {
        return String::from_str(alloc, "no-object");
    };
    let mut object = object;
    let answers = answered(alloc, &mut object, lookups)?;
    shown(alloc, object, answers.as_str())
}

/// An object, and what was answered of it.
fn shown(
    alloc: Global,
    object: JsonObject<'_, Global>,
    answers: &str,
) -> Result<String, AllocError> {
    let mut out = String::new(alloc);
    push_value(alloc, &mut out, JsonValue::Object(object))?;
    out.push_str(answers)?;
    Ok(out)
}

/// The answer to each look-up.
fn answered(
    alloc: Global,
    object: &mut JsonObject<'_, Global>,
    lookups: &[Lookup],
) -> Result<String, AllocError> {
    let mut out = String::new(alloc);
    for lookup in lookups {
        out.push('\t')?;
        push_answer(alloc, &mut out, object, lookup)?;
    }
    Ok(out)
}

fn push_answer(
    alloc: Global,
    out: &mut String,
    object: &mut JsonObject<'_, Global>,
    lookup: &Lookup,
) -> Result<(), AllocError> {
    let name = lookup.name.as_str();
    if !lookup.takes {
        return push_found(alloc, out, object, lookup.kind, name);
    }
    match taken(object, lookup.kind, name) {
        Some(value) => push_value(alloc, out, value),
        None => out.push('-'),
    }
}

fn taken<'a>(
    object: &mut JsonObject<'a, Global>,
    kind: Kind,
    name: &str,
) -> Option<JsonValue<'a, Global>> {
    match kind {
        Kind::Any => object.take(name),
        Kind::String => Some(JsonValue::String(object.take_string(name)?)),
        Kind::Number => Some(JsonValue::Number(object.take_number(name)?)),
        Kind::Boolean => Some(JsonValue::Boolean(object.take_boolean(name)?)),
        Kind::Object => Some(JsonValue::Object(object.take_object(name)?)),
        Kind::Array => Some(JsonValue::Array(object.take_array(name)?)),
    }
}

/// What is found: of a value, an object or an array a copy.
fn push_found(
    alloc: Global,
    out: &mut String,
    object: &JsonObject<'_, Global>,
    kind: Kind,
    name: &str,
) -> Result<(), AllocError> {
    match kind {
        Kind::Any => match object.get(name) {
            Some(value) => push_value(alloc, out, value.try_clone()?),
            None => out.push('-'),
        },
        Kind::String => match object.get_string(name) {
            Some(string) => push_word(out, '\'', string.as_str()),
            None => out.push('-'),
        },
        Kind::Number => match object.get_number(name) {
            Some(number) => push_word(out, '#', number),
            None => out.push('-'),
        },
        Kind::Boolean => match object.get_boolean(name) {
            Some(boolean) => push_boolean(out, boolean),
            None => out.push('-'),
        },
        Kind::Object => match object.get_object(name) {
            Some(object) => push_value(alloc, out, JsonValue::Object(object.try_clone()?)),
            None => out.push('-'),
        },
        Kind::Array => match object.get_array(name) {
            Some(array) => push_value(alloc, out, JsonValue::Array(array.try_clone()?)),
            None => out.push('-'),
        },
    }
}
