//! The value of a text.

use crate::show::push_fault;
use crate::view::viewed;
use jsonc_cases::escape::Escaped;
use jsonc_parser::{JsonArray, JsonObject, JsonValue, ParseOptions, check, parse_to_value};
use std::alloc::{AllocError, Global};
use std::borrow::CowStr;

/// The value of a text, or that it has none, or its fault; and what a check or a view tells of the text, where that is
/// anything else.
pub fn value(alloc: Global, text: &str, options: &ParseOptions) -> Result<String, AllocError> {
    let checked = told_by_a_check(alloc, text, options)?;
    let mut out = String::new(alloc);
    let is_told = match parse_to_value(alloc, text, options) {
        Ok(found) => {
            push_found(alloc, &mut out, found)?;
            checked.is_none()
        }
        Err(error) => {
            push_fault(alloc, &mut out, &error)?;
            checked.as_ref() == Some(&out)
        }
    };
    let viewed = viewed(alloc, text, options)?;
    let is_viewed = viewed == out;
    if !is_told {
        push_check(&mut out, checked.as_ref())?;
    }
    if !is_viewed {
        write!(out, "\tview: {viewed}")?;
    }
    Ok(out)
}

fn push_found(
    alloc: Global,
    out: &mut String,
    found: Option<JsonValue<'_, Global>>,
) -> Result<(), AllocError> {
    out.push_str("ok\t")?;
    match found {
        Some(value) => push_value(alloc, out, value),
        None => out.push('-'),
    }
}

/// The fault of a text that a check refuses.
fn told_by_a_check(
    alloc: Global,
    text: &str,
    options: &ParseOptions,
) -> Result<Option<String>, AllocError> {
    match check(alloc, text, options) {
        Ok(()) => Ok(None),
        Err(error) => {
            let mut out = String::new(alloc);
            push_fault(alloc, &mut out, &error)?;
            Ok(Some(out))
        }
    }
}

fn push_check(out: &mut String, checked: Option<&String>) -> Result<(), AllocError> {
    out.push_str("\tcheck: ")?;
    match checked {
        Some(fault) => out.push_str(fault.as_str()),
        None => out.push_str("ok"),
    }
}

/// Whether two texts have equal values.
pub fn equal<'a>(
    alloc: Global,
    one: &'a str,
    other: &'a str,
    options: &ParseOptions,
) -> Result<String, AllocError> {
    let holds = match value_of(alloc, one, options) {
        Some(one) => is_value_of(alloc, &one, other, options),
        None => None,
    };
    String::from_str(alloc, told(holds))
}

fn told(holds: Option<bool>) -> &'static str {
    match holds {
        Some(true) => "true",
        Some(false) => "false",
        None => "no-value",
    }
}

/// The value of a text that has one.
fn value_of<'a>(
    alloc: Global,
    text: &'a str,
    options: &ParseOptions,
) -> Option<JsonValue<'a, Global>> {
    match parse_to_value(alloc, text, options) {
        Ok(value) => value,
        Err(_) => None,
    }
}

/// Whether a text that has a value has an equal one.
fn is_value_of<'a>(
    alloc: Global,
    value: &JsonValue<'a, Global>,
    text: &'a str,
    options: &ParseOptions,
) -> Option<bool> {
    match value_of(alloc, text, options) {
        Some(other) => Some(*value == other),
        None => None,
    }
}

/// What is still to be shown.
#[derive(Drop)]
enum Part<'a> {
    Property(CowStr<'a, Global>, JsonValue<'a, Global>),
    Value(JsonValue<'a, Global>),
}

/// A value as a run of words, each node before those in it.
pub fn push_value(
    alloc: Global,
    out: &mut String,
    value: JsonValue<'_, Global>,
) -> Result<(), AllocError> {
    // The next part is the last.
    let mut parts = Vec::new(alloc);
    parts.push(Part::Value(value))?;
    for number in 0..u64::MAX {
        let Some(part) = parts.pop() else {
            break;
        };
        if number > 0 {
            out.push(' ')?;
        }
        push_part(alloc, out, &mut parts, part)?;
    }
    Ok(())
}

fn push_part<'a>(
    alloc: Global,
    out: &mut String,
    parts: &mut Vec<Part<'a>>,
    part: Part<'a>,
) -> Result<(), AllocError> {
    match part {
        Part::Property(name, value) => {
            parts.push(Part::Value(value))?;
            push_word(out, '\'', name.as_str())
        }
        Part::Value(JsonValue::String(text)) => push_word(out, '\'', text.as_str()),
        Part::Value(JsonValue::Number(text)) => push_word(out, '#', text),
        Part::Value(JsonValue::Boolean(boolean)) => push_boolean(out, boolean),
        Part::Value(JsonValue::Null) => out.push('N'),
        Part::Value(JsonValue::Array(array)) => put_elements(out, parts, array),
        Part::Value(JsonValue::Object(object)) => put_properties(alloc, out, parts, object),
    }
}

pub fn push_word(out: &mut String, mark: char, text: &str) -> Result<(), AllocError> {
    write!(out, "{mark}{}", Escaped::word(text))
}

pub fn push_boolean(out: &mut String, boolean: bool) -> Result<(), AllocError> {
    out.push(if boolean { 'T' } else { 'F' })
}

fn put_elements<'a>(
    out: &mut String,
    parts: &mut Vec<Part<'a>>,
    array: JsonArray<'a, Global>,
) -> Result<(), AllocError> {
    let mut elements = array.take_inner();
    let count = elements.len();
    for _ in 0..count {
        if let Some(element) = elements.pop() {
            parts.push(Part::Value(element))?;
        }
    }
    write!(out, "[{count}")
}

fn put_properties<'a>(
    alloc: Global,
    out: &mut String,
    parts: &mut Vec<Part<'a>>,
    object: JsonObject<'a, Global>,
) -> Result<(), AllocError> {
    let mut properties: Vec<_> = object.into_iter().collect(alloc)?;
    let count = properties.len();
    for _ in 0..count {
        if let Some((name, value)) = properties.pop() {
            parts.push(Part::Property(name, value))?;
        }
    }
    write!(out, "{{{count}")
}
