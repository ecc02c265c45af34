//! The value of a text, by what is read of its view.

use crate::show::push_fault;
use crate::value::{push_boolean, push_word};
use jsonc_parser::ParseOptions;
use jsonc_parser::view::{JsonView, ViewArray, ViewObject, ViewValue, parse_to_view};
use std::alloc::{AllocError, Global};

/// The value of a text, or that it has none, or its fault: what `value` answers.
pub fn viewed(alloc: Global, text: &str, options: &ParseOptions) -> Result<String, AllocError> {
    let mut out = String::new(alloc);
    match parse_to_view(alloc, text, options) {
        Ok(view) => push_found(alloc, &mut out, &view)?,
        Err(error) => push_fault(alloc, &mut out, &error)?,
    }
    Ok(out)
}

fn push_found(
    alloc: Global,
    out: &mut String,
    view: &JsonView<'_, Global>,
) -> Result<(), AllocError> {
    out.push_str("ok\t")?;
    match view.value() {
        Some(value) => push_value(alloc, out, value),
        None => out.push('-'),
    }
}

/// What is still to be shown.
#[derive(Drop)]
enum Part<'v, 'a> {
    Property(&'v str, ViewValue<'v, 'a, Global>),
    Value(ViewValue<'v, 'a, Global>),
}

fn push_value<'v, 'a>(
    alloc: Global,
    out: &mut String,
    value: ViewValue<'v, 'a, Global>,
) -> Result<(), AllocError> {
    // The next part is the last.
    let mut parts = Vec::new(alloc);
    parts.push(Part::Value(value))?;
    for number in 0..u64::MAX {
        let Some(part) = parts.pop() else {
            break;
        };
        if number > 0 {
            out.push(' ')?;
        }
        push_part(out, &mut parts, part)?;
    }
    Ok(())
}

fn push_part<'v, 'a>(
    out: &mut String,
    parts: &mut Vec<Part<'v, 'a>>,
    part: Part<'v, 'a>,
) -> Result<(), AllocError> {
    match part {
        Part::Property(name, value) => {
            parts.push(Part::Value(value))?;
            push_word(out, '\'', name)
        }
        Part::Value(ViewValue::String(text)) => push_word(out, '\'', text),
        Part::Value(ViewValue::Number(text)) => push_word(out, '#', text),
        Part::Value(ViewValue::Boolean(boolean)) => push_boolean(out, boolean),
        Part::Value(ViewValue::Null) => out.push('N'),
        Part::Value(ViewValue::Array(array)) => put_elements(out, parts, &array),
        Part::Value(ViewValue::Object(object)) => put_properties(out, parts, &object),
    }
}

fn put_elements<'v, 'a>(
    out: &mut String,
    parts: &mut Vec<Part<'v, 'a>>,
    array: &ViewArray<'v, 'a, Global>,
) -> Result<(), AllocError> {
    let count = array.len();
    for behind in 0..count {
        if let Some(element) = array.get(count - 1 - behind) {
            parts.push(Part::Value(element))?;
        }
    }
    write!(out, "[{count}")
}

/// Whether an object has the name of a property in one before it.
fn stands_before<'v, 'a>(object: &ViewObject<'v, 'a, Global>, place: usize, name: &str) -> bool {
    for index in 0..place {
        if let Some((other, _)) = object.get_index(index)
            && other == name
        {
            return true;
        }
    }
    false
}

/// Each name stands where it stands first, with the value that it is looked up by.
fn put_properties<'v, 'a>(
    out: &mut String,
    parts: &mut Vec<Part<'v, 'a>>,
    object: &ViewObject<'v, 'a, Global>,
) -> Result<(), AllocError> {
    let len = object.len();
    let mut count = 0usize;
    for behind in 0..len {
        let place = len - 1 - behind;
        if let Some((name, _)) = object.get_index(place)
            && !stands_before(object, place, name)
            && let Some(value) = object.get(name)
        {
            parts.push(Part::Property(name, value))?;
            count = count.saturating_add(1);
        }
    }
    write!(out, "{{{count}")
}
