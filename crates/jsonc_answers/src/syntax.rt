//! The syntax tree of a text.
use crate::comments::push_comments;
use crate::document::push_reprint;
use crate::show::{push_fault, push_token};
use jsonc_cases::escape::Escaped;
use jsonc_parser::ast::{Array, BooleanLit, Object, ObjectProp, ObjectPropName, Value};
use jsonc_parser::common::{Range, Ranged};
use jsonc_parser::tokens::TokenAndRange;
use jsonc_parser::{CollectOptions, ParseOptions, ParseResult, parse_to_ast};
use std::alloc::{AllocError, Global};

/// The syntax tree of a text with what was collected, or its fault.
pub fn syntax(
    alloc: Global,
    text: &str,
    collect: &CollectOptions,
    options: &ParseOptions,
) -> Result<String, AllocError> {
    let mut out = String::new(alloc);
    match parse_to_ast(alloc, text, collect, options) {
        Ok(parsed) => {
            push_parsed(alloc, &mut out, &parsed)?;
            push_reprint(alloc, &mut out, text, options)?;
        }
        Err(error) => push_fault(alloc, &mut out, &error)?,
    }
    Ok(out)
}

fn push_parsed(
    alloc: Global,
    out: &mut String,
    parsed: &ParseResult<'_, Global>,
) -> Result<(), AllocError> {
    out.push_str("ok\t")?;
    match &parsed.value {
        Some(value) => push_value(out, value)?,
        None => out.push('-')?,
    }
    match &parsed.comments {
        Some(comments) => push_comments(alloc, out, comments)?,
        None => out.push_str("\tno-map")?,
    }
    match &parsed.tokens {
        Some(tokens) => push_tokens(out, tokens.as_slice()),
        None => out.push_str("\tno-tokens"),
    }
}

fn push_tokens(out: &mut String, tokens: &[TokenAndRange<'_, Global>]) -> Result<(), AllocError> {
    write!(out, "\ttokens {}", tokens.len())?;
    for found in tokens {
        out.push('\t')?;
        push_token(out, &found.token, found.range.start, found.range.end)?;
    }
    Ok(())
}

fn push_range(out: &mut String, mark: &str, range: Range) -> Result<(), AllocError> {
    write!(out, "{mark}@{}-{}", range.start, range.end)
}

pub fn push_text(out: &mut String, mark: &str, range: Range, text: &str) -> Result<(), AllocError> {
    push_range(out, mark, range)?;
    write!(out, ":{}", Escaped::word(text))
}

pub fn push_boolean(out: &mut String, boolean: &BooleanLit) -> Result<(), AllocError> {
    push_range(out, if boolean.value { "T" } else { "F" }, boolean.range)
}

/// A value with its range, and those in it.
#[cycle(show)]
pub fn push_value(out: &mut String, value: &Value<'_, Global>) -> Result<(), AllocError> {
    match value {
        Value::NullKeyword(null) => push_range(out, "N", null.range),
        Value::BooleanLit(boolean) => push_boolean(out, boolean),
        Value::NumberLit(number) => push_text(out, "#", number.range, number.value),
        Value::StringLit(string) => push_text(out, "'", string.range, string.value.as_str()),
        Value::Array(array) => push_array(out, array),
        Value::Object(object) => push_object(out, object),
    }
}

/// An array with its range, and what is in it.
#[cycle(show)]
pub fn push_array(out: &mut String, array: &Array<'_, Global>) -> Result<(), AllocError> {
    push_range(out, "[", array.range)?;
    write!(out, "*{}", array.elements.len())?;
    for element in array.elements.iter() {
        out.push(' ')?;
        push_value(out, element)?;
    }
    Ok(())
}

/// An object with its range, and what is in it.
#[cycle(show)]
pub fn push_object(out: &mut String, object: &Object<'_, Global>) -> Result<(), AllocError> {
    push_range(out, "{", object.range)?;
    write!(out, "*{}", object.properties.len())?;
    for property in object.properties.iter() {
        out.push(' ')?;
        push_property(out, property)?;
    }
    Ok(())
}

#[cycle(show)]
fn push_property(out: &mut String, property: &ObjectProp<'_, Global>) -> Result<(), AllocError> {
    push_range(out, "p", property.range)?;
    out.push(' ')?;
    match &property.name {
        ObjectPropName::String(name) => push_text(out, "'", name.range, name.value.as_str())?,
        ObjectPropName::Word(name) => push_text(out, "w", name.range, name.value)?,
    }
    out.push(' ')?;
    push_value(out, &property.value)
}
