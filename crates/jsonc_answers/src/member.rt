//! Look-ups by name in the object of a text, as its syntax tree answers them.

use crate::syntax::{push_array, push_boolean, push_object, push_text, push_value};
use jsonc_cases::lookups::{Kind, Lookup};
use jsonc_parser::ast::{Object, Value};
use jsonc_parser::{
    CollectOptions, CommentCollectionStrategy, ParseOptions, ParseResult, parse_to_ast,
};
use std::alloc::{AllocError, Global};

/// What is left of the object of a text, with its ranges, and the answer to each look-up.
pub fn looked_up_in_tree(
    alloc: Global,
    text: &str,
    options: &ParseOptions,
    lookups: &[Lookup],
) -> Result<String, AllocError> {
    let Some(object) = object_of(alloc, text, options) else {
        return String::from_str(alloc, "no-object");
    };
    let mut object = object;
    let answers = answered(alloc, &mut object, lookups)?;
    let mut out = String::new(alloc);
    push_object(&mut out, &object)?;
    out.push_str(answers.as_str())?;
    Ok(out)
}

/// The answer to each look-up.
fn answered(
    alloc: Global,
    object: &mut Object<'_, Global>,
    lookups: &[Lookup],
) -> Result<String, AllocError> {
    let mut out = String::new(alloc);
    for lookup in lookups {
        out.push('\t')?;
        push_answer(&mut out, object, lookup)?;
    }
    Ok(out)
}

/// The object of a text.
fn object_of<'a>(
    alloc: Global,
    text: &'a str,
    options: &ParseOptions,
) -> Option<Object<'a, Global>> {
    let collect = CollectOptions {
        comments: CommentCollectionStrategy::Off,
        tokens: false,
    };
    let Ok(
        ParseResult {
            comments,
            value,
            tokens,
        },
    ) = parse_to_ast(alloc, text, &collect, options)
    else {
        return None;
    };
    drop(comments);
    drop(tokens);
    match value {
        Some(Value::Object(object)) => Some(object),
        _ => None,
    }
}

fn push_answer(
    out: &mut String,
    object: &mut Object<'_, Global>,
    lookup: &Lookup,
) -> Result<(), AllocError> {
    let name = lookup.name.as_str();
    if !lookup.takes {
        return push_found(out, object, lookup.kind, name);
    }
    match taken(object, lookup.kind, name) {
        Some(value) => push_value(out, &value),
        None => out.push('-'),
    }
}

fn taken<'a>(object: &mut Object<'a, Global>, kind: Kind, name: &str) -> Option<Value<'a, Global>> {
    match kind {
        Kind::Any => Some(object.take(name)?.value),
        Kind::String => Some(Value::StringLit(object.take_string(name)?)),
        Kind::Number => Some(Value::NumberLit(object.take_number(name)?)),
        Kind::Boolean => Some(Value::BooleanLit(object.take_boolean(name)?)),
        Kind::Object => Some(Value::Object(object.take_object(name)?)),
        Kind::Array => Some(Value::Array(object.take_array(name)?)),
    }
}

/// What is found.
fn push_found(
    out: &mut String,
    object: &Object<'_, Global>,
    kind: Kind,
    name: &str,
) -> Result<(), AllocError> {
    match kind {
        Kind::Any => match object.get(name) {
            Some(property) => push_value(out, &property.value),
            None => out.push('-'),
        },
        Kind::String => match object.get_string(name) {
            Some(string) => push_text(out, "'", string.range, string.value.as_str()),
            None => out.push('-'),
        },
        Kind::Number => match object.get_number(name) {
            Some(number) => push_text(out, "#", number.range, number.value),
            None => out.push('-'),
        },
        Kind::Boolean => match object.get_boolean(name) {
            Some(boolean) => push_boolean(out, boolean),
            None => out.push('-'),
        },
        Kind::Object => match object.get_object(name) {
            Some(object) => push_object(out, object),
            None => out.push('-'),
        },
        Kind::Array => match object.get_array(name) {
            Some(array) => push_array(out, array),
            None => out.push('-'),
        },
    }
}
