//! Copies of values, of objects and of arrays.

use failing_alloc::outcome::Outcome;
use jsonc_parser::{JsonArray, JsonObject, JsonValue, ParseOptions, parse_to_value};
use std::alloc::Allocator;
use std::borrow::CowStr;
use std::default::Default;

/// An object in which a name and a string own their texts.
const OBJECT: &str = "{'l\\x61st': [true, 2.5, {}, null], first: 't\\x65xt'}";

fn is_name<A: Allocator>(name: Option<&CowStr<'static, A>>, wanted: &str) -> bool {
    match name {
        Some(name) => name.as_str() == wanted,
        None => false,
    }
}

/// Whether the object's names are these two, in this order.
fn has_names<A: Allocator>(object: JsonObject<'static, A>, first: &str, second: &str) -> bool {
    let map = object.take_inner();
    let mut names = map.keys();
    let is_first = is_name(names.next(), first);
    let is_second = is_name(names.next(), second);
    is_first && is_second && names.next().is_none()
}

/// Whether a copy has the names of the object that the value is.
fn are_names_copied<A: Allocator + Copy>(value: &JsonValue<'static, A>) -> Outcome {
    match value.try_clone() {
        Ok(JsonValue::Object(copy)) => Outcome::of(has_names(copy, "last", "first")),
        Ok(_) => Outcome::Other,
        Err(error) => Outcome::from(error),
    }
}

fn is_array_copied<A: Allocator + Copy>(array: &JsonArray<'static, A>) -> Outcome {
    match array.try_clone() {
        Ok(copy) => {
            let is_true = matches!(copy.get(0), Some(JsonValue::Boolean(true)));
            Outcome::of(is_true && copy == *array && copy.len() == 4)
        }
        Err(error) => Outcome::from(error),
    }
}

fn are_parts_copied<A: Allocator + Copy>(object: &JsonObject<'static, A>) -> Outcome {
    let is_object = Outcome::of_answer(object.try_clone(), object);
    match object.get_array("last") {
        Some(array) => is_object.then(is_array_copied(array)),
        None => Outcome::Other,
    }
}

fn is_copied<A: Allocator + Copy>(value: &JsonValue<'static, A>) -> Outcome {
    let is_value = Outcome::of_answer(value.try_clone(), value).then(are_names_copied(value));
    match value {
        JsonValue::Object(object) => is_value.then(are_parts_copied(object)),
        _ => Outcome::Other,
    }
}

/// A value, an object and an array are copied, and the copies compared with them.
pub fn copies<A: Allocator + Copy>(alloc: A) -> Outcome {
    match parse_to_value(alloc, OBJECT, &ParseOptions::default()) {
        Ok(Some(value)) => is_copied(&value),
        Ok(None) => Outcome::Other,
        Err(error) => Outcome::from(error),
    }
}
