//! Copies of syntax trees and of their parts.

use failing_alloc::outcome::Outcome;
use jsonc_parser::ast::{Array, Node, NodeKind, Object, Value};
use jsonc_parser::common::Ranged;
use jsonc_parser::{CollectOptions, ParseOptions, ParseResult, parse_to_ast};
use std::alloc::Allocator;
use std::default::Default;

/// An object in which a name and a string own their texts, and two names lend theirs.
const OBJECT: &str = "{'l\\x61st': [true, 2.5, {}, null], first: 't\\x65xt', \"lent\": 1}";

/// Whether a node's copy is of the same array.
fn is_node_copied<A: Allocator>(node: &Node<'_, 'static, A>) -> Outcome {
    match node.clone() {
        Ok(copy) => {
            let is_array = copy.kind() == NodeKind::Array;
            Outcome::of(is_array && copy.range() == node.range())
        }
        Err(error) => Outcome::from(error),
    }
}

/// The truth value and the number at the front of an array, and the node of the array.
fn are_leaves_copied<A: Allocator>(array: &Array<'static, A>) -> Outcome {
    match (array.elements.get(0), array.elements.get(1)) {
        (Some(Value::BooleanLit(boolean)), Some(Value::NumberLit(number))) => {
            let is_boolean = Outcome::of_answer(boolean.clone(), boolean);
            let is_number = Outcome::of_answer(number.clone(), number);
            is_boolean
                .then(is_number)
                .then(is_node_copied(&Node::from(array)))
        }
        _ => Outcome::Other,
    }
}

fn are_parts_copied<A: Allocator + Copy>(object: &Object<'static, A>) -> Outcome {
    let (Some(property), Some(array), Some(string)) = (
        object.get("last"),
        object.get_array("last"),
        object.get_string("first"),
    ) else {
        return Outcome::Other;
    };
    let is_property = Outcome::of_answer(property.try_clone(), property);
    let is_name = Outcome::of_answer(property.name.try_clone(), &property.name);
    let is_value = Outcome::of_answer(property.value.try_clone(), &property.value);
    let is_array = Outcome::of_answer(array.try_clone(), array);
    let is_string = Outcome::of_answer(string.try_clone(), string);
    is_property
        .then(is_name)
        .then(is_value)
        .then(is_array)
        .then(is_string)
        .then(are_leaves_copied(array))
}

/// Takes the property of this name out, and says whether it has the name.
fn is_taken<A: Allocator + Copy>(alloc: A, object: &mut Object<'static, A>, name: &str) -> Outcome {
    match object.take(name) {
        Some(property) => Outcome::of_text(property.name.into_string(alloc), name),
        None => Outcome::Other,
    }
}

fn is_copied<A: Allocator + Copy>(alloc: A, object: Object<'static, A>) -> Outcome {
    let mut object = object;
    let is_object = Outcome::of_answer(object.try_clone(), &object);
    let are_parts = are_parts_copied(&object);
    let is_last = is_taken(alloc, &mut object, "last");
    let is_first = is_taken(alloc, &mut object, "first");
    let is_lent = is_taken(alloc, &mut object, "lent");
    let is_empty = Outcome::of(object.properties.len() == 0);
    is_object
        .then(are_parts)
        .then(is_last)
        .then(is_first)
        .then(is_lent)
        .then(is_empty)
}

/// The object of a text's syntax tree; the rest of what was read is let go.
pub fn tree_of<A: Allocator + Copy>(
    alloc: A,
    text: &'static str,
) -> Result<Object<'static, A>, Outcome> {
    let collect = CollectOptions::default();
    let parsed = match parse_to_ast(alloc, text, &collect, &ParseOptions::default()) {
        Ok(parsed) => parsed,
        Err(error) => return Err(Outcome::from(error)),
    };
    let ParseResult {
        comments,
        value,
        tokens,
    } = parsed;
    drop(comments);
    drop(tokens);
    match value {
        Some(Value::Object(object)) => Ok(object),
        _ => Err(Outcome::Other),
    }
}

/// An object and its parts are copied, and the copies compared with them; then its properties are taken out.
pub fn tree_copies<A: Allocator + Copy>(alloc: A) -> Outcome {
    match tree_of(alloc, OBJECT) {
        Ok(object) => is_copied(alloc, object),
        Err(outcome) => outcome,
    }
}
