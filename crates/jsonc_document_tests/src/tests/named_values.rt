//! The objects and arrays under names.

use crate::tests::reading::{child_at, read};
use failing_alloc::outcome::Outcome;
use jsonc_parser::cst::{CstArray, CstNode, CstObject, CstRootNode, ParentNode};
use std::alloc::Allocator;

/// An object under a name with an escape, an array and a number.
const TEXT: &str = "{\"\\u0061\": {}, \"b\": [2], \"c\": 1}";

/// The value of the property at a place.
fn value_at<A: Allocator>(doc: &CstRootNode<A>, place: usize) -> Option<CstNode> {
    let property = child_at(doc, place)?;
    property.child_at_index(doc, 3)
}

/// Whether these are the object and the array under a name.
fn are_under<A: Allocator + Copy>(
    doc: &CstRootNode<A>,
    name: &str,
    object: Option<CstObject>,
    array: Option<CstArray>,
) -> Outcome {
    let Some(value) = doc.object_value() else {
        return Outcome::Other;
    };
    Outcome::of_answer(value.object_value(doc, name), &object).then(Outcome::of_answer(
        value.array_value(doc, name),
        &array,
    ))
}

fn are_found<A: Allocator + Copy>(doc: &CstRootNode<A>) -> Outcome {
    let (Some(first), Some(second)) = (value_at(doc, 1), value_at(doc, 4)) else {
        return Outcome::Other;
    };
    let (Some(object), Some(array)) = (first.as_object(), second.as_array()) else {
        return Outcome::Other;
    };
    are_under(doc, "a", Some(object), None)
        .then(are_under(doc, "b", None, Some(array)))
        .then(are_under(doc, "c", None, None))
        .then(are_under(doc, "d", None, None))
}

/// Each name gives its object or its array, and one of a number or of nothing gives neither.
pub fn named_values<A: Allocator + Copy>(alloc: A) -> Outcome {
    match read(alloc, TEXT) {
        Ok(doc) => are_found(&doc),
        Err(outcome) => outcome,
    }
}
