//! The nodes of a document, reached from its root and by names.
ghost use Rattle.std.specs.Prelude.{IfOk};
ghost use Rattle.jsonc_cst.specs.Document.{HasNode};
ghost use Rattle.jsonc_cst.specs.Nodes.{array_node, object_prop_node};

use crate::tests::reading::{asked_by, read};
use failing_alloc::Refusing;
use failing_alloc::awaited::prints;
use failing_alloc::in_turn::answers_in_turn;
use failing_alloc::outcome::Outcome;
use jsonc_parser::cst::{
    CstArray, CstLeafNode, CstNode, CstObjectProp, CstRootNode, EditError, ParentNode, TypedNode,
};
use std::alloc::{Allocator, Global};

/// A comment, an array of nine parts and another comment, with blanks between.
const TEXT: &str = "/* c */ [1, 2,\n'\\x61'] // end";

/// What the array prints.
const ARRAY: &str = "[1, 2,\n'\\x61']";

/// An object over lines, with a comment at the end of one.
pub const SPREAD: &str = "{\n  \"a\": 1, // x\n  \"b\": [2]\n}";

/// A name in quotes with an escape, and one without quotes.
const NAMES: &str = "{\"\\u0061\": 'x\\ty', b: [2]} // end";

/// Whether a list has so many nodes, or the memory for it was wanted.
fn is_count<A: Allocator>(found: Result<Vec<CstNode, A>, EditError>, count: usize) -> Outcome {
    match found {
        Ok(found) => Outcome::of(found.len() == count),
        Err(error) => Outcome::from(error),
    }
}

fn are_children<A: Allocator + Copy>(doc: &CstRootNode<A>) -> Outcome {
    let root = CstNode::from(doc.root());
    let are_parts = is_count(root.children(doc), 5);
    match root.child_at_index(doc, 2) {
        Some(array) => {
            let is_array = array.as_array().is_some() && prints(&array.shown(doc), ARRAY);
            are_parts
                .then(is_count(array.children(doc), 9))
                .then(Outcome::of(is_array))
        }
        None => Outcome::Other,
    }
}

/// The children of the root and of the array in it, and what the array prints.
pub fn children<A: Allocator + Copy>(alloc: A) -> Outcome {
    match read(alloc, TEXT) {
        Ok(doc) => are_children(&doc),
        Err(outcome) => outcome,
    }
}

/// The property of this name.
fn property_of<A: Allocator + Copy>(
    doc: &CstRootNode<A>,
    name: &str,
) -> Result<CstObjectProp, Outcome>
    ensures { IfOk result (λ p. HasNode doc.now (object_prop_node p)) }
{
    let Some(object) = doc.object_value() else {
        return Err(Outcome::Other);
    };
    match object.get(doc, name) {
        Ok(Some(property)) => Ok(property),
        Ok(None) => Err(Outcome::Other),
        Err(error) => Err(Outcome::from(error)),
    }
}

/// No property has a name that is written so.
fn is_missing<A: Allocator + Copy>(doc: &CstRootNode<A>, name: &str) -> Outcome {
    match doc.object_value() {
        Some(object) => Outcome::of_answer(object.get(doc, name), &None),
        None => Outcome::Other,
    }
}

/// Whether a property has this name, decoded.
fn is_named<A: Allocator + Copy>(
    doc: &CstRootNode<A>,
    property: CstObjectProp,
    name: &str,
) -> Outcome
    requires { HasNode doc.now (object_prop_node property) }
{
    match property.name(doc) {
        Some(found) => Outcome::of_text(found.decoded_value(doc), name),
        None => Outcome::Other,
    }
}

fn is_first_told<A: Allocator + Copy>(doc: &CstRootNode<A>) -> Outcome {
    let first = match property_of(doc, "a") {
        Ok(first) => first,
        Err(outcome) => return outcome,
    };
    let is_decoded = match first.decoded_name(doc) {
        Ok(found) => Outcome::of(found.as_ref().map(|name| name.as_str()) == Some("a")),
        Err(error) => Outcome::from(error),
    };
    let is_told = is_decoded.then(is_named(doc, first, "a"));
    match first.value(doc) {
        Some(CstNode::Leaf(CstLeafNode::StringLit(string))) => {
            is_told.then(Outcome::of_text(string.decoded_value(doc), "x\ty"))
        }
        _ => Outcome::Other,
    }
}

fn is_second_told<A: Allocator + Copy>(doc: &CstRootNode<A>) -> Outcome {
    match property_of(doc, "b") {
        Ok(second) => {
            let is_array = second.array_value(doc).is_some();
            is_named(doc, second, "b").then(Outcome::of(is_array))
        }
        Err(outcome) => outcome,
    }
}

/// Properties by their names, and what strings stand for.
pub fn names<A: Allocator + Copy>(alloc: A) -> Outcome {
    match read(alloc, NAMES) {
        Ok(doc) => is_first_told(&doc)
            .then(is_second_told(&doc))
            .then(is_missing(&doc, "\\u0061")),
        Err(outcome) => outcome,
    }
}

/// Whether these are all properties of the document's object.
fn are_listed<A: Allocator + Copy>(doc: &CstRootNode<A>, wanted: &[CstObjectProp]) -> Outcome {
    let Some(object) = doc.object_value() else {
        return Outcome::Other;
    };
    match object.properties(doc) {
        Ok(found) => Outcome::of(found.as_slice() == wanted),
        Err(error) => Outcome::from(error),
    }
}

fn properties_stand<A: Allocator + Copy>(doc: &CstRootNode<A>) -> Outcome {
    match (property_of(doc, "a"), property_of(doc, "b")) {
        (Ok(first), Ok(second)) => are_listed(doc, &[first, second]),
        (Err(outcome), _) | (_, Err(outcome)) => outcome,
    }
}

fn siblings_stand<A: Allocator + Copy>(doc: &CstRootNode<A>) -> Outcome {
    let Some(object) = doc.object_value() else {
        return Outcome::Other;
    };
    is_count(
        CstNode::from(object).children_exclude_trivia_and_tokens(doc),
        2,
    )
}

/// Whether this is the only element of an array.
fn is_only<A: Allocator + Copy>(doc: &CstRootNode<A>, array: CstArray, element: CstNode) -> Outcome
    requires array { HasNode doc.now (array_node array) }
    requires element { HasNode doc.now element }
{
    let is_number = element.element_index(doc) == Some(0) && element.as_number_lit().is_some();
    match array.elements(doc) {
        Ok(found) => Outcome::of(is_number && found.as_slice() == [element].as_slice()),
        Err(error) => Outcome::from(error),
    }
}

/// The array under the object's last name has one element.
fn elements_stand<A: Allocator + Copy>(doc: &CstRootNode<A>, property: CstObjectProp) -> Outcome
    requires { HasNode doc.now (object_prop_node property) }
{
    let Some(array) = property.array_value(doc) else {
        return Outcome::Other;
    };
    let is_array = Outcome::of(property.object_value(doc) == None);
    match CstNode::from(array).child_at_index(doc, 1) {
        Some(element) => is_array.then(is_only(doc, array, element)),
        None => Outcome::Other,
    }
}

/// The document's value is its object.
fn values_stand<A: Allocator + Copy>(doc: &CstRootNode<A>) -> Outcome {
    let is_object = doc.value() == doc.object_value().map(CstNode::from);
    let is_value = Outcome::of(is_object && doc.array_value() == None);
    match property_of(doc, "b") {
        Ok(property) => is_value.then(elements_stand(doc, property)),
        Err(outcome) => outcome,
    }
}

/// The rows that typed nodes stand in.
fn typed_rows<A: Allocator + Copy>(alloc: A) -> Outcome {
    match read(alloc, SPREAD) {
        Ok(doc) => properties_stand(&doc)
            .then(siblings_stand(&doc))
            .then(values_stand(&doc)),
        Err(outcome) => outcome,
    }
}

/// Each list in the rows wants memory where all is refused once the text is read.
fn lists_want_memory(alloc: Global) -> bool {
    let heap = Refusing::after(alloc, asked_by(alloc, SPREAD));
    match read(&heap, SPREAD) {
        Ok(doc) => {
            properties_stand(&doc) == Outcome::Wanted
                && siblings_stand(&doc) == Outcome::Wanted
                && values_stand(&doc) == Outcome::Wanted
        }
        Err(_) => false,
    }
}

#[test]
fn typed_nodes_stand_in_their_rows(rt: HostRuntime) {
    assert!(rt; typed_rows::<Global>(rt.alloc()) == Outcome::Answered);
    assert!(rt; answers_in_turn(rt.alloc(), |heap| typed_rows(heap)));
    assert!(rt; lists_want_memory(rt.alloc()));
}
