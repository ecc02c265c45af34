//! Edits on typed nodes, and the memory that they want.

ghost use Rattle.jsonc_cst.specs.Document.{HasNode};
ghost use Rattle.jsonc_cst.specs.Nodes.{object_node};

use crate::tests::changes::{Change, Way};
use crate::tests::reading::{read, value_of};
use crate::tests::rows::{Edits, Memory, wants};
use failing_alloc::awaited::prints;
use jsonc_parser::cst::{CstObject, CstRootNode, EditError, Over, Shape, TrailingCommaMode};
use std::alloc::{Allocator, Global};
use std::slice::from_ref;
use std::test::Fail;

/// Whether an edit was made.
fn done<T: Drop>(answer: Result<T, EditError>) -> Result<(), EditError> {
    match answer {
        Ok(_) => Ok(()),
        Err(error) => Err(error),
    }
}

fn ensure_property<A: Allocator + Copy>(
    doc: &mut CstRootNode<A>,
    object: CstObject,
    name: &str,
    wanted: (Shape, Over),
) -> Result<(), EditError>
    requires { HasNode doc.old (object_node object) }
{
    match wanted {
        (Shape::Object, Over::Keep) => done(object.object_value_or_create(doc, name)),
        (Shape::Object, Over::Replace) => done(object.object_value_or_set(doc, name)),
        (Shape::Array, Over::Keep) => done(object.array_value_or_create(doc, name)),
        (Shape::Array, Over::Replace) => done(object.array_value_or_set(doc, name)),
    }
}

/// Changes the array or object of a document, or all its trailing commas.
pub fn change_node<A: Allocator + Copy>(
    doc: &mut CstRootNode<A>,
    alloc: A,
    change: Change,
) -> Result<(), EditError> {
    match (change, doc.array_value(), doc.object_value()) {
        (Change::SetTrailingCommas(mode), _, _) => doc.root().set_trailing_commas(doc, mode),
        (Change::EnsureMultiline, Some(array), _) => array.ensure_multiline(doc),
        (Change::EnsureMultiline, _, Some(object)) => object.ensure_multiline(doc),
        (Change::SetCommasOfValue(mode), Some(array), _) => array.set_trailing_commas(doc, mode),
        (Change::SetCommasOfValue(mode), _, Some(object)) => object.set_trailing_commas(doc, mode),
        (Change::Value(Way::Append, text), Some(array), _) => {
            done(array.append(doc, value_of(alloc, text)?))
        }
        (Change::Value(Way::Insert(index), text), Some(array), _) => {
            done(array.insert(doc, index, value_of(alloc, text)?))
        }
        (Change::Property(Way::Append, name, text), _, Some(object)) => {
            done(object.append(doc, name, value_of(alloc, text)?))
        }
        (Change::Property(Way::Insert(index), name, text), _, Some(object)) => {
            done(object.insert(doc, index, name, value_of(alloc, text)?))
        }
        (Change::EnsureProperty(name, shape, over), _, Some(object)) => {
            ensure_property(doc, object, name, (shape, over))
        }
        _ => Err(EditError::NoSuchPlace),
    }
}

const SET_COMMAS: Change = Change::SetTrailingCommas(TrailingCommaMode::IfMultiline);

const TAKE_COMMAS: Change = Change::SetTrailingCommas(TrailingCommaMode::Never);

const SET_OF_VALUE: Change = Change::SetCommasOfValue(TrailingCommaMode::IfMultiline);

const TAKE_OF_VALUE: Change = Change::SetCommasOfValue(TrailingCommaMode::Never);

/// An array on several lines, and the same with a comma behind its last element.
const BARE: &str = "[\n  1,\n  {\"a\": [2]}\n]";

const SET: &str = "[\n  1,\n  {\"a\": [2]},\n]";

/// An object on one line, and the same on several; and an array on several.
const FLAT: &str = "{\"a\":1, \"b\":[2]}";

const SPREAD: &str = "{\n  \"a\":1,\n  \"b\":[2]\n}";

const ARRAY: &str = "[\n  1,\n  [2]\n]";

const SPREAD_SET: &str = "{\n  \"a\":1,\n  \"b\":[2],\n}";

/// An object of one property, and what becomes of it.
const SHORT: &str = "{\"a\":1}";

const APPENDED: &str = "{\n  \"a\":1,\n  \"b\": true\n}";

const INSERTED: &str = "{\n  \"b\": true,\n  \"a\":1\n}";

const WITH_OBJECT: &str = "{\n  \"a\":1,\n  \"b\": {}\n}";

const WITH_ARRAY: &str = "{\n  \"a\":1,\n  \"b\": []\n}";

/// An object whose property is no array.
const SPACED: &str = "{\"a\": 1}";

/// The memory that a change wants, the change, a text, and the text after it.
static CHANGES: [(Memory, Change, &str, &str); 18] = [
    (
        Memory::Some,
        Change::Value(Way::Insert(1), "9"),
        "[1, 2]",
        "[1, 9,  2]",
    ),
    (
        Memory::Some,
        Change::Property(Way::Append, "b", "true"),
        SHORT,
        APPENDED,
    ),
    (
        Memory::Some,
        Change::Property(Way::Insert(0), "b", "true"),
        SHORT,
        INSERTED,
    ),
    (Memory::Some, SET_COMMAS, BARE, SET),
    (Memory::Some, SET_OF_VALUE, BARE, SET),
    (Memory::Some, SET_OF_VALUE, SPREAD, SPREAD_SET),
    (
        Memory::Edits,
        Change::Value(Way::Append, "2"),
        "[1 //c\n]",
        "[1, //c\n  2\n]",
    ),
    (Memory::Edits, Change::EnsureMultiline, FLAT, SPREAD),
    (Memory::Edits, Change::EnsureMultiline, "[1, [2]]", ARRAY),
    (Memory::None, Change::EnsureMultiline, SPREAD, SPREAD),
    (Memory::None, Change::EnsureMultiline, ARRAY, ARRAY),
    (Memory::None, TAKE_COMMAS, SET, BARE),
    (Memory::None, TAKE_COMMAS, BARE, BARE),
    (Memory::None, SET_COMMAS, SET, SET),
    (Memory::None, TAKE_OF_VALUE, SET, BARE),
    (Memory::None, TAKE_OF_VALUE, SPREAD_SET, SPREAD),
    (Memory::None, SET_OF_VALUE, SET, SET),
    (Memory::None, SET_OF_VALUE, SPREAD_SET, SPREAD_SET),
];

/// The shape that the value under a name is to have, a text, and the text with it.
static BY_NAME: [(&str, Shape, Over, &str, &str); 6] = [
    ("b", Shape::Object, Over::Keep, SHORT, WITH_OBJECT),
    ("b", Shape::Object, Over::Replace, SHORT, WITH_OBJECT),
    ("b", Shape::Array, Over::Keep, SHORT, WITH_ARRAY),
    ("b", Shape::Array, Over::Replace, SHORT, WITH_ARRAY),
    ("a", Shape::Array, Over::Keep, SPACED, SPACED),
    ("a", Shape::Array, Over::Replace, SPACED, "{\"a\": []}"),
];

#[test]
fn changes_want_memory_for_what_comes(rt: HostRuntime) -> Result<(), Fail> {
    for (memory, change, old, new) in &CHANGES {
        let row = (Edits::Node(*change), *old, from_ref(new));
        assert!(rt; wants(rt.alloc(), *memory, &row), "{old} to {new}");
    }
    for (name, shape, over, old, new) in &BY_NAME {
        let change = Change::EnsureProperty(name, *shape, *over);
        let row = (Edits::Node(change), *old, from_ref(new));
        assert!(rt; wants(rt.alloc(), Memory::Some, &row), "{old} to {new}");
    }
    Ok(())
}

/// Whether no array is answered where a number stands under the name, and nothing changes.
fn is_kept(alloc: Global) -> bool {
    let Ok(mut doc) = read(alloc, SPACED) else {
        return false;
    };
    let Some(object) = doc.object_value() else {
        return false;
    };
    let found = object.array_value_or_create(&mut doc, "a");
    matches!(found, Ok(None)) && prints(&doc, SPACED)
}

#[test]
fn a_number_is_kept(rt: HostRuntime) -> Result<(), Fail> {
    assert!(rt; is_kept(rt.alloc()));
    Ok(())
}
