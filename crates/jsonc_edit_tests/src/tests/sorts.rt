//! Sorts: what they print, what is pinned, and the memory that they want.

ghost use Rattle.jsonc_cst.specs.Document.{HasNode};
ghost use Rattle.jsonc_cst.specs.Nodes.{array_node, object_node, object_prop_node};

use crate::tests::changes::{Change, Step};
use crate::tests::reading::read;
use crate::tests::rows::{Edits, is_made_in_turn};
use failing_alloc::awaited::prints;
use failing_alloc::outcome::Outcome;
use jsonc_parser::cst::{
    CstArray, CstComment, CstContainerNode, CstLeafNode, CstNode, CstObject, CstObjectProp,
    CstRootNode, EditError, ObjectPropName, ParentNode, TrailingCommaMode, TypedNode,
};
use std::alloc::{Allocator, Global};
use std::cmp::Ordering;
use std::slice::from_ref;
use std::test::Fail;

/// How elements or properties are sorted.
#[derive(Clone, Copy)]
pub enum By {
    /// By their texts.
    Text,
    /// The same, within groups.
    TextInGroups,
    /// The same, with so many comments pinned above each.
    TextPinning(usize),
    /// By the first characters of their texts.
    FirstCharacter,
    /// By keys, all of which are refused so.
    Refused(EditError),
    /// Properties by their names, where blank lines may pin the comments above.
    Name(bool),
    /// The same, where the comments above the last blank line are pinned.
    NameUnderHeaders,
}

/// The text of a number, or of a property's name, or nothing of another node.
fn text_of<'a, A: Allocator>(doc: &'a CstRootNode<A>, node: CstNode) -> &'a str
    requires { HasNode doc.now node }
{
    match node {
        CstNode::Leaf(CstLeafNode::NumberLit(number)) => number.raw_value(doc),
        CstNode::Container(CstContainerNode::ObjectProp(property)) => match property.name(doc) {
            Some(ObjectPropName::String(name)) => name.raw_value(doc),
            _ => "",
        },
        _ => "",
    }
}

/// Compares two nodes by their texts.
pub fn compare<A: Allocator>(doc: &CstRootNode<A>, one: CstNode, other: CstNode) -> Ordering
    requires one { HasNode doc.now one }
    requires other { HasNode doc.now other }
{
    text_of(doc, one).cmp(text_of(doc, other))
}

/// Compares two properties by their texts.
fn compare_properties<A: Allocator>(
    doc: &CstRootNode<A>,
    one: CstObjectProp,
    other: CstObjectProp,
) -> Ordering
    requires one { HasNode doc.now (object_prop_node one) }
    requires other { HasNode doc.now (object_prop_node other) }
{
    compare(doc, one.node(), other.node())
}

/// The first character of a node's text, if it has one.
fn first_of<A: Allocator>(doc: &CstRootNode<A>, node: CstNode) -> Option<char>
    requires { HasNode doc.now node }
{
    text_of(doc, node).chars().next()
}

fn sort_array<A: Allocator + Copy>(
    doc: &mut CstRootNode<A>,
    array: CstArray,
    by: By,
) -> Result<(), EditError>
    requires { HasNode doc.old (array_node array) }
{
    let sort = array.sort_elements();
    let compare = |doc: &CstRootNode<_>, one, other| compare(doc, one, other);
    match by {
        By::Text => sort.by(doc, compare),
        By::TextInGroups => sort.within_groups().by(doc, compare),
        By::TextPinning(count) => sort
            .pin_comment_headers_with(move |_: &CstRootNode<_>, _: CstNode, _: &[CstComment]| count)
            .by(doc, compare),
        By::FirstCharacter => {
            sort.by_key(doc, |doc: &CstRootNode<_>, node| Ok(first_of(doc, node)))
        }
        By::Refused(error) => sort.by_key(doc, move |_: &CstRootNode<_>, _: CstNode| {
            Err::<usize, EditError>(error)
        }),
        By::Name(_) | By::NameUnderHeaders => Err(EditError::NoSuchPlace),
    }
}

/// Sorts an object by the names of its properties, as they stand or decoded.
fn sort_object<A: Allocator + Copy>(
    doc: &mut CstRootNode<A>,
    object: CstObject,
    by: By,
) -> Result<(), EditError>
    requires { HasNode doc.old (object_node object) }
{
    let sort = object.sort_properties();
    let name = |doc: &CstRootNode<_>, property: CstObjectProp| match property.decoded_name(doc) {
        Ok(name) => Ok(name),
        Err(_) => Err(EditError::OutOfMemory),
    };
    match by {
        By::Text => {
            sort.by(
                doc,
                |doc: &CstRootNode<_>, one, other| compare_properties(doc, one, other),
            )
        }
        By::Name(true) => sort.pin_comment_headers().by_key(doc, name),
        By::Name(false) => sort.by_key(doc, name),
        By::NameUnderHeaders => sort.keep_headers().by_key(doc, name),
        _ => Err(EditError::NoSuchPlace),
    }
}

/// Sorts the array or object of a document.
pub fn sort_value<A: Allocator + Copy>(doc: &mut CstRootNode<A>, by: By) -> Result<(), EditError> {
    if let Some(array) = doc.array_value() {
        return sort_array(doc, array, by);
    }
    match doc.object_value() {
        Some(object) => sort_object(doc, object, by),
        None => Err(EditError::NoSuchPlace),
    }
}

/// Two comments above the first of two elements; and the same in order, with one of them pinned, with both
/// and with none.
const HEADED: &str = "[\n  // h\n  // x\n  2,\n  1\n]";

const ONE_PINNED: &str = "[\n  // h\n  1,\n  // x\n  2\n]";

const ALL_PINNED: &str = "[\n  // h\n  // x\n  1,\n  2\n]";

const NONE_PINNED: &str = "[\n  1,\n  // h\n  // x\n  2\n]";

/// A header behind the first bracket, and a comment above the second property; and the same in order, with
/// the header moved, and with it pinned.
const NAMED: &str = "{\n  // h\n\n  \"b\": 1,\n  // x\n  \"a\": 2\n}";

const MOVED: &str = "{\n  // x\n  \"a\": 2,\n  // h\n\n  \"b\": 1\n}";

const PINNED: &str = "{\n  // h\n\n  // x\n  \"a\": 2,\n  \"b\": 1\n}";

/// A header, and a comment about the first property below it; and the same in order, with the header kept.
const OWN: &str = "{\n  // h\n\n  // b\n  \"b\": 1,\n  \"a\": 2\n}";

const KEPT: &str = "{\n  // h\n\n  \"a\": 2,\n  // b\n  \"b\": 1\n}";

const BESIDE: &str = "{\"b\": 1, // one\n \"a\": 2}";

static ROWS: [(By, &str, &str); 16] = [
    (By::FirstCharacter, "[11, 0, 10]", "[0, 11, 10]"),
    (By::Text, "[2,\n\n 1]", "[1,\n 2]"),
    (By::Text, "[2, \n 1 // c\n]", "[1, // c \n 2\n]"),
    (By::Text, "[1, // c \n 2\n]", "[1, // c \n 2\n]"),
    (By::TextInGroups, "[3, 1,\n\n 2, 0]", "[1, 3,\n\n 0, 2]"),
    (By::Text, "[1]", "[1]"),
    (By::TextPinning(1), HEADED, ONE_PINNED),
    (By::TextPinning(usize::MAX), HEADED, ALL_PINNED),
    (By::TextPinning(0), HEADED, NONE_PINNED),
    (By::Name(false), NAMED, MOVED),
    (By::Name(true), NAMED, PINNED),
    (By::Name(false), BESIDE, "{\"a\": 2,\n \"b\": 1 // one\n}"),
    (By::Text, BESIDE, "{\"a\": 2,\n \"b\": 1 // one\n}"),
    (By::Text, NAMED, MOVED),
    (By::NameUnderHeaders, OWN, KEPT),
    (
        By::NameUnderHeaders,
        BESIDE,
        "{\"a\": 2,\n \"b\": 1 // one\n}",
    ),
];

#[test]
fn sorts_want_memory_or_are_made(rt: HostRuntime) -> Result<(), Fail> {
    for (by, old, new) in &ROWS {
        let row = (Edits::Sort(*by), *old, from_ref(new));
        assert!(rt; is_made_in_turn(rt.alloc(), &row), "{old} to {new}");
    }
    Ok(())
}

/// Whether a list pins headers and whether it keeps groups, a text, and the text after it.
static LISTED: [(bool, bool, &str, &str); 4] = [
    (false, false, "[2,\n\n 1]", "[1,\n 2]"),
    (false, true, "[3, 1,\n\n 2, 0]", "[1, 3,\n\n 0, 2]"),
    (false, false, NAMED, MOVED),
    (true, false, NAMED, PINNED),
];

#[test]
fn lists_that_sort_want_memory_or_are_made(rt: HostRuntime) -> Result<(), Fail> {
    for (pins, groups, old, new) in &LISTED {
        let step: Step = (&[], Change::Sort(*pins, *groups));
        let row = (Edits::List(from_ref(&step)), *old, from_ref(new));
        assert!(rt; is_made_in_turn(rt.alloc(), &row), "{old} to {new}");
    }
    Ok(())
}

/// Whether a sort by keys that are refused answers the refusal, and nothing changes.
fn is_refused(alloc: Global, error: EditError) -> bool {
    let Ok(mut doc) = read(alloc, HEADED) else {
        return false;
    };
    sort_value(&mut doc, By::Refused(error)) == Err(error) && prints(&doc, HEADED)
}

#[test]
fn a_refused_key_is_the_answer(rt: HostRuntime) -> Result<(), Fail> {
    assert!(rt; is_refused(rt.alloc(), EditError::NoSuchPlace));
    assert!(rt; is_refused(rt.alloc(), EditError::OutOfMemory));
    Ok(())
}

/// Takes the last bracket of an array of one element, and then sorts it and takes trailing commas away.
fn sort_without_bracket(alloc: Global) -> Outcome {
    let mut doc = match read(alloc, "[1]") {
        Ok(doc) => doc,
        Err(outcome) => return outcome,
    };
    let Some(array) = doc.array_value() else {
        return Outcome::Other;
    };
    let Some(CstNode::Leaf(CstLeafNode::Token(bracket))) = array.child_at_index(&doc, 2) else {
        return Outcome::Other;
    };
    bracket.remove(&mut doc);
    if !doc.holds(array.into()) {
        return Outcome::Other;
    }
    let sorted = sort_array(&mut doc, array, By::Text);
    if !doc.holds(array.into()) {
        return Outcome::Other;
    }
    let commas = array.set_trailing_commas(&mut doc, TrailingCommaMode::Never);
    Outcome::of(sorted.is_ok() && commas.is_ok() && prints(&doc, "[1"))
}

#[test]
fn without_a_bracket_nothing_changes(rt: HostRuntime) -> Result<(), Fail> {
    assert!(rt; sort_without_bracket(rt.alloc()) == Outcome::Answered);
    Ok(())
}
