//! Names and values of properties, which are removed alone, and refused with their comments.

use crate::tests::inserted_comments::{At, node_of};
use crate::tests::reading::{asked_by, child_at, read};
use failing_alloc::Refusing;
use failing_alloc::awaited::prints;
use failing_alloc::in_turn::answers_in_turn;
use failing_alloc::outcome::Outcome;
use jsonc_parser::cst::{CstContainerNode, CstRootNode, EditError, TypedNode};
use jsonc_parser::patch::{Pointer, find};
use std::alloc::{Allocator, Global};
use std::test::Fail;

/// An object with a property of a number, and one of an array.
const OBJECT: &str = "{\"a\": 1, // c\n\"b\": [2, 3] // d\n}";

/// A text, a node of it, what its removal with its comments answers, and the text after it.
type Row = (&'static str, At, Result<(), EditError>, &'static str);

static PARTS: [Row; 7] = [
    (OBJECT, At::Below(1, 0), Err(EditError::NotAnEntry), OBJECT),
    (OBJECT, At::Below(1, 3), Err(EditError::NotAnEntry), OBJECT),
    (OBJECT, At::Below(6, 0), Err(EditError::NotAnEntry), OBJECT),
    (OBJECT, At::Below(6, 3), Err(EditError::NotAnEntry), OBJECT),
    (
        "{a:true}",
        At::Below(1, 0),
        Err(EditError::NotAnEntry),
        "{a:true}",
    ),
    (
        "{a:true}",
        At::Below(1, 2),
        Err(EditError::NotAnEntry),
        "{a:true}",
    ),
    (
        "{a: /* c */ {b: 1} // d\n}",
        At::Below(1, 5),
        Err(EditError::NotAnEntry),
        "{a: /* c */ {b: 1} // d\n}",
    ),
];

/// All other nodes: elements, properties, the document's value, and tokens, blanks and comments, of properties too.
static OTHERS: [Row; 13] = [
    (
        OBJECT,
        At::Within(6, 3, 1),
        Ok(()),
        "{\"a\": 1, // c\n\"b\": [ 3] // d\n}",
    ),
    (
        OBJECT,
        At::Within(6, 3, 4),
        Ok(()),
        "{\"a\": 1, // c\n\"b\": [2] // d\n}",
    ),
    (OBJECT, At::Child(6), Ok(()), "{\"a\": 1 // c\n}"),
    (
        OBJECT,
        At::Below(1, 1),
        Ok(()),
        "{\"a\" 1, // c\n\"b\": [2, 3] // d\n}",
    ),
    (
        OBJECT,
        At::Below(1, 2),
        Ok(()),
        "{\"a\":1, // c\n\"b\": [2, 3] // d\n}",
    ),
    (
        OBJECT,
        At::Child(2),
        Ok(()),
        "{\"a\": 1 // c\n\"b\": [2, 3] // d\n}",
    ),
    (
        OBJECT,
        At::Child(4),
        Ok(()),
        "{\"a\": 1,\n\"b\": [2, 3] // d\n}",
    ),
    (
        OBJECT,
        At::Child(9),
        Ok(()),
        "{\"a\": 1, // c\n\"b\": [2, 3] // d}",
    ),
    ("{a: /* c */ 1}", At::Below(1, 3), Ok(()), "{a:  1}"),
    ("{a:[1/*c*/2]}", At::Within(1, 2, 2), Ok(()), "{a:[1 2]}"),
    ("{a: {b: 1}}", At::Within(1, 3, 1), Ok(()), "{a: {}}"),
    ("[1]", At::Value, Ok(()), ""),
    ("\"a\"", At::Value, Ok(()), ""),
];

/// A part of the property that is removed alone, another one, and the text between the two removals.
static DAMAGED: [(At, At, &str); 5] = [
    (At::Below(1, 0), At::Below(1, 3), "{: 1}"),
    (At::Below(1, 1), At::Below(1, 0), "{a 1}"),
    (At::Below(1, 1), At::Below(1, 3), "{a 1}"),
    (At::Below(1, 3), At::Below(1, 0), "{a:}"),
    (At::Below(1, 2), At::Below(1, 3), "{a:1}"),
];

/// A node is removed with its comments, or refused, or memory was wanted for it.
fn removed<A: Allocator + Copy>(alloc: A, row: &Row) -> Outcome {
    let mut doc = match read(alloc, row.0) {
        Ok(doc) => doc,
        Err(outcome) => return outcome,
    };
    let Some(node) = node_of(&doc, row.1) else {
        return Outcome::Other;
    };
    match node.remove_with_comments(&mut doc) {
        Err(EditError::OutOfMemory) => Outcome::of(prints(&doc, row.0)).then(Outcome::Wanted),
        answer => Outcome::of(answer == row.2 && prints(&doc, row.3)),
    }
}

/// Whether a removal with comments was refused, and left the text as it was.
fn is_refused<A: Allocator>(
    doc: &CstRootNode<A>,
    removed: Result<(), EditError>,
    text: &str,
) -> bool {
    removed == Err(EditError::NotAnEntry) && prints(doc, text)
}

/// A part of a property is removed alone, the other one refused, and the property removed.
fn damaged<A: Allocator + Copy>(
    doc: &mut CstRootNode<A>,
    damage: At,
    part: At,
    between: &str,
) -> bool {
    let (Some(damage), Some(part), Some(property)) = (
        node_of(doc, damage),
        node_of(doc, part),
        child_at(doc, 1),
    ) else {
        return false;
    };
    let damaged = damage.remove(doc);
    let refused = part.remove_with_comments(doc);
    let is_kept = is_refused(doc, refused, between);
    let removed = property.remove_with_comments(doc);
    damaged == Ok(()) && is_kept && removed == Ok(()) && prints(&*doc, "{}")
}

/// The parts of a property that was removed are refused too, and the property stays as it is.
fn detached_property<A: Allocator + Copy>(doc: &mut CstRootNode<A>) -> bool {
    let (Some(property), Some(name), Some(value)) = (
        child_at(doc, 1),
        node_of(doc, At::Below(1, 0)),
        node_of(doc, At::Below(1, 3)),
    ) else {
        return false;
    };
    let removed = property.remove(doc);
    let name_refused = name.remove_with_comments(doc);
    let value_refused = value.remove_with_comments(doc);
    let again = property.remove_with_comments(doc);
    removed == Ok(())
        && name_refused == Err(EditError::NotAnEntry)
        && value_refused == Err(EditError::NotAnEntry)
        && again == Ok(())
        && prints(&*doc, "{\"b\": [2, 3] // d\n}")
}

/// An element that was removed stays as it is.
fn detached_element<A: Allocator + Copy>(doc: &mut CstRootNode<A>) -> bool {
    let Some(element) = node_of(doc, At::Within(6, 3, 1)) else {
        return false;
    };
    let removed = element.remove(doc);
    let again = element.remove_with_comments(doc);
    removed == Ok(()) && again == Ok(()) && prints(&*doc, "{\"a\": 1, // c\n\"b\": [ 3] // d\n}")
}

/// What a pointer to a property refers to is its value: that is refused, and its parent removed.
fn found<A: Allocator + Copy>(doc: &mut CstRootNode<A>, pointer: &Pointer<A>) -> bool {
    let Ok(Some(found)) = find(doc, pointer) else {
        return false;
    };
    if !doc.holds(found) {
        return false;
    }
    let Some(CstContainerNode::ObjectProp(property)) = found.parent(doc) else {
        return false;
    };
    let refused = found.remove_with_comments(doc);
    let is_kept = is_refused(doc, refused, OBJECT);
    if !doc.holds(property.node()) {
        return false;
    }
    let removed = property.remove_with_comments(doc);
    is_kept && removed == Ok(()) && prints(&*doc, "{\"a\": 1 // c\n}")
}

#[test]
fn parts_of_properties_are_refused_without_memory(rt: HostRuntime) {
    for row in &PARTS {
        let asked = asked_by(rt.alloc(), row.0);
        let heap = Refusing::after(rt.alloc(), asked);
        assert!(rt; removed(&heap, row) == Outcome::Answered, "{}", row.0);
        assert_eq!(rt; heap.asked(), asked);
        assert!(rt;
            answers_in_turn(rt.alloc(), |heap| removed(heap, row)),
            "{}",
            row.0
        );
    }
}

#[test]
fn other_nodes_are_removed_in_turn(rt: HostRuntime) {
    for row in &OTHERS {
        assert!(rt;
            removed::<Global>(rt.alloc(), row) == Outcome::Answered,
            "{}",
            row.3
        );
        assert!(rt;
            answers_in_turn(rt.alloc(), |heap| removed(heap, row)),
            "{}",
            row.3
        );
    }
}

#[test]
fn parts_of_damaged_properties_are_refused(rt: HostRuntime) -> Result<(), Fail> {
    for (damage, part, between) in &DAMAGED {
        let is_right = match read(rt.alloc(), "{a: 1}") {
            Ok(mut doc) => damaged(&mut doc, *damage, *part, between),
            Err(_) => false,
        };
        assert!(rt; is_right, "{between}");
    }
    Ok(())
}

#[test]
fn parts_of_removed_properties_are_refused(rt: HostRuntime) {
    let is_right = match read(rt.alloc(), OBJECT) {
        Ok(mut doc) => detached_property(&mut doc),
        Err(_) => false,
    };
    assert!(rt; is_right);
}

#[test]
fn removed_elements_stay_as_they_are(rt: HostRuntime) {
    let is_right = match read(rt.alloc(), OBJECT) {
        Ok(mut doc) => detached_element(&mut doc),
        Err(_) => false,
    };
    assert!(rt; is_right);
}

#[test]
fn what_a_pointer_refers_to_is_no_property(rt: HostRuntime) {
    let is_right = match (read(rt.alloc(), OBJECT), Pointer::parse(rt.alloc(), "/b")) {
        (Ok(mut doc), Ok(pointer)) => found(&mut doc, &pointer),
        _ => false,
    };
    assert!(rt; is_right);
}
