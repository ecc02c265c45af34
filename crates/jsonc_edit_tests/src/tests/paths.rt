//! The paths of nodes, by places and by names, and names that stand twice.

use crate::tests::reading::read;
use failing_alloc::in_turn::{answers_in_turn, is_refused_in_turn};
use failing_alloc::outcome::Outcome;
use jsonc_parser::cst::{CstLeafNode, CstNode, CstRootNode, TypedNode};
use jsonc_parser::settings::find_at;
use std::alloc::{Allocator, Global};
use std::test::Fail;

const TEXT: &str = r#"{"a": [1, {"b": 2}], "c": 3, "\u0061": 4}"#;

/// Places of the text, each with the path of the innermost node there, if it has one.
static PATHS: [(usize, Option<&[usize]>); 8] = [
    (7, Some(&[0, 0])),
    (16, Some(&[0, 1, 0])),
    (26, Some(&[1])),
    (39, Some(&[2])),
    (1, None),
    (6, None),
    (9, None),
    (27, None),
];

/// Whether a node has this path, or the memory for it was wanted.
fn is_path<A: Allocator + Copy>(
    doc: &CstRootNode<A>,
    node: CstNode,
    wanted: Option<&[usize]>,
) -> Outcome {
    if !doc.holds(node) {
        return Outcome::Other;
    }
    match doc.path(node) {
        Ok(Some(path)) => Outcome::of(wanted == Some(path.as_slice())),
        Ok(None) => Outcome::of(wanted.is_none()),
        Err(error) => Outcome::from(error),
    }
}

fn are_paths<A: Allocator + Copy>(doc: &CstRootNode<A>) -> Outcome {
    let mut outcome = Outcome::Answered;
    for (place, path) in &PATHS {
        let Some(node) = doc.node_at(*place) else {
            return Outcome::Other;
        };
        outcome = outcome.then(is_path(doc, node, *path));
    }
    outcome
}

/// The paths of the document's value and of the array in it, and of the root.
fn are_paths_of_containers<A: Allocator + Copy>(doc: &CstRootNode<A>) -> Outcome {
    let Some(object) = doc.object_value() else {
        return Outcome::Other;
    };
    let root = is_path(doc, doc.root().node(), None);
    let value = is_path(doc, object.node(), Some(&[]));
    match object.array_value(doc, "a") {
        Ok(Some(array)) => root
            .then(value)
            .then(is_path(doc, array.node(), Some(&[0]))),
        Ok(None) => Outcome::Other,
        Err(error) => Outcome::from(error),
    }
}

/// A text, a place in it, and the names that lead to the innermost node there, with the place of what those
/// names find; none where no names lead there.
type Named<'a> = (&'a str, usize, Option<(&'a [&'a str], usize)>);

/// Names in objects in one another, with escapes, and without quotes; the document's value; a name that
/// stands twice; arrays on the way; and nodes that are no values.
static NAMES: [Named; 12] = [
    ("{\"a\": {\"b\": 1}}", 12, Some((&["a", "b"], 12))),
    ("{\"\\u0061\": 2}", 11, Some((&["a"], 11))),
    ("{a: 3}", 4, Some((&["a"], 4))),
    ("1", 0, Some((&[], 0))),
    ("{\"a\": 1, \"a\": 2}", 6, Some((&["a"], 6))),
    ("{\"a\": 1, \"a\": 2}", 14, Some((&["a"], 6))),
    ("{\"a\": [1]}", 7, None),
    ("[{\"a\": 1}]", 7, None),
    ("{\"a\": 1}", 1, None),
    ("{\"a\": 1}", 5, None),
    ("{\"a\": 1}", 7, None),
    ("// c\n1", 0, None),
];

/// Whether these are the names, in their order.
fn are_names<A: Allocator>(found: &[String<A>], wanted: &[&str]) -> bool {
    if found.len() != wanted.len() {
        return false;
    }
    for (name, text) in found.iter().zip(wanted.iter()) {
        if name.as_str() != *text {
            return false;
        }
    }
    true
}

/// Whether these are the names, and what stands there is this node.
fn lead<A: Allocator + Copy>(
    doc: &CstRootNode<A>,
    names: &[String<A>],
    wanted: (&[&str], CstNode),
) -> Outcome {
    match find_at(doc, names) {
        Ok(found) => Outcome::of(are_names(names, wanted.0) && found == Some(wanted.1)),
        Err(error) => Outcome::from(error),
    }
}

/// Whether these names lead to a node, and find this one; or the memory for it was wanted.
fn has_names<A: Allocator + Copy>(
    doc: &CstRootNode<A>,
    node: CstNode,
    wanted: Option<(&[&str], CstNode)>,
) -> Outcome {
    if !doc.holds(node) {
        return Outcome::Other;
    }
    match (doc.path_of_names(node), wanted) {
        (Ok(Some(names)), Some(wanted)) => lead(doc, &names, wanted),
        (Ok(None), None) => Outcome::Answered,
        (Ok(_), _) => Outcome::Other,
        (Err(error), _) => Outcome::from(error),
    }
}

fn is_named<A: Allocator + Copy>(alloc: A, row: &Named<'_>) -> Outcome {
    let doc = match read(alloc, row.0) {
        Ok(doc) => doc,
        Err(outcome) => return outcome,
    };
    let Some(node) = doc.node_at(row.1) else {
        return Outcome::Other;
    };
    let Some((names, place)) = row.2 else {
        return has_names(&doc, node, None);
    };
    match doc.node_at(place) {
        Some(found) => has_names(&doc, node, Some((names, found))),
        None => Outcome::Other,
    }
}

/// The names that lead to the document's value and to the array in it, and to the root and a property none.
fn are_names_of_containers<A: Allocator + Copy>(doc: &CstRootNode<A>) -> Outcome {
    let Some(object) = doc.object_value() else {
        return Outcome::Other;
    };
    let root = has_names(doc, doc.root().node(), None);
    let value = has_names(doc, object.node(), Some((&[], object.node())));
    match object.get(doc, "a") {
        Ok(Some(property)) => {
            let Some(array) = property.value(doc) else {
                return Outcome::Other;
            };
            root.then(value)
                .then(has_names(doc, property.node(), None))
                .then(has_names(doc, array, Some((&["a"], array))))
        }
        Ok(None) => Outcome::Other,
        Err(error) => Outcome::from(error),
    }
}

/// No names lead through a property whose name does not decode, and a path does.
fn is_lost<A: Allocator + Copy>(alloc: A) -> Outcome {
    let mut doc = match read(alloc, "{\"a\": 1}") {
        Ok(doc) => doc,
        Err(outcome) => return outcome,
    };
    let Ok(text) = String::from_str(alloc, "\"\\1\"") else {
        return Outcome::Wanted;
    };
    let Some(CstNode::Leaf(CstLeafNode::StringLit(name))) = doc.node_at(1) else {
        return Outcome::Other;
    };
    name.set_raw_value(&mut doc, text);
    match doc.node_at(7) {
        Some(value) => is_path(&doc, value, Some(&[0])).then(has_names(&doc, value, None)),
        None => Outcome::Other,
    }
}

fn names_of_containers<A: Allocator + Copy>(alloc: A) -> Outcome {
    match read(alloc, TEXT) {
        Ok(doc) => are_names_of_containers(&doc),
        Err(outcome) => outcome,
    }
}

/// The one property whose name an earlier one has.
fn is_repeated<A: Allocator + Copy>(doc: &CstRootNode<A>) -> Outcome {
    let Some(object) = doc.object_value() else {
        return Outcome::Other;
    };
    match object.repeated_names(doc) {
        Ok(found) => {
            let is_third = found.len() == 1
                && doc.holds(found[0].node())
                && found[0].property_index(doc) == 2;
            Outcome::of(is_third)
        }
        Err(error) => Outcome::from(error),
    }
}

/// Paths of nodes.
fn paths<A: Allocator + Copy>(alloc: A) -> Outcome {
    match read(alloc, TEXT) {
        Ok(doc) => are_paths(&doc).then(are_paths_of_containers(&doc)),
        Err(outcome) => outcome,
    }
}

/// The names of an object that stand twice.
fn repeats<A: Allocator + Copy>(alloc: A) -> Outcome {
    match read(alloc, TEXT) {
        Ok(doc) => is_repeated(&doc),
        Err(outcome) => outcome,
    }
}

#[test]
fn nodes_have_paths(rt: HostRuntime) {
    assert!(rt; paths::<Global>(rt.alloc()) == Outcome::Answered);
    assert!(rt; is_refused_in_turn(rt.alloc(), |heap| paths(heap)));
}

#[test]
fn names_lead_to_nodes(rt: HostRuntime) -> Result<(), Fail> {
    let alloc = rt.alloc();
    for row in &NAMES {
        assert!(rt;
            is_named::<Global>(alloc, row) == Outcome::Answered,
            "{}",
            row.0
        );
        assert!(rt;
            is_refused_in_turn(alloc, |heap| is_named(heap, row)),
            "{}",
            row.0
        );
    }
    assert!(rt; names_of_containers::<Global>(alloc) == Outcome::Answered);
    assert!(rt; is_refused_in_turn(alloc, |heap| names_of_containers(heap)));
    assert!(rt; is_lost::<Global>(alloc) == Outcome::Answered);
    assert!(rt; is_refused_in_turn(alloc, |heap| is_lost(heap)));
    Ok(())
}

#[test]
fn names_are_repeated(rt: HostRuntime) {
    assert!(rt; repeats::<Global>(rt.alloc()) == Outcome::Answered);
    assert!(rt; answers_in_turn(rt.alloc(), |heap| repeats(heap)));
}
