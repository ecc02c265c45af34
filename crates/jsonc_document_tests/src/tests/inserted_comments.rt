//! Comments that are inserted above entries and after them, and the memory that they want.
ghost use Rattle.std.specs.Prelude.{IfSome};
ghost use Rattle.jsonc_cst.specs.Document.{HasNode};

use crate::tests::reading::{asked_by, child_at, read};
use failing_alloc::Refusing;
use failing_alloc::awaited::prints;
use failing_alloc::in_turn::answers_in_turn;
use failing_alloc::outcome::Outcome;
use jsonc_parser::cst::{
    CstContainerNode, CstLeafNode, CstNode, CstRootNode, EditError, ParentNode, Place, TypedNode,
};
use std::alloc::{Allocator, Global};
use std::test::Fail;

/// Which node of a document.
#[derive(Clone, Copy)]
pub enum At {
    /// The document's value.
    Value,
    /// Its child at a place.
    Child(usize),
    /// The child of that at a place.
    Below(usize, usize),
    /// And the child of that at a place.
    Within(usize, usize, usize),
}

/// A text, an entry of it, a comment, and the texts with the comment above the entry and after it: none where a line
/// comment would take the rest of the line.
type Row = (
    &'static str,
    At,
    &'static str,
    &'static str,
    Option<&'static str>,
);

static ROWS: [Row; 19] = [
    ("[1, 2]", At::Child(4), "// c", "[1,\n  // c\n  2]", None),
    (
        "[1, 2]",
        At::Child(1),
        "/* c */",
        "[\n  /* c */\n  1, 2]",
        Some("[1, /* c */ 2]"),
    ),
    (
        "[1,   2]",
        At::Child(4),
        "/* c */",
        "[1,   \n  /* c */\n  2]",
        Some("[1,   2 /* c */]"),
    ),
    (
        "{\n  \"a\": 1,\n  \"b\": 2\n}\n",
        At::Child(3),
        "// c",
        "{\n  // c\n  \"a\": 1,\n  \"b\": 2\n}\n",
        Some("{\n  \"a\": 1, // c\n  \"b\": 2\n}\n"),
    ),
    (
        "{\n  \"a\": 1,\n  \"b\": 2\n}\n",
        At::Child(7),
        "// c",
        "{\n  \"a\": 1,\n  // c\n  \"b\": 2\n}\n",
        Some("{\n  \"a\": 1,\n  \"b\": 2 // c\n}\n"),
    ),
    (
        "{\r\n\t\"a\": 1 /* x */ ,  \r\n\t\"b\": [3, 4]\r\n}",
        At::Child(3),
        "// c",
        "{\r\n\t// c\r\n\t\"a\": 1 /* x */ ,  \r\n\t\"b\": [3, 4]\r\n}",
        Some("{\r\n\t\"a\": 1 /* x */ ,   // c\r\n\t\"b\": [3, 4]\r\n}"),
    ),
    (
        "[\r\n\t1,\r\n\t[3, 4]\r\n]",
        At::Below(7, 1),
        "// c",
        "[\r\n\t1,\r\n\t[\r\n\t\t// c\r\n\t\t3, 4]\r\n]",
        None,
    ),
    ("1", At::Value, "// c", "// c\n1", Some("1 // c")),
    (
        "  1  \n",
        At::Value,
        "// c",
        "  // c\n  1  \n",
        Some("  1   // c\n"),
    ),
    (
        "/* x */ 1 /* y */",
        At::Value,
        "// c",
        "/* x */ \n// c\n1 /* y */",
        None,
    ),
    (
        "// x\n1 // y",
        At::Value,
        "/* c */",
        "// x\n/* c */\n1 // y",
        Some("// x\n1 /* c */ // y"),
    ),
    (
        "{}\r\n// end",
        At::Value,
        "// c",
        "// c\r\n{}\r\n// end",
        Some("{} // c\r\n// end"),
    ),
    (
        "[\n  1\n  , 2\n]",
        At::Child(3),
        "// c",
        "[\n  // c\n  1\n  , 2\n]",
        Some("[\n  1 // c\n  , 2\n]"),
    ),
    (
        "[\n  1,\n  2,\n]",
        At::Child(7),
        "// c",
        "[\n  1,\n  // c\n  2,\n]",
        Some("[\n  1,\n  2, // c\n]"),
    ),
    (
        "[\n\t1, 2\n]",
        At::Child(6),
        "// c",
        "[\n\t1, \n\t// c\n\t2\n]",
        Some("[\n\t1, 2 // c\n]"),
    ),
    (
        "[\n  1 /* x */, // y\n  2\n]",
        At::Child(3),
        "/* c */",
        "[\n  /* c */\n  1 /* x */, // y\n  2\n]",
        Some("[\n  1 /* x */, /* c */ // y\n  2\n]"),
    ),
    (
        "[\n  1, // y\n  2\n]",
        At::Child(3),
        "// c",
        "[\n  // c\n  1, // y\n  2\n]",
        None,
    ),
    (
        "{a:1,b:2}",
        At::Child(1),
        "// c",
        "{\n  // c\n  a:1,b:2}",
        None,
    ),
    (
        "[1 2]",
        At::Child(1),
        "/* c\n   d */",
        "[\n  /* c\n   d */\n  1 2]",
        Some("[1 /* c\n   d */ 2]"),
    ),
];

/// Texts, and what stands above the document's value where one is a whole comment.
static TEXTS: [(&str, Option<&str>); 13] = [
    ("", None),
    ("/", None),
    ("c", None),
    ("//", Some("//\n1")),
    ("// a", Some("// a\n1")),
    ("// a\n", None),
    ("//a\r", None),
    ("/**/", Some("/**/\n1")),
    ("/*/", None),
    ("/* a\n*/", Some("/* a\n*/\n1")),
    ("/* a */ ", None),
    (" /**/", None),
    ("/* */ */", None),
];

/// Nodes that are no entries.
const OTHERS: &str = "{/* c */ a: [1]}";

static OTHER_NODES: [At; 5] = [
    At::Child(0),
    At::Child(1),
    At::Child(2),
    At::Below(3, 0),
    At::Below(3, 3),
];

/// A text, a leaf that is removed from it, an entry, and the text with a comment above it then.
static DAMAGED: [(&str, At, At, &str); 4] = [
    ("[1, 2]", At::Child(5), At::Child(4), "[1,\n  // c\n  2"),
    ("[1,2]", At::Child(2), At::Child(2), "[1\n  // c\n  2]"),
    ("{a: 1}", At::Below(1, 1), At::Child(1), "{\n  // c\n  a 1}"),
    (
        "{\n  a: 1\n}",
        At::Child(5),
        At::Child(3),
        "{\n  // c\n  a: 1\n",
    ),
];

/// The node of a document.
pub fn node_of<A: Allocator>(doc: &CstRootNode<A>, at: At) -> Option<CstNode>
    ensures { IfSome result (HasNode doc.now) }
{
    match at {
        At::Value => doc.value(),
        At::Child(place) => child_at(doc, place),
        At::Below(place, below) => {
            let child = child_at(doc, place)?;
            child.child_at_index(doc, below)
        }
        At::Within(place, below, within) => {
            let child = child_at(doc, place)?;
            let inner = child.child_at_index(doc, below)?;
            inner.child_at_index(doc, within)
        }
    }
}

/// Inserts a comment by the call that its node has.
fn insert<A: Allocator + Copy>(
    doc: &mut CstRootNode<A>,
    node: CstNode,
    text: &str,
    place: Place,
) -> Result<(), EditError>
    requires { HasNode doc.old node }
{
    match node {
        CstNode::Container(CstContainerNode::ObjectProp(property)) => {
            property.insert_comment(doc, text, place)
        }
        _ => node.insert_comment(doc, text, place),
    }
}

/// A comment is inserted, or refused since it would take the rest of the line.
fn inserted<A: Allocator + Copy>(alloc: A, row: &Row, place: Place) -> Outcome {
    let mut doc = match read(alloc, row.0) {
        Ok(doc) => doc,
        Err(outcome) => return outcome,
    };
    let Some(entry) = node_of(&doc, row.1) else {
        return Outcome::Other;
    };
    let wanted = match place {
        Place::Above => Some(row.3),
        Place::After => row.4,
    };
    match (insert(&mut doc, entry, row.2, place), wanted) {
        (Ok(()), Some(text)) => Outcome::of(prints(&doc, text)),
        (Err(EditError::OutOfMemory), Some(_)) => {
            Outcome::of(prints(&doc, row.0)).then(Outcome::Wanted)
        }
        (Err(EditError::LineContinues), None) => Outcome::of(prints(&doc, row.0)),
        _ => Outcome::Other,
    }
}

/// A text is inserted above the document's value, or is no comment.
fn above_value<A: Allocator + Copy>(
    doc: &mut CstRootNode<A>,
    text: &str,
    wanted: Option<&str>,
) -> bool {
    let Some(value) = doc.value() else {
        return false;
    };
    match (value.insert_comment(doc, text, Place::Above), wanted) {
        (Ok(()), Some(wanted)) => prints(&*doc, wanted),
        (Err(EditError::InvalidComment), None) => prints(&*doc, "1"),
        _ => false,
    }
}

/// A node that is no entry has no comment inserted, and none of its own.
fn is_no_entry<A: Allocator + Copy>(doc: &mut CstRootNode<A>, at: At) -> bool {
    let Some(node) = node_of(doc, at) else {
        return false;
    };
    let above = insert(doc, node, "// c", Place::Above);
    if !doc.holds(node) {
        return false;
    }
    let after = insert(doc, node, "/* c */", Place::After);
    above == Err(EditError::NotAnEntry)
        && after == Err(EditError::NotAnEntry)
        && prints(&*doc, OTHERS)
}

/// The root and the other nodes are no entries.
fn are_no_entries<A: Allocator + Copy>(doc: &mut CstRootNode<A>) -> bool {
    let root = CstNode::from(doc.root());
    let is_refused = root.insert_comment(doc, "// c", Place::Above) == Err(EditError::NotAnEntry);
    for at in &OTHER_NODES {
        if !is_no_entry(doc, *at) {
            return false;
        }
    }
    is_refused
}

/// A leaf is removed, and then a comment inserted above an entry.
fn damaged<A: Allocator + Copy>(
    doc: &mut CstRootNode<A>,
    damage: At,
    entry: At,
    wanted: &str,
) -> bool {
    let Some(CstNode::Leaf(CstLeafNode::Token(leaf))) = node_of(doc, damage) else {
        return false;
    };
    leaf.remove(doc);
    let Some(node) = node_of(doc, entry) else {
        return false;
    };
    insert(doc, node, "// c", Place::Above).is_ok() && prints(&*doc, wanted)
}

/// A node that was removed is no entry, and what is in it still is; the document stays as it is.
fn removed<A: Allocator + Copy>(doc: &mut CstRootNode<A>) -> Outcome {
    let (Some(array), Some(number)) = (child_at(doc, 1), node_of(doc, At::Below(1, 1))) else {
        return Outcome::Other;
    };
    let removed = Outcome::of_answer(array.remove(doc), &());
    let above = array.insert_comment(doc, "// c", Place::Above);
    let inside = number.insert_comment(doc, "// c", Place::Above);
    removed.then(Outcome::of(
        above == Err(EditError::NotAnEntry)
            && inside == Ok(())
            && prints(&array.shown(doc), "[\n  // c\n  1]")
            && prints(&*doc, "[ 2]"),
    ))
}

#[test]
fn comments_are_inserted_above_and_after_entries_in_turn(rt: HostRuntime) -> Result<(), Fail> {
    for row in &ROWS {
        for place in [Place::Above, Place::After] {
            assert!(rt;
                inserted::<Global>(rt.alloc(), row, place) == Outcome::Answered,
                "{}",
                row.0
            );
            assert!(rt;
                answers_in_turn(rt.alloc(), |heap| inserted(heap, row, place)),
                "{}",
                row.0
            );
        }
    }
    Ok(())
}

#[test]
fn whole_comments_alone_are_inserted(rt: HostRuntime) -> Result<(), Fail> {
    for (text, wanted) in &TEXTS {
        let Ok(mut doc) = read(rt.alloc(), "1") else {
            assert!(rt; false);
            return Ok(());
        };
        assert!(rt; above_value(&mut doc, text, *wanted), "{text}");
    }
    Ok(())
}

#[test]
fn other_nodes_are_refused_without_memory(rt: HostRuntime) {
    let asked = asked_by(rt.alloc(), OTHERS);
    let heap = Refusing::after(rt.alloc(), asked);
    let is_refused = match read(&heap, OTHERS) {
        Ok(mut doc) => are_no_entries(&mut doc),
        Err(_) => false,
    };
    assert!(rt; is_refused);
    assert_eq!(rt; heap.asked(), asked);
}

#[test]
fn comments_are_inserted_into_damaged_documents(rt: HostRuntime) -> Result<(), Fail> {
    for (text, damage, entry, wanted) in &DAMAGED {
        let is_inserted = match read(rt.alloc(), text) {
            Ok(mut doc) => damaged(&mut doc, *damage, *entry, wanted),
            Err(_) => false,
        };
        assert!(rt; is_inserted, "{text}");
    }
    Ok(())
}

#[test]
fn removed_nodes_are_no_entries(rt: HostRuntime) {
    let outcome = match read::<Global>(rt.alloc(), "[[1], 2]") {
        Ok(mut doc) => removed(&mut doc),
        Err(outcome) => outcome,
    };
    assert!(rt; outcome == Outcome::Answered);
}
