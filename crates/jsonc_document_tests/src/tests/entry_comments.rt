//! The comments that belong to entries, and the memory that they want.
ghost use Rattle.jsonc_cst.specs.Document.{HasNode};

use crate::tests::inserted_comments::{At, node_of};
use crate::tests::reading::{asked_by, child_at, read};
use failing_alloc::Refusing;
use failing_alloc::awaited::prints;
use failing_alloc::in_turn::answers_in_turn;
use failing_alloc::outcome::Outcome;
use jsonc_parser::cst::{
    CstComment, CstLeafNode, CstNode, CstRootNode, EditError, ParentNode, TypedNode,
};
use std::alloc::{Allocator, Global};
use std::test::Fail;

/// Texts of two entries, and the comments of each, with a bar behind each comment.
static ROWS: [(&str, [&str; 2]); 8] = [
    (
        "{\n  // all\n\n  // on b\n  \"b\": 1, // one\n  \"a\": 2\n}",
        ["// on b|// one|", ""],
    ),
    ("[1, // one\n// two\n2]", ["// one|", "// two|"]),
    (
        "{\"w\": 3 /* a */\n/* b */, /* c */ // d\n\"h\": 2}",
        ["/* a */|/* b */|/* c */|// d|", ""],
    ),
    ("[1, /* x */ 2 // c\n]", ["", "/* x */|// c|"]),
    (
        "[// head\n  1 /* end */, /* x */\n2]",
        ["/* end */|/* x */|", ""],
    ),
    (
        "[1 /* a */, /* b */ 2 /* c */]",
        ["/* a */|", "/* b */|/* c */|"],
    ),
    ("[1,\n// up\n\n// low\n\n2\n// last\n]", ["", ""]),
    (
        "[/* a */ /* b */\n/* c */ /* d */ 1\n, 2 /* e */ /* f */, // g\n]",
        ["/* c */|/* d */|", "/* e */|/* f */|// g|"],
    ),
];

/// Texts, which of its entries is removed with its comments, and the text behind that: each comment that is alone on its
/// line is removed with the line.
static REMOVED: [(&str, usize, &str); 11] = [
    (
        "{\n  // all\n\n  // on b\n  \"b\": 1, // one\n  \"a\": 2\n}",
        0,
        "{\n  // all\n\n  \"a\": 2\n}",
    ),
    ("[1, // one\n// two\n2]", 1, "[1 // one\n]"),
    ("[1 /* a */, /* b */ 2 /* c */]", 1, "[1 /* a */]"),
    ("[1,\n  /* two */\n  2\n]", 1, "[1\n]"),
    (
        "[1,\n  // two\n  /* and */ // more\n  2,\n  3\n]",
        1,
        "[1,\n  3\n]",
    ),
    (
        "[1,\n// up\n\n// low\n\n2\n// last\n]",
        1,
        "[1\n// up\n\n// low\n\n// last\n]",
    ),
    ("[\n  // c\n  1\n]", 0, "[]"),
    ("[1\n, // d\n2]", 0, "[\n2]"),
    ("[1/*a*/2/*b*/3]", 1, "[1 3]"),
    ("[1 2\n, // c\n3]", 1, "[1\n3]"),
    ("[\n/*a*/ /*b*/  \n1]", 0, "[]"),
];

/// A text, a leaf that is removed from it, an entry, what the removal of that with its comments answers then, and the
/// text after it.
static DAMAGED: [(&str, At, At, Result<(), EditError>, &str); 3] = [
    (
        "[1, /* b */ 2]",
        At::Child(7),
        At::Child(6),
        Err(EditError::MissingBrackets),
        "[1, /* b */ 2",
    ),
    (
        "{\n// c\na: 1\n}",
        At::Below(4, 1),
        At::Child(4),
        Ok(()),
        "{}",
    ),
    (
        "{\n// c\na: 1, b: 2\n}",
        At::Child(5),
        At::Child(4),
        Ok(()),
        "{\n b: 2\n}",
    ),
];

/// An object with a comment before its property, whose value has one before it and one behind it.
const PROPERTY: &str = "{// c\n\"a\": /* d */1 /* e */}";

/// Whether these are comments with these texts, each with a bar behind it.
fn are_comments<A: Allocator>(doc: &CstRootNode<A>, comments: &[CstComment], wanted: &str) -> bool {
    let mut rest = wanted.as_bytes();
    for comment in comments {
        if !doc.holds(comment.node()) {
            return false;
        }
        let Some(bar) = rest.strip_prefix(comment.raw_value(doc).as_bytes()) else {
            return false;
        };
        let Some(next) = bar.strip_prefix(b"|".as_slice()) else {
            return false;
        };
        rest = next;
    }
    rest.is_empty()
}

/// Whether these are the comments of a node, or the memory for them was wanted.
fn has_comments<A: Allocator + Copy>(doc: &CstRootNode<A>, node: CstNode, wanted: &str) -> Outcome
    requires { HasNode doc.now node }
{
    match doc.comments_of(node) {
        Ok(comments) => Outcome::of(are_comments(doc, &comments, wanted)),
        Err(error) => Outcome::from(error),
    }
}

/// The comments of both entries of a document.
fn entries_told<A: Allocator + Copy>(doc: &CstRootNode<A>, wanted: &[&str; 2]) -> Outcome {
    let Some(value) = doc.value() else {
        return Outcome::Other;
    };
    let entries = match value.children_exclude_trivia_and_tokens(doc) {
        Ok(entries) => entries,
        Err(error) => return Outcome::from(error),
    };
    match entries.as_slice() {
        [first, second] if doc.holds(*first) && doc.holds(*second) => {
            has_comments(doc, *first, wanted[0]).then(has_comments(doc, *second, wanted[1]))
        }
        _ => Outcome::Other,
    }
}

/// The comments of both entries of a text.
fn told<A: Allocator + Copy>(alloc: A, text: &str, wanted: &[&str; 2]) -> Outcome {
    match read(alloc, text) {
        Ok(doc) => entries_told(&doc, wanted),
        Err(outcome) => outcome,
    }
}

/// The root, the document's value, its first bracket and a comment are no entries, nor is the value of a property.
fn others_have_none<A: Allocator + Copy>(doc: &CstRootNode<A>) -> Outcome {
    let (Some(object), Some(bracket), Some(comment), Some(property)) = (
        doc.value(),
        child_at(doc, 0),
        child_at(doc, 1),
        child_at(doc, 3),
    ) else {
        return Outcome::Other;
    };
    let Some(value) = property.child_at_index(doc, 4) else {
        return Outcome::Other;
    };
    has_comments(doc, object, "")
        .then(has_comments(doc, bracket, ""))
        .then(has_comments(doc, comment, ""))
        .then(has_comments(doc, value, ""))
        .then(has_comments(doc, CstNode::from(doc.root()), ""))
}

/// Its comment and the end of the comment's line leave as by `remove`.
fn others_leave<A: Allocator + Copy>(doc: &mut CstRootNode<A>) -> Outcome {
    let (Some(comment), Some(line_end)) = (child_at(doc, 1), child_at(doc, 2)) else {
        return Outcome::Other;
    };
    let of_comment = comment.remove_with_comments(doc);
    if !doc.holds(line_end) {
        return Outcome::Other;
    }
    match of_comment.and(line_end.remove_with_comments(doc)) {
        Ok(()) => Outcome::of(prints(&*doc, "{\"a\": /* d */1 /* e */}")),
        Err(error) => Outcome::from(error),
    }
}

#[test]
fn comments_of_entries_are_told_in_turn(rt: HostRuntime) -> Result<(), Fail> {
    for (text, wanted) in &ROWS {
        assert!(rt; told::<Global>(rt.alloc(), text, wanted) == Outcome::Answered);
        assert!(rt; answers_in_turn(rt.alloc(), |heap| told(heap, text, wanted)));
    }
    Ok(())
}

/// The text behind the removal of an entry with its comments, or the same text where memory was wanted for it.
fn removed<A: Allocator + Copy>(alloc: A, text: &str, index: usize, wanted: &str) -> Outcome {
    let mut doc = match read(alloc, text) {
        Ok(doc) => doc,
        Err(outcome) => return outcome,
    };
    let Some(value) = doc.value() else {
        return Outcome::Other;
    };
    let entries = match value.children_exclude_trivia_and_tokens(&doc) {
        Ok(entries) => entries,
        Err(error) => return Outcome::from(error),
    };
    let Some(entry) = entries.get(index) else {
        return Outcome::Other;
    };
    if !doc.holds(*entry) {
        return Outcome::Other;
    }
    let (made, text) = match entry.remove_with_comments(&mut doc) {
        Ok(()) => (Outcome::Answered, wanted),
        Err(error) => (Outcome::from(error), text),
    };
    Outcome::of_text(doc.text(), text).then(made)
}

#[test]
fn entries_are_removed_with_their_comments_in_turn(rt: HostRuntime) -> Result<(), Fail> {
    for (text, index, wanted) in &REMOVED {
        assert!(rt; removed::<Global>(rt.alloc(), text, *index, wanted) == Outcome::Answered);
        assert!(rt; answers_in_turn(rt.alloc(), |heap| removed(heap, text, *index, wanted)));
    }
    Ok(())
}

/// A token is removed, and then an entry with its comments; a further removal changes nothing.
fn damaged<A: Allocator + Copy>(
    doc: &mut CstRootNode<A>,
    damage: At,
    entry: At,
    answer: Result<(), EditError>,
    wanted: &str,
) -> bool {
    let (Some(CstNode::Leaf(CstLeafNode::Token(token))), Some(entry)) = (
        node_of(doc, damage),
        node_of(doc, entry),
    ) else {
        return false;
    };
    token.remove(doc);
    let removed = entry.remove_with_comments(doc);
    let is_removed = removed == answer && prints(&*doc, wanted);
    let again = entry.remove_with_comments(doc);
    is_removed && again == answer && prints(&*doc, wanted)
}

#[test]
fn entries_of_damaged_documents_are_removed_with_their_comments(
    rt: HostRuntime,
) -> Result<(), Fail> {
    for (text, damage, entry, answer, wanted) in &DAMAGED {
        let is_removed = match read(rt.alloc(), text) {
            Ok(mut doc) => damaged(&mut doc, *damage, *entry, *answer, wanted),
            Err(_) => false,
        };
        assert!(rt; is_removed, "{text}");
    }
    Ok(())
}

#[test]
fn other_nodes_have_none_and_leave_without_memory(rt: HostRuntime) {
    let asked = asked_by(rt.alloc(), PROPERTY);
    let heap = Refusing::after(rt.alloc(), asked);
    let outcome = match read(&heap, PROPERTY) {
        Ok(mut doc) => {
            let told = others_have_none(&doc);
            told.then(others_leave(&mut doc))
        }
        Err(outcome) => outcome,
    };
    assert!(rt; outcome == Outcome::Answered);
    assert_eq!(rt; heap.asked(), asked);
}
