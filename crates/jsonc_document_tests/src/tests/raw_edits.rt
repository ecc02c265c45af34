//! Documents after leaves of theirs were written anew or taken out as they stand, and parts that have left.

use crate::tests::reading::{child_at, prepared};
use failing_alloc::awaited::prints;
use failing_alloc::outcome::Outcome;
use jsonc_parser::ParseStringErrorKind;
use jsonc_parser::cst::{
    CstContainerNode, CstInputValue, CstLeafNode, CstNode, CstRootNode, EditError, ParentNode,
    TypedNode,
};
use std::alloc::{Allocator, Global};
use std::test::Fail;

/// What is done to a document.
#[derive(Clone, Copy)]
enum Damage {
    Comment,
    Bracket,
    Comma,
    Element,
    /// An array leaves, and then takes a number: it prints this.
    Array(&'static str),
    String,
    /// The child of a property at a place leaves: it prints this.
    Property(usize, &'static str),
}

/// Each with its name, the text, and the word that is written.
static ROWS: [(Damage, &str, &str); 9] = [
    (Damage::Comment, "[1 /*a*/]", "x"),
    (Damage::Bracket, "[1]", ""),
    (Damage::Comma, "[1,2]", ""),
    (Damage::Element, "[1, 2]", "x"),
    (Damage::Array("[1, 7]"), "[[1], 2]", "7"),
    (Damage::Array("[\r\n1,\n  7\r\n]"), "[[\r\n1\r\n], 2]", "7"),
    (Damage::String, "[\"a\"]", "abc"),
    (Damage::Property(0, "{: \"a\"}"), "{a: \"a\"}", "b"),
    (Damage::Property(1, "{\"a\" 1}"), "{\"a\": 1}", "b"),
];

/// A comment that is no comment any more leaves as one.
fn comment<A: Allocator + Copy>(doc: &mut CstRootNode<A>, word: String<A>) -> Outcome {
    let Some(CstNode::Leaf(CstLeafNode::Comment(comment))) = child_at(doc, 3) else {
        return Outcome::Other;
    };
    comment.set_raw_value(doc, word);
    let is_set = prints(&*doc, "[1 x]");
    let removed = comment.remove(doc);
    Outcome::of_answer(removed, &()).then(Outcome::of(is_set && prints(&*doc, "[1 ]")))
}

/// From an array without its last bracket no element leaves.
fn bracket<A: Allocator + Copy>(doc: &mut CstRootNode<A>) -> Outcome {
    let (Some(element), Some(CstNode::Leaf(CstLeafNode::Token(bracket)))) = (
        child_at(doc, 1),
        child_at(doc, 2),
    ) else {
        return Outcome::Other;
    };
    bracket.remove(doc);
    let removed = element.remove(doc);
    Outcome::of(matches!(removed, Err(EditError::MissingBrackets)) && prints(&*doc, "[1"))
}

fn element_count<A: Allocator + Copy>(doc: &CstRootNode<A>) -> Option<usize> {
    let array = doc.array_value()?;
    match array.elements(doc) {
        Ok(elements) => Some(elements.len()),
        Err(_) => None,
    }
}

/// Without its comma an array still has two elements.
fn comma<A: Allocator + Copy>(doc: &mut CstRootNode<A>) -> Outcome {
    let Some(CstNode::Leaf(CstLeafNode::Token(comma))) = child_at(doc, 2) else {
        return Outcome::Other;
    };
    comma.remove(doc);
    Outcome::of(prints(&*doc, "[12]") && element_count(doc) == Some(2))
}

/// Whether a node is still there, and stands in no other.
fn is_loose<A: Allocator>(doc: &CstRootNode<A>, node: CstNode) -> bool {
    doc.holds(node) && node.parent(doc) == None && node.child_index(doc) == 0
}

/// An element that has left is still there, does not leave once more, is replaced by nothing, and may be written
/// anew; the document stays as it is.
fn element<A: Allocator + Copy>(doc: &mut CstRootNode<A>, word: String<A>) -> Outcome {
    let Some(CstNode::Leaf(CstLeafNode::NumberLit(number))) = child_at(doc, 1) else {
        return Outcome::Other;
    };
    let first = Outcome::of_answer(number.remove(doc), &());
    let second = Outcome::of_answer(number.remove(doc), &());
    let is_loose = is_loose(&*doc, number.node());
    let replaced = Outcome::of_answer(number.replace_with(doc, CstInputValue::Null), &None);
    number.set_raw_value(doc, word);
    let is_left = prints(&number.shown(doc), "x") && prints(&*doc, "[ 2]");
    first
        .then(second)
        .then(replaced)
        .then(Outcome::of(is_loose && is_left))
}

/// To an array that has left a number comes, on a line that ends by LF if the array has lines, and the document
/// stays as it is.
fn array<A: Allocator + Copy>(doc: &mut CstRootNode<A>, word: String<A>, wanted: &str) -> Outcome {
    let Some(CstNode::Container(CstContainerNode::Array(array))) = child_at(doc, 1) else {
        return Outcome::Other;
    };
    let removed = Outcome::of_answer(array.remove(doc), &());
    let is_put = array.append(doc, CstInputValue::Number(word)).is_ok();
    let is_grown = prints(&array.shown(doc), wanted) && prints(&*doc, "[ 2]");
    removed.then(Outcome::of(is_put && is_grown))
}

/// A string without quotes stands for nothing.
fn string<A: Allocator + Copy>(doc: &mut CstRootNode<A>, word: String<A>) -> Outcome {
    let Some(CstNode::Leaf(CstLeafNode::StringLit(string))) = child_at(doc, 1) else {
        return Outcome::Other;
    };
    string.set_raw_value(doc, word);
    let decoded = string.decoded_value(doc);
    Outcome::of(matches!(
        decoded,
        Err(ParseStringErrorKind::UnterminatedStringLiteral)
    ))
}

/// A property without its name, or without its colon, gets no other name.
fn property<A: Allocator + Copy>(
    doc: &mut CstRootNode<A>,
    word: String<A>,
    place: usize,
    wanted: &str,
) -> Outcome {
    let Some(CstNode::Container(CstContainerNode::ObjectProp(property))) = child_at(doc, 1) else {
        return Outcome::Other;
    };
    let Some(child) = property.child_at_index(doc, place) else {
        return Outcome::Other;
    };
    let removed = Outcome::of_answer(child.remove(doc), &());
    let renamed = property.rename(doc, word.as_str());
    let is_refused = matches!(renamed, Err(EditError::MissingName));
    removed.then(Outcome::of(is_refused && prints(&*doc, wanted)))
}

fn damaged<A: Allocator + Copy>(doc: CstRootNode<A>, damage: Damage, word: String<A>) -> Outcome {
    let mut doc = doc;
    match damage {
        Damage::Comment => comment(&mut doc, word),
        Damage::Bracket => bracket(&mut doc),
        Damage::Comma => comma(&mut doc),
        Damage::Element => element(&mut doc, word),
        Damage::Array(wanted) => array(&mut doc, word, wanted),
        Damage::String => string(&mut doc, word),
        Damage::Property(place, wanted) => property(&mut doc, word, place, wanted),
    }
}

fn outcome_of<A: Allocator + Copy>(alloc: A, damage: Damage, text: &str, word: &str) -> Outcome {
    match prepared(alloc, text, word) {
        Ok((doc, word)) => damaged(doc, damage, word),
        Err(outcome) => outcome,
    }
}

#[test]
fn damaged_documents_stand_as_they_are(rt: HostRuntime) -> Result<(), Fail> {
    for (damage, text, word) in &ROWS {
        let outcome = outcome_of::<Global>(rt.alloc(), *damage, text, word);
        assert!(rt; outcome == Outcome::Answered, "{text}");
    }
    Ok(())
}
