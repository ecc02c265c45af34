//! How typed nodes are laid out and what values they give, and the memory that this wants.
ghost use Rattle.jsonc_cst.specs.Document.{HasNode};

use crate::tests::reading::{child_at, read};
use crate::tests::typed::SPREAD;
use failing_alloc::in_turn::answers_in_turn;
use failing_alloc::outcome::Outcome;
use jsonc_parser::cst::{
    CstComment, CstInputValue, CstNewlineKind, CstNode, CstRootNode, EditError, TypedNode,
};
use std::alloc::{Allocator, Global};
use std::test::Fail;

/// Two values under one name, of which the last counts, at the place of the first.
const NAMED: &str = "{\"a\":1,\"b\":2,\"a\":3}";

/// Whether this text was found, or none, or the memory for it wanted.
fn is_text<A: Allocator>(
    found: Result<Option<String<A>>, EditError>,
    wanted: Option<&str>,
) -> Outcome {
    match found {
        Ok(found) => Outcome::of(found.as_ref().map(|text| text.as_str()) == wanted),
        Err(error) => Outcome::from(error),
    }
}

/// Whether these comments were found, or the memory for them wanted.
fn are_comments<A: Allocator>(
    found: Result<Vec<CstComment, A>, EditError>,
    wanted: &[CstComment],
) -> Outcome {
    match found {
        Ok(found) => Outcome::of(found.as_slice() == wanted),
        Err(error) => Outcome::from(error),
    }
}

/// Lines end by LF, one level of indent is two spaces, and no comma stands after a last element.
fn document_told<A: Allocator + Copy>(doc: &CstRootNode<A>) -> Outcome {
    Outcome::of(doc.newline_kind() == CstNewlineKind::LineFeed)
        .then(is_text(doc.single_indent_text(), Some("  ")))
        .then(Outcome::of(!doc.root().uses_trailing_commas(doc)))
}

/// The comment at the end of the line stands behind the comma.
fn comments_told<A: Allocator + Copy>(
    doc: &CstRootNode<A>,
    first: CstNode,
    comma: CstNode,
    comment: CstNode,
) -> Outcome
    requires first { HasNode doc.now first }
    requires comma { HasNode doc.now comma }
    requires comment { HasNode doc.now comment }
{
    let Some(comment) = comment.as_comment() else {
        return Outcome::Other;
    };
    are_comments(first.trailing_comments_same_line(doc), &[])
        .then(are_comments(comma.trailing_comments_same_line(doc), &[comment]))
        .then(are_comments(comma.leading_comments_same_line(doc), &[]))
}

/// What the lines of the object tell.
fn lines_told<A: Allocator + Copy>(doc: &CstRootNode<A>) -> Outcome {
    let parts = (
        child_at(doc, 3),
        child_at(doc, 4),
        child_at(doc, 6),
        child_at(doc, 9),
    );
    match parts {
        (Some(first), Some(comma), Some(comment), Some(second)) => document_told(doc)
            .then(comments_told(doc, first, comma, comment))
            .then(is_text(second.indent_text(doc), Some("  ")))
            .then(is_text(comment.indent_text(doc), None)),
        _ => Outcome::Other,
    }
}

/// Whether a member has this name and this number.
fn is_member<A: Allocator>(
    member: Option<&(String<A>, CstInputValue<A>)>,
    name: &str,
    number: &str,
) -> bool {
    match member {
        Some((found, CstInputValue::Number(value))) => {
            found.as_str() == name && value.as_str() == number
        }
        _ => false,
    }
}

/// Whether this is the object with `a` 3 and then `b` 2.
fn is_named<A: Allocator>(value: Result<Option<CstInputValue<A>>, EditError>) -> Outcome {
    match value {
        Ok(Some(CstInputValue::Object(members))) => Outcome::of(
            members.len() == 2
                && is_member(members.get(0), "a", "3")
                && is_member(members.get(1), "b", "2"),
        ),
        Ok(_) => Outcome::Other,
        Err(error) => Outcome::from(error),
    }
}

/// The readings of a document over lines.
fn spread<A: Allocator + Copy>(alloc: A) -> Outcome {
    match read(alloc, SPREAD) {
        Ok(doc) => lines_told(&doc),
        Err(outcome) => outcome,
    }
}

/// The value of a document, and of its root.
fn named<A: Allocator + Copy>(alloc: A) -> Outcome {
    match read(alloc, NAMED) {
        Ok(doc) => is_named(doc.to_value()).then(is_named(doc.root().to_value(&doc))),
        Err(outcome) => outcome,
    }
}

#[test]
fn lines_are_told_in_turn(rt: HostRuntime) -> Result<(), Fail> {
    assert!(rt; spread::<Global>(rt.alloc()) == Outcome::Answered);
    assert!(rt; answers_in_turn(rt.alloc(), |heap| spread(heap)));
    assert!(rt; named::<Global>(rt.alloc()) == Outcome::Answered);
    assert!(rt; answers_in_turn(rt.alloc(), |heap| named(heap)));
    Ok(())
}
