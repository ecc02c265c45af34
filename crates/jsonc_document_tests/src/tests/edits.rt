//! Values taken from documents, laid out and put into others.

use crate::tests::reading::read;
use failing_alloc::awaited::prints;
use failing_alloc::outcome::Outcome;
use jsonc_edit::find;
use jsonc_layout::from_input::{Layout, lay_out_property};
use jsonc_layout::to_input::to_value;
use jsonc_parser::cst::{CstInputValue, CstNode, CstRootNode, Edit, EditError, run, run_unsorted};
use jsonc_tree::{CstNewlineKind, Tree};
use std::alloc::{AllocError, Allocator};
use std::cmp::Ordering;

/// An object with two values of one name, of which the last one counts, at the first one's place.
const TWICE: &str = "{\"k\": 1, \"m\": [7, [8]], 'k': {c: [2],}} // end";

/// An object whose array has a comma after its last element, and a comment behind it.
const SPACED: &str = "{\n  \"a\": [1,\n 2,] // gone\n}";

/// The same where that object has taken the array's place, and the comment has left.
const REPLACED: &str =
    "{\n  \"a\": {\n    \"k\": {\n      \"c\": [2],\n    },\n    \"m\": [\n      7,\n      [8],\n    ],\n  }\n}";

/// A property of a lower level.
const PROPERTY: &str = "\"\\u0001\": {\r\n\t\t\"c\": [2]\r\n\t}";

/// The value at a path, as one for edits.
fn taken<A: Allocator + Copy>(
    alloc: A,
    doc: &CstRootNode<A>,
    path: &[usize],
) -> Result<CstInputValue<A>, Outcome> {
    let Some(node) = find(doc.tree(), path) else {
        return Err(Outcome::Other);
    };
    match to_value(alloc, doc.tree(), node) {
        Ok(Some(value)) => Ok(value),
        Ok(None) => Err(Outcome::Other),
        Err(error) => Err(Outcome::from(error)),
    }
}

/// Edits that put a value into the place of the first property's, and take the first comment out.
fn edits<A: Allocator + Copy>(
    alloc: A,
    value: CstInputValue<A>,
) -> Result<Vec<Edit<A>, A>, AllocError> {
    let mut path = Vec::new(alloc);
    path.push(0usize)?;
    let mut edits = Vec::new(alloc);
    edits.push(Edit::Replace(path, value))?;
    edits.push(Edit::RemoveComment(0))?;
    Ok(edits)
}

/// Makes the edits, and tells whether the document is as they leave it.
fn is_changed<A: Allocator + Copy>(doc: CstRootNode<A>, edits: Vec<Edit<A>, A>) -> Outcome {
    let mut doc = doc;
    let compare = |_doc: &CstRootNode<_>, _one: CstNode, _other: CstNode| Ordering::Equal;
    match run(&mut doc, edits, &compare) {
        Ok(()) => Outcome::of_text(doc.text(), REPLACED).then(Outcome::of(
            find(doc.tree(), &[0, 2]) == None,
        )),
        Err((0, error)) => Outcome::from(error),
        Err(_) => Outcome::Other,
    }
}

fn are_made<A: Allocator + Copy>(alloc: A, edits: Vec<Edit<A>, A>) -> Outcome {
    match read(alloc, SPACED) {
        Ok(doc) => is_changed(doc, edits),
        Err(outcome) => outcome,
    }
}

/// Puts the document's value into the other document.
fn is_put<A: Allocator + Copy>(alloc: A, doc: &CstRootNode<A>) -> Outcome {
    match taken(alloc, doc, &[]) {
        Ok(value) => match edits(alloc, value) {
            Ok(edits) => are_made(alloc, edits),
            Err(error) => Outcome::from(error),
        },
        Err(outcome) => outcome,
    }
}

/// The layout of a document with tabs and Windows line ends, one level deep.
fn layout<A: Allocator + Copy>(alloc: A) -> Result<Layout<A>, AllocError> {
    let outer = Layout {
        current: String::new(alloc),
        single: String::from_str(alloc, "\t")?,
        trailing_commas: false,
        newline: CstNewlineKind::CarriageReturnLineFeed,
    };
    outer.deeper(alloc)
}

fn is_laid_out<A: Allocator + Copy>(
    alloc: A,
    value: &CstInputValue<A>,
) -> Result<bool, AllocError> {
    let layout = layout(alloc)?;
    let mut tree = Tree::new(alloc)?;
    let property = lay_out_property(alloc, &mut tree, "\u{1}", value, &layout)?;
    Ok(property < tree.len() && prints(&tree.shown(property), PROPERTY))
}

/// Lays the last property's value out below another name.
fn is_property<A: Allocator + Copy>(alloc: A, doc: &CstRootNode<A>) -> Outcome {
    match taken(alloc, doc, &[2]) {
        Ok(value) => Outcome::of_answer(is_laid_out(alloc, &value), &true),
        Err(outcome) => outcome,
    }
}

/// The document with the comma and the comment, without the comment.
const UNCOMMENTED: &str = "{\n  \"a\": [1,\n 2,]\n}";

/// Edits that take the first comment out, and then again.
fn removals<A: Allocator + Copy>(alloc: A) -> Result<Vec<Edit<A>, A>, AllocError> {
    let mut edits = Vec::new(alloc);
    edits.push(Edit::RemoveComment(0))?;
    edits.push(Edit::RemoveComment(0))?;
    Ok(edits)
}

/// Makes them where there is one comment, which is gone then.
fn is_uncommented<A: Allocator + Copy>(doc: CstRootNode<A>, edits: Vec<Edit<A>, A>) -> Outcome {
    let mut doc = doc;
    match run_unsorted(&mut doc, edits) {
        Err((1, EditError::NoSuchPlace)) => Outcome::of_text(doc.text(), UNCOMMENTED),
        Err((_, error)) => Outcome::from(error),
        Ok(()) => Outcome::Other,
    }
}

/// A list without sorts.
fn unsorted<A: Allocator + Copy>(alloc: A) -> Outcome {
    match (read(alloc, SPACED), removals(alloc)) {
        (Ok(doc), Ok(edits)) => is_uncommented(doc, edits),
        (Err(outcome), _) => outcome,
        (_, Err(error)) => Outcome::from(error),
    }
}

/// Lists of edits are made, and a property laid out.
pub fn edited<A: Allocator + Copy>(alloc: A) -> Outcome {
    match read(alloc, TWICE) {
        Ok(doc) => is_put(alloc, &doc)
            .then(is_property(alloc, &doc))
            .then(unsorted(alloc)),
        Err(outcome) => outcome,
    }
}
