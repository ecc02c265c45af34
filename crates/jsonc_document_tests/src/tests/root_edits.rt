//! Edits of a document's value.

use failing_alloc::outcome::Outcome;
use jsonc_parser::cst::{CstInputValue, CstNode, CstRootNode, EditError};
use std::alloc::Allocator;

/// An edit of a document's value.
#[derive(Clone, Copy)]
pub enum RootEdit {
    /// A number is set.
    Set,
    Clear,
    ObjectOrCreate,
    ObjectOrSet,
    ArrayOrCreate,
    ArrayOrSet,
    Remove,
    /// The root leaves, that is all that stands in it.
    RemoveRoot,
}

/// Whether this was answered or the memory for it wanted, where there must be an answer.
fn of_some<T: PartialEq + Drop>(found: Result<T, EditError>, wanted: &Option<T>) -> Outcome {
    match found {
        Ok(found) => Outcome::of(*wanted == Some(found)),
        Err(error) => Outcome::from(error),
    }
}

fn remove<A: Allocator + Copy>(doc: &mut CstRootNode<A>) -> Outcome {
    match doc.value() {
        Some(value) => Outcome::of_answer(value.remove(doc), &()),
        None => Outcome::Other,
    }
}

fn remove_root<A: Allocator + Copy>(doc: &mut CstRootNode<A>) -> Outcome {
    let root = CstNode::from(doc.root());
    Outcome::of_answer(root.remove(doc), &()).then(Outcome::of(doc.value() == None))
}

/// Makes an edit, and tells whether its answer is the value that the document has then.
pub fn edit_root<A: Allocator + Copy>(
    doc: &mut CstRootNode<A>,
    edit: RootEdit,
    word: String<A>,
) -> Outcome {
    match edit {
        RootEdit::Set => of_some(doc.set_value(CstInputValue::Number(word)), &doc.value()),
        RootEdit::Clear => {
            doc.clear_children();
            Outcome::of(doc.value() == None)
        }
        RootEdit::ObjectOrCreate => {
            Outcome::of_answer(doc.object_value_or_create(), &doc.object_value())
        }
        RootEdit::ObjectOrSet => of_some(doc.object_value_or_set(), &doc.object_value()),
        RootEdit::ArrayOrCreate => {
            Outcome::of_answer(doc.array_value_or_create(), &doc.array_value())
        }
        RootEdit::ArrayOrSet => of_some(doc.array_value_or_set(), &doc.array_value()),
        RootEdit::Remove => remove(doc),
        RootEdit::RemoveRoot => remove_root(doc),
    }
}
