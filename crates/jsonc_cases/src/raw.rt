//! Edits of one leaf, or of a property's name or value, and calls that no list of edits has.

use crate::edits::RawEdit;
use crate::paths::{entry_at, property_at, push_children};
use crate::refusal::Refusal;
use jsonc_parser::cst::{
    CstContainerNode, CstInputValue, CstLeafNode, CstNewlineKind, CstNode, CstRootNode, EditError,
    ObjectPropName, Over, TypedNode,
};
use jsonc_parser::settings::set_last_at;
use std::alloc::Global;

/// Makes an edit.
pub fn make_raw(
    alloc: Global,
    doc: &mut CstRootNode<Global>,
    edit: RawEdit,
) -> Result<(), Refusal> {
    match edit {
        RawEdit::Set(number, text) => {
            let leaf = leaf_at(alloc, doc, number)?;
            set(doc, leaf, text)
        }
        RawEdit::Remove(number) => {
            let leaf = leaf_at(alloc, doc, number)?;
            remove(doc, leaf)
        }
        RawEdit::RemoveName(path) => {
            let (name, _) = parts_at(doc, path.as_slice())?;
            remove_node(doc, name.map(CstNode::from))
        }
        RawEdit::ReplaceName(path, value) => {
            let (name, _) = parts_at(doc, path.as_slice())?;
            replace_name(doc, name, value)
        }
        RawEdit::RemoveValue(path) => {
            let (_, value) = parts_at(doc, path.as_slice())?;
            remove_node(doc, value)
        }
        RawEdit::RemoveWithComments(path) => remove_entry(doc, path.as_slice()),
        RawEdit::SetLast(names, value, over) => set_last(doc, names.as_slice(), value, over),
    }
}

/// The leaf of a number, counted from 0 as leaves are printed.
fn leaf_at(
    alloc: Global,
    doc: &CstRootNode<Global>,
    number: usize,
) -> Result<CstLeafNode, Refusal> {
    // The next node is the last.
    let mut left = Vec::new(alloc);
    left.push(CstNode::from(doc.root()))?;
    let mut before = 0usize;
    for _ in 0..u64::MAX {
        let Some(node) = left.pop() else {
            break;
        };
        if let CstNode::Leaf(leaf) = node {
            if before == number {
                return Ok(leaf);
            }
            before = before.saturating_add(1);
        } else if doc.holds(node) {
            push_children(&mut left, doc, node)?;
        }
    }
    Err(Refusal::Error(EditError::NoSuchPlace))
}

/// Replaces the text of a leaf, as it stands.
fn set(doc: &mut CstRootNode<Global>, leaf: CstLeafNode, text: String) -> Result<(), Refusal> {
    if !doc.holds(leaf.into()) {
        return Err(Refusal::Error(EditError::NoSuchPlace));
    }
    match leaf {
        CstLeafNode::StringLit(string) => string.set_raw_value(doc, text),
        CstLeafNode::WordLit(word) => word.set_raw_value(doc, text),
        CstLeafNode::NumberLit(number) => number.set_raw_value(doc, text),
        CstLeafNode::Comment(comment) => comment.set_raw_value(doc, text),
        CstLeafNode::Whitespace(blanks) => blanks.set_value(doc, text),
        CstLeafNode::Token(token) => token.set_value(doc, first_of(&text)?),
        CstLeafNode::Newline(newline) => newline.set_kind(doc, newline_of(&text)?),
        CstLeafNode::BooleanLit(_) | CstLeafNode::NullKeyword(_) => return Err(Refusal::Usage),
    }
    Ok(())
}

fn first_of(text: &str) -> Result<char, Refusal> {
    match text.chars().next() {
        Some(character) => Ok(character),
        None => Err(Refusal::Usage),
    }
}

fn newline_of(text: &str) -> Result<CstNewlineKind, Refusal> {
    match text {
        "\n" => Ok(CstNewlineKind::LineFeed),
        "\r\n" => Ok(CstNewlineKind::CarriageReturnLineFeed),
        "\r" => Ok(CstNewlineKind::CarriageReturn),
        _ => Err(Refusal::Usage),
    }
}

/// Takes a leaf out: a token, whitespace or a newline, or a part of a property.
fn remove(doc: &mut CstRootNode<Global>, leaf: CstLeafNode) -> Result<(), Refusal> {
    if !doc.holds(leaf.into()) {
        return Err(Refusal::Error(EditError::NoSuchPlace));
    }
    match leaf {
        CstLeafNode::Token(token) => token.remove(doc),
        CstLeafNode::Whitespace(blanks) => blanks.remove(doc),
        CstLeafNode::Newline(newline) => newline.remove(doc),
        CstLeafNode::Comment(_) => return Err(Refusal::Usage),
        leaf => match leaf.parent(doc) {
            Some(CstContainerNode::ObjectProp(_)) => leaf.remove(doc)?,
            _ => return Err(Refusal::Usage),
        },
    }
    Ok(())
}

fn remove_node(doc: &mut CstRootNode<Global>, node: Option<CstNode>) -> Result<(), Refusal> {
    match node {
        Some(node) if doc.holds(node) => {
            node.remove(doc)?;
            Ok(())
        }
        _ => Err(Refusal::Error(EditError::NoSuchPlace)),
    }
}

fn remove_entry(doc: &mut CstRootNode<Global>, path: &[usize]) -> Result<(), Refusal> {
    let entry = entry_at(doc, path)?;
    if !doc.holds(entry) {
        return Err(Refusal::Error(EditError::NoSuchPlace));
    }
    entry.remove_with_comments(doc)?;
    Ok(())
}

fn set_last(
    doc: &mut CstRootNode<Global>,
    names: &[String],
    value: CstInputValue<Global>,
    over: Over,
) -> Result<(), Refusal> {
    if set_last_at(doc, names, value, over)? {
        return Ok(());
    }
    Err(Refusal::Usage)
}

fn replace_name(
    doc: &mut CstRootNode<Global>,
    name: Option<ObjectPropName>,
    value: CstInputValue<Global>,
) -> Result<(), Refusal> {
    match name {
        Some(ObjectPropName::String(string)) if doc.holds(string.into()) => {
            string.replace_with(doc, value)?;
        }
        Some(ObjectPropName::Word(word)) if doc.holds(word.into()) => {
            word.replace_with(doc, value)?;
        }
        _ => return Err(Refusal::Error(EditError::NoSuchPlace)),
    }
    Ok(())
}

/// The name and the value of the property at a path.
fn parts_at(
    doc: &CstRootNode<Global>,
    path: &[usize],
) -> Result<(Option<ObjectPropName>, Option<CstNode>), Refusal> {
    let property = property_at(doc, path)?;
    if !doc.holds(property.into()) {
        return Err(Refusal::Error(EditError::NoSuchPlace));
    }
    Ok((property.name(doc), property.value(doc)))
}
