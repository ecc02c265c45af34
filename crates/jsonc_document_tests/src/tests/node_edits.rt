//! Edits of one node.
ghost use Rattle.jsonc_cst.specs.Document.{HasNode};
ghost use Rattle.jsonc_cst.specs.Nodes.{object_prop_node};

use failing_alloc::outcome::Outcome;
use jsonc_parser::cst::{
    CstContainerNode, CstInputValue, CstLeafNode, CstNewlineKind, CstNode, CstObjectProp,
    CstRootNode, EditError, ObjectPropName,
};
use std::alloc::Allocator;

/// An edit of a node.
#[derive(Clone, Copy)]
pub enum NodeEdit {
    /// A value is replaced by a number.
    Replace,
    /// The name of a property is replaced by a number.
    ReplaceName,
    /// A property is replaced by one of the name `c`, whose value is a number.
    ReplaceProperty,
    /// A property gets the word as its name.
    Rename,
    /// The value of a property is set to a number.
    SetValue,
    /// The value of a property is an object, an empty one where it was none.
    ObjectOrSet,
    /// The value of a property is an array, an empty one where it was none.
    ArrayOrSet,
    /// A truth value becomes `false`.
    SetFalse,
    Remove,
    /// The name of a property leaves, and the rest of the property stays.
    RemoveName,
    /// The value of a property leaves, and the rest of the property stays.
    RemoveValue,
    /// A token, whitespace or a newline leaves alone.
    RemoveLeaf,
    SetRaw,
    /// The word that is the name of a property is set as it stands.
    SetRawName,
    /// A token becomes `;`, whitespace the word, or a newline CR LF.
    SetLeaf,
}

/// Whether an edit was made, or the memory for it was wanted.
fn of_answered<T: Drop>(made: Result<T, EditError>) -> Outcome {
    match made {
        Ok(_) => Outcome::Answered,
        Err(error) => error.into(),
    }
}

/// Whether something has been replaced by a new node, or the memory for that was wanted.
fn of_new(replaced: Result<Option<CstNode>, EditError>) -> Outcome {
    match replaced {
        Ok(Some(_)) => Outcome::Answered,
        Ok(None) => Outcome::Other,
        Err(error) => Outcome::from(error),
    }
}

fn remove_value<A: Allocator + Copy>(doc: &mut CstRootNode<A>, property: CstObjectProp) -> Outcome
    requires { HasNode doc.old (object_prop_node property) }
{
    match property.value(doc) {
        Some(value) => Outcome::of_answer(value.remove(doc), &()),
        None => Outcome::Other,
    }
}

fn edit_property<A: Allocator + Copy>(
    doc: &mut CstRootNode<A>,
    edit: NodeEdit,
    property: CstObjectProp,
    word: String<A>,
) -> Outcome
    requires { HasNode doc.old (object_prop_node property) }
{
    match (edit, property.name(doc)) {
        (NodeEdit::ReplaceName, Some(ObjectPropName::String(name))) => {
            of_new(name.replace_with(doc, CstInputValue::Number(word)))
        }
        (NodeEdit::SetRawName, Some(ObjectPropName::Word(name))) => {
            name.set_raw_value(doc, word);
            Outcome::Answered
        }
        (NodeEdit::RemoveName, Some(name)) => Outcome::of_answer(name.remove(doc), &()),
        (NodeEdit::RemoveValue, _) => remove_value(doc, property),
        (NodeEdit::SetValue, _) => {
            of_answered(property.set_value(doc, CstInputValue::Number(word)))
        }
        (NodeEdit::ObjectOrSet, _) => of_answered(property.object_value_or_set(doc)),
        (NodeEdit::ArrayOrSet, _) => of_answered(property.array_value_or_set(doc)),
        (NodeEdit::Rename, _) => of_answered(property.rename(doc, word.as_str())),
        (NodeEdit::ReplaceProperty, _) => {
            of_new(property.replace_with(doc, "c", CstInputValue::Number(word)))
        }
        _ => Outcome::Other,
    }
}

fn set_false<A: Allocator + Copy>(doc: &mut CstRootNode<A>, node: CstNode) -> Outcome
    requires { HasNode doc.old node }
{
    match node {
        CstNode::Leaf(CstLeafNode::BooleanLit(value)) => of_answered(value.set_value(doc, false)),
        _ => Outcome::Other,
    }
}

fn remove_leaf<A: Allocator>(doc: &mut CstRootNode<A>, node: CstNode) -> Outcome
    requires { HasNode doc.old node }
{
    match node {
        CstNode::Leaf(CstLeafNode::Token(token)) => token.remove(doc),
        CstNode::Leaf(CstLeafNode::Whitespace(whitespace)) => whitespace.remove(doc),
        CstNode::Leaf(CstLeafNode::Newline(newline)) => newline.remove(doc),
        _ => return Outcome::Other,
    }
    Outcome::Answered
}

fn set_raw<A: Allocator>(doc: &mut CstRootNode<A>, node: CstNode, word: String<A>) -> Outcome
    requires { HasNode doc.old node }
{
    match node {
        CstNode::Leaf(CstLeafNode::StringLit(string)) => string.set_raw_value(doc, word),
        CstNode::Leaf(CstLeafNode::NumberLit(number)) => number.set_raw_value(doc, word),
        CstNode::Leaf(CstLeafNode::Comment(comment)) => comment.set_raw_value(doc, word),
        _ => return Outcome::Other,
    }
    Outcome::Answered
}

fn set_leaf<A: Allocator>(doc: &mut CstRootNode<A>, node: CstNode, word: String<A>) -> Outcome
    requires { HasNode doc.old node }
{
    match node {
        CstNode::Leaf(CstLeafNode::Token(token)) => token.set_value(doc, ';'),
        CstNode::Leaf(CstLeafNode::Whitespace(whitespace)) => whitespace.set_value(doc, word),
        CstNode::Leaf(CstLeafNode::Newline(newline)) => {
            newline.set_kind(doc, CstNewlineKind::CarriageReturnLineFeed);
        }
        _ => return Outcome::Other,
    }
    Outcome::Answered
}

/// Makes an edit of a node.
pub fn edit_node<A: Allocator + Copy>(
    doc: &mut CstRootNode<A>,
    edit: NodeEdit,
    node: CstNode,
    word: String<A>,
) -> Outcome
    requires { HasNode doc.old node }
{
    match (edit, node) {
        (NodeEdit::Replace, _) => { of_new(node.replace_with(doc, CstInputValue::Number(word))) }
        (NodeEdit::SetFalse, _) => set_false(doc, node),
        (NodeEdit::Remove, _) => Outcome::of_answer(node.remove(doc), &()),
        (NodeEdit::RemoveLeaf, _) => remove_leaf(doc, node),
        (NodeEdit::SetRaw, _) => set_raw(doc, node, word),
        (NodeEdit::SetLeaf, _) => set_leaf(doc, node, word),
        (_, CstNode::Container(CstContainerNode::ObjectProp(property))) => {
            edit_property(doc, edit, property, word)
        }
        _ => Outcome::Other,
    }
}
