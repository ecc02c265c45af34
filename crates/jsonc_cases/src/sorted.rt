//! Sorts of arrays and objects.

ghost use Rattle.jsonc_cst.specs.Document.{HasNode};
ghost use Rattle.jsonc_cst.specs.Nodes.{array_node, object_node, object_prop_node};

use crate::edits::{SortEdit, SortKey, SortRule};
use crate::paths::value_at;
use crate::refusal::Refusal;
use jsonc_parser::cst::{
    CstArray, CstComment, CstContainerNode, CstNode, CstObject, CstObjectProp, CstRootNode,
    EditError, ObjectPropName, TypedNode,
};
use std::alloc::Global;
use std::cmp::{Ordering, Reverse};

/// Makes a sort.
pub fn make_sort(
    alloc: Global,
    doc: &mut CstRootNode<Global>,
    edit: SortEdit,
) -> Result<(), Refusal> {
    let node = value_at(doc, edit.path.as_slice())?;
    if !doc.holds(node) {
        return Err(Refusal::Error(EditError::NoSuchPlace));
    }
    let CstNode::Container(container) = node else {
        return Err(Refusal::Error(EditError::NoSuchPlace));
    };
    match container {
        CstContainerNode::Array(array) => sort_array(alloc, doc, array, &edit)?,
        CstContainerNode::Object(object) => sort_object(alloc, doc, object, &edit)?,
        _ => return Err(Refusal::Error(EditError::NoSuchPlace)),
    }
    Ok(())
}

/// What is compared: the text, by which it goes, or the greatest first, or how long it is, or its first byte.
#[derive(PartialEq, Eq, PartialOrd, Ord, Drop)]
enum Key {
    /// The text.
    Text(String),
    /// The greatest text first.
    Reversed(Reverse<String>),
    /// A number.
    Number(usize),
}

fn key_of(text: String, key: SortKey) -> Key {
    match key {
        SortKey::Text => Key::Text(text),
        SortKey::Reversed => Key::Reversed(Reverse(text)),
        SortKey::Length => Key::Number(text.len()),
        SortKey::First => match text.as_bytes().first() {
            Some(byte) => Key::Number((*byte as usize).saturating_add(1)),
            None => Key::Number(0),
        },
        SortKey::Same => Key::Number(0),
    }
}

fn element_key(
    alloc: Global,
    doc: &CstRootNode<Global>,
    node: CstNode,
    key: SortKey,
) -> Result<Key, EditError>
    requires { HasNode doc.now node }
{
    let Ok(text) = node.shown(doc).to_string(alloc) else {
        return Err(EditError::OutOfMemory);
    };
    Ok(key_of(text, key))
}

/// A name as it is written, without quotes.
fn name_of(doc: &CstRootNode<Global>, property: CstObjectProp) -> &str
    requires { HasNode doc.now (object_prop_node property) }
{
    match property.name(doc) {
        Some(ObjectPropName::Word(word)) => word.raw_value(doc),
        Some(ObjectPropName::String(string)) => {
            let text = string.raw_value(doc);
            match text.strip_prefix("\"") {
                Some(rest) => rest.strip_suffix("\"").unwrap_or(rest),
                None => match text.strip_prefix("'") {
                    Some(rest) => rest.strip_suffix("'").unwrap_or(rest),
                    None => text,
                },
            }
        }
        None => "",
    }
}

fn property_key(
    alloc: Global,
    doc: &CstRootNode<Global>,
    property: CstObjectProp,
    key: SortKey,
) -> Result<Key, EditError>
    requires { HasNode doc.now (object_prop_node property) }
{
    let Ok(text) = String::from_str(alloc, name_of(doc, property)) else {
        return Err(EditError::OutOfMemory);
    };
    Ok(key_of(text, key))
}

/// The text by which a list of edits sorts: of a property its name as it is written, without quotes, and of
/// an element itself. It is empty where there is no memory for it.
fn text_of(alloc: Global, doc: &CstRootNode<Global>, node: CstNode) -> String
    requires { HasNode doc.now node }
{
    let text = match node {
        CstNode::Container(CstContainerNode::ObjectProp(property)) => {
            String::from_str(alloc, name_of(doc, property))
        }
        _ => node.shown(doc).to_string(alloc),
    };
    match text {
        Ok(text) => text,
        Err(_) => String::new(alloc),
    }
}

/// Compares two elements or properties by these texts.
pub(crate) fn compare_nodes(
    alloc: Global,
    doc: &CstRootNode<Global>,
    one: CstNode,
    other: CstNode,
) -> Ordering
    requires one { HasNode doc.now one }
    requires other { HasNode doc.now other }
{
    let first = text_of(alloc, doc, one);
    let second = text_of(alloc, doc, other);
    first.cmp(&second)
}

fn sort_array(
    alloc: Global,
    doc: &mut CstRootNode<Global>,
    array: CstArray,
    edit: &SortEdit,
) -> Result<(), EditError>
    requires { HasNode doc.old (array_node array) }
{
    let key = edit.key;
    let by = move |doc: &CstRootNode<Global>, node: CstNode| element_key(alloc, doc, node, key);
    let sort = array.sort_elements();
    let sort = if edit.groups {
        sort.within_groups()
    } else {
        sort
    };
    match edit.rule {
        SortRule::NoRule => sort.by_key(doc, by),
        SortRule::BlankLines => sort.pin_comment_headers().by_key(doc, by),
        SortRule::Headers => sort.keep_headers().by_key(doc, by),
        SortRule::Pins(count) => sort
            .pin_comment_headers_with(move |_: &CstRootNode<
                Global,
            >, _: CstNode, _: &[CstComment]| count)
            .by_key(doc, by),
    }
}

fn sort_object(
    alloc: Global,
    doc: &mut CstRootNode<Global>,
    object: CstObject,
    edit: &SortEdit,
) -> Result<(), EditError>
    requires { HasNode doc.old (object_node object) }
{
    let key = edit.key;
    let by_name = edit.by_name;
    let by = move |doc: &CstRootNode<Global>, property: CstObjectProp| {
        if by_name {
            property_key(alloc, doc, property, key)
        } else {
            element_key(alloc, doc, property.into(), key)
        }
    };
    let sort = object.sort_properties();
    let sort = if edit.groups {
        sort.within_groups()
    } else {
        sort
    };
    match edit.rule {
        SortRule::NoRule => sort.by_key(doc, by),
        SortRule::BlankLines => sort.pin_comment_headers().by_key(doc, by),
        SortRule::Headers => sort.keep_headers().by_key(doc, by),
        SortRule::Pins(count) => sort
            .pin_comment_headers_with(move |_: &CstRootNode<
                Global,
            >, _: CstObjectProp, _: &[CstComment]| count)
            .by_key(doc, by),
    }
}
