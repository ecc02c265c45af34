//! What a path leads to, and the children of a node.

ghost use Rattle.jsonc_cst.specs.Document.{HasNode};

use crate::refusal::Refusal;
use jsonc_parser::cst::{
    CstContainerNode, CstNode, CstObjectProp, CstRootNode, EditError, ParentNode,
};
use std::alloc::{AllocError, Global};

/// The property that a path leads to.
pub fn property_at(doc: &CstRootNode<Global>, path: &[usize]) -> Result<CstObjectProp, Refusal> {
    let [front @ .., place] = path else {
        return Err(Refusal::Error(EditError::NoSuchPlace));
    };
    let node = value_at(doc, front)?;
    if !doc.holds(node) {
        return Err(Refusal::Error(EditError::NoSuchPlace));
    }
    property_below(doc, node, *place)
}

/// The value that a path leads to.
pub fn value_at(doc: &CstRootNode<Global>, path: &[usize]) -> Result<CstNode, Refusal> {
    let mut found = doc.value();
    for step in path {
        found = match found {
            Some(node) if doc.holds(node) => value_below(doc, node, *step)?,
            _ => None,
        };
    }
    match found {
        Some(node) => Ok(node),
        None => Err(Refusal::Error(EditError::NoSuchPlace)),
    }
}

/// The element or property that a path leads to, or the document's value.
pub fn entry_at(doc: &CstRootNode<Global>, path: &[usize]) -> Result<CstNode, Refusal> {
    let [front @ .., place] = path else {
        return value_at(doc, path);
    };
    let node = value_at(doc, front)?;
    if !doc.holds(node) {
        return Err(Refusal::Error(EditError::NoSuchPlace));
    }
    match node {
        CstNode::Container(CstContainerNode::Object(_)) => {
            Ok(property_below(doc, node, *place)?.into())
        }
        _ => match value_below(doc, node, *place)? {
            Some(element) => Ok(element),
            None => Err(Refusal::Error(EditError::NoSuchPlace)),
        },
    }
}

/// The element at a place of an array, or the value of the property at a place of an object.
fn value_below(
    doc: &CstRootNode<Global>,
    node: CstNode,
    place: usize,
) -> Result<Option<CstNode>, Refusal>
    requires { HasNode doc.now node }
{
    match node {
        CstNode::Container(CstContainerNode::Array(row)) => {
            Ok(row.elements(doc)?.get(place).copied())
        }
        CstNode::Container(CstContainerNode::Object(_)) => {
            let property = property_below(doc, node, place)?;
            if !doc.holds(property.into()) {
                return Ok(None);
            }
            Ok(property.value(doc))
        }
        _ => Ok(None),
    }
}

/// The property at a place of an object.
fn property_below(
    doc: &CstRootNode<Global>,
    node: CstNode,
    place: usize,
) -> Result<CstObjectProp, Refusal>
    requires { HasNode doc.now node }
{
    let CstNode::Container(CstContainerNode::Object(object)) = node else {
        return Err(Refusal::Error(EditError::NoSuchPlace));
    };
    match object.properties(doc)?.get(place) {
        Some(property) => Ok(*property),
        None => Err(Refusal::Error(EditError::NoSuchPlace)),
    }
}

/// Puts a node's children off, the first one last.
pub fn push_children(
    left: &mut Vec<CstNode>,
    doc: &CstRootNode<Global>,
    node: CstNode,
) -> Result<(), AllocError>
    requires { HasNode doc.now node }
{
    let Ok(children) = node.children(doc) else {
        return Err(AllocError);
    };
    for child in children.iter().rev() {
        left.push(*child)?;
    }
    Ok(())
}
