//! Edits that are timed, each made again and again on one document.
ghost use Rattle.std.specs.Prelude.{IfOk};
ghost use Rattle.jsonc_cst.specs.Document.{HasNode};
ghost use Rattle.jsonc_cst.specs.Nodes.{number_lit_node, object_prop_node};

use crate::documents::{elements, parsed, properties};
use jsonc_engine::fault::Fault;
use jsonc_parser::cst::{
    CstInputValue, CstLeafNode, CstNode, CstNumberLit, CstObjectProp, CstRootNode, TypedNode,
};
use std::alloc::{AllocError, Global};

/// The number that is written.
fn seven(alloc: Global) -> Result<CstInputValue<Global>, AllocError> {
    Ok(CstInputValue::Number(String::from_str(alloc, "7")?))
}

/// The last element of an array, where it is a number.
fn last_number(document: &CstRootNode<Global>) -> Result<CstNumberLit, Fault<Global>>
    ensures { IfOk result (λ n. HasNode document.now (number_lit_node n)) }
{
    let elements = elements(document)?;
    match elements.last() {
        Some(CstNode::Leaf(CstLeafNode::NumberLit(number))) => Ok(*number),
        _ => Err(Fault::NotArray),
    }
}

/// Replaces a number by another.
fn replace(
    alloc: Global,
    document: &mut CstRootNode<Global>,
    number: CstNumberLit,
) -> Result<CstNumberLit, Fault<Global>>
    requires { HasNode document.old (number_lit_node number) }
    ensures { IfOk result (λ n. HasNode document.new (number_lit_node n)) }
{
    match number.replace_with(document, seven(alloc)?) {
        Ok(Some(CstNode::Leaf(CstLeafNode::NumberLit(next)))) => Ok(next),
        Ok(_) => Err(Fault::NotArray),
        Err(error) => Err(Fault::Edit(error)),
    }
}

/// How often the last number of an array was replaced.
pub fn replaced(alloc: Global, text: &str, count: u64) -> Result<usize, Fault<Global>> {
    let mut document = parsed(alloc, text)?;
    let mut last = last_number(&document)?;
    let mut sum = 0usize;
    for _ in 0..count {
        last = replace(alloc, &mut document, last)?;
        sum = sum.saturating_add(1);
    }
    Ok(sum)
}

/// Appends a number to the array of a document.
fn append(alloc: Global, document: &mut CstRootNode<Global>) -> Result<(), Fault<Global>> {
    let Some(array) = document.array_value() else {
        return Err(Fault::NotArray);
    };
    match array.append(document, seven(alloc)?) {
        Ok(_) => Ok(()),
        Err(error) => Err(Fault::Edit(error)),
    }
}

/// How often a number was appended to the array of one document.
pub fn appended(alloc: Global, text: &str, count: u64) -> Result<usize, Fault<Global>> {
    let mut document = parsed(alloc, text)?;
    let mut sum = 0usize;
    for _ in 0..count {
        append(alloc, &mut document)?;
        sum = sum.saturating_add(1);
    }
    Ok(sum)
}

/// Inserts a number at the front of the array of a document.
fn insert(alloc: Global, document: &mut CstRootNode<Global>) -> Result<(), Fault<Global>> {
    let Some(array) = document.array_value() else {
        return Err(Fault::NotArray);
    };
    match array.insert(document, 0, seven(alloc)?) {
        Ok(_) => Ok(()),
        Err(error) => Err(Fault::Edit(error)),
    }
}

/// How often a number was inserted at the front of the array of one document.
pub fn inserted(alloc: Global, text: &str, count: u64) -> Result<usize, Fault<Global>> {
    let mut document = parsed(alloc, text)?;
    let mut sum = 0usize;
    for _ in 0..count {
        insert(alloc, &mut document)?;
        sum = sum.saturating_add(1);
    }
    Ok(sum)
}

/// Sets the value of a property.
fn set_one(
    alloc: Global,
    document: &mut CstRootNode<Global>,
    property: CstObjectProp,
) -> Result<(), Fault<Global>> {
    if !document.holds(property.node()) {
        return Err(Fault::NotObject);
    }
    let value = seven(alloc)?;
    match property.set_value(document, value) {
        Ok(_) => Ok(()),
        Err(error) => Err(Fault::Edit(error)),
    }
}

/// The last property of an object.
fn last_property(document: &CstRootNode<Global>) -> Result<CstObjectProp, Fault<Global>>
    ensures { IfOk result (λ p. HasNode document.now (object_prop_node p)) }
{
    let properties = properties(document)?;
    match properties.last() {
        Some(property) => Ok(*property),
        None => Err(Fault::NotObject),
    }
}

/// How often the value of the last property of an object was set.
pub fn set(alloc: Global, text: &str, count: u64) -> Result<usize, Fault<Global>> {
    let mut document = parsed(alloc, text)?;
    let last = last_property(&document)?;
    let mut sum = 0usize;
    for _ in 0..count {
        set_one(alloc, &mut document, last)?;
        sum = sum.saturating_add(1);
    }
    Ok(sum)
}

/// Removes the last of these elements, if there is one, and answers how many that were.
fn remove_last(
    document: &mut CstRootNode<Global>,
    elements: &mut Vec<CstNode>,
) -> Result<usize, Fault<Global>> {
    let Some(last) = elements.pop() else {
        return Ok(0);
    };
    if !document.holds(last) {
        return Ok(0);
    }
    match last.remove(document) {
        Ok(()) => Ok(1),
        Err(error) => Err(Fault::Edit(error)),
    }
}

/// How many elements of the array of one document were removed, from the last on.
pub fn removed(alloc: Global, text: &str, count: u64) -> Result<usize, Fault<Global>> {
    let mut document = parsed(alloc, text)?;
    let mut elements = elements(&document)?;
    let mut sum = 0usize;
    for _ in 0..count {
        sum = sum.saturating_add(remove_last(&mut document, &mut elements)?);
    }
    Ok(sum)
}
