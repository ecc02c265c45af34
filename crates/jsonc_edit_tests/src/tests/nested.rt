//! Values that are nested as deep as a text may be, and deeper.

use crate::tests::reading::read;
use failing_alloc::outcome::Outcome;
use jsonc_parser::ParseOptions;
use jsonc_parser::cst::{CstInputValue, CstRootNode, Edit, EditError, Over, Shape, run_unsorted};
use jsonc_parser::errors::ParseErrorKind;
use std::alloc::{AllocError, Global};
use std::default::Default;
use std::test::Fail;

/// A kind of edit that puts a value, or an empty object.
#[derive(Clone, Copy)]
enum Put {
    Value,
    Root,
    Property,
    PropertyValue,
    Element,
    LastElement,
    NewProperty,
    LastProperty,
    Named,
}

/// The edit, a text, how many arrays are around it in the document, how many are around `null` in the value
/// that is put, and whether the edit is made: where no more than 512 arrays, objects and properties would be
/// around `null`, or around the empty object.
type Nested = (Put, &'static str, usize, usize, bool);

const MEMBER: &str = "{\"a\": 1}";

static ROWS: [Nested; 34] = [
    (Put::Value, "1", 512, 0, true),
    (Put::Value, "1", 512, 1, false),
    (Put::Value, "1", 1, 511, true),
    (Put::Value, "1", 1, 512, false),
    (Put::Root, "1", 0, 512, true),
    (Put::Root, "1", 0, 513, false),
    (Put::Root, "", 0, 512, true),
    (Put::Root, "", 0, 513, false),
    (Put::Property, MEMBER, 510, 0, true),
    (Put::Property, MEMBER, 510, 1, false),
    (Put::Property, MEMBER, 1, 509, true),
    (Put::Property, MEMBER, 1, 510, false),
    (Put::PropertyValue, MEMBER, 510, 0, true),
    (Put::PropertyValue, MEMBER, 510, 1, false),
    (Put::PropertyValue, MEMBER, 1, 509, true),
    (Put::PropertyValue, MEMBER, 1, 510, false),
    (Put::Element, "[1]", 511, 0, true),
    (Put::Element, "[1]", 511, 1, false),
    (Put::Element, "[1]", 1, 510, true),
    (Put::Element, "[1]", 1, 511, false),
    (Put::LastElement, "[]", 511, 0, true),
    (Put::LastElement, "[]", 512, 0, false),
    (Put::LastElement, "[]", 1, 510, true),
    (Put::LastElement, "[]", 1, 511, false),
    (Put::NewProperty, MEMBER, 510, 0, true),
    (Put::NewProperty, "{}", 511, 0, false),
    (Put::NewProperty, "{}", 1, 509, true),
    (Put::NewProperty, "{}", 1, 510, false),
    (Put::LastProperty, "{}", 510, 0, true),
    (Put::LastProperty, "{}", 512, 0, false),
    (Put::LastProperty, MEMBER, 1, 509, true),
    (Put::LastProperty, MEMBER, 1, 510, false),
    (Put::Named, "{}", 510, 0, true),
    (Put::Named, "{}", 511, 0, false),
];

/// `null` in so many arrays, one in another.
pub fn nested(alloc: Global, count: usize) -> Result<CstInputValue<Global>, AllocError> {
    let mut value = CstInputValue::Null;
    for _ in 0..count {
        let mut elements = Vec::new(alloc);
        elements.push(value)?;
        value = CstInputValue::Array(elements);
    }
    Ok(value)
}

/// A text in so many arrays, one in another.
fn in_arrays(alloc: Global, inner: &str, count: usize) -> Result<String, AllocError> {
    let mut text = String::new(alloc);
    for _ in 0..count {
        text.push('[')?;
    }
    text.push_str(inner)?;
    for _ in 0..count {
        text.push(']')?;
    }
    Ok(text)
}

/// The edit of what is in so many arrays.
fn edit_of(
    alloc: Global,
    put: Put,
    arrays: usize,
    value: CstInputValue<Global>,
) -> Result<Edit<Global>, AllocError> {
    let mut path = Vec::new(alloc);
    for _ in 0..arrays {
        path.push(0)?;
    }
    if matches!(put, Put::Property | Put::PropertyValue) {
        path.push(0)?;
    }
    let name = String::from_str(alloc, "b")?;
    match put {
        Put::Value => Ok(Edit::Replace(path, value)),
        Put::Root => Ok(Edit::SetRoot(value)),
        Put::Property => Ok(Edit::ReplaceProperty(path, name, value)),
        Put::PropertyValue => Ok(Edit::SetValue(path, value)),
        Put::Element => Ok(Edit::InsertElement(path, 0, value)),
        Put::LastElement => Ok(Edit::AppendElement(path, value)),
        Put::NewProperty => Ok(Edit::InsertProperty(path, 0, name, value)),
        Put::LastProperty => Ok(Edit::AppendProperty(path, name, value)),
        Put::Named => Ok(Edit::EnsureProperty(path, name, Shape::Object, Over::Keep)),
    }
}

/// Whether the edit of a row was made, and its text read again; where it was refused, it was for depth, and
/// the text is as it was.
fn is_made(alloc: Global, row: &Nested) -> Result<bool, Outcome> {
    let (put, inner, around, arrays, _) = *row;
    let text = in_arrays(alloc, inner, around)?;
    let mut doc = read(alloc, &text)?;
    let mut edits = Vec::new(alloc);
    edits.push(edit_of(alloc, put, around, nested(alloc, arrays)?)?)?;
    let answer = run_unsorted(&mut doc, edits);
    let after = doc.text()?;
    match answer {
        Ok(()) => {
            read(alloc, &after)?;
            Ok(after != text)
        }
        Err((0, EditError::NestingDepthExceeded)) if after == text => Ok(false),
        Err(_) => Err(Outcome::Other),
    }
}

/// The text of a document whose value is set to one that is nested too deep, by the call on the document.
fn text_once_set(alloc: Global) -> Result<String, Outcome> {
    let value = nested(alloc, 600)?;
    let mut doc = read(alloc, "1")?;
    doc.set_value(value)?;
    Ok(doc.text()?)
}

/// Whether a text can not be read, for its nesting alone.
fn is_too_deep(alloc: Global, text: &str) -> bool {
    match CstRootNode::parse(alloc, text, &ParseOptions::default()) {
        Ok(_) => false,
        Err(error) => *error.kind() == ParseErrorKind::NestingDepthExceeded,
    }
}

#[test]
fn edits_of_lists_nest_no_deeper_than_texts(rt: HostRuntime) -> Result<(), Fail> {
    for (place, row) in ROWS.iter().enumerate() {
        assert!(rt; is_made(rt.alloc(), row) == Ok(row.4), "row {}", place);
    }
    Ok(())
}

#[test]
fn values_may_nest_deeper_than_texts(rt: HostRuntime) -> Result<(), Fail> {
    let is_refused = match text_once_set(rt.alloc()) {
        Ok(text) => is_too_deep(rt.alloc(), &text),
        Err(_) => false,
    };
    assert!(rt; is_refused);
    Ok(())
}
