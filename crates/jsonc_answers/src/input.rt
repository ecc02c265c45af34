//! A value for edits, as a run of words.

use crate::value::{push_boolean, push_word};
use jsonc_cases::escape::Escaped;
use jsonc_parser::cst::input::CstInputValue;
use std::alloc::{AllocError, Global};

/// A value as a run of words, each container before what is in it.
#[cycle(show)]
pub fn push_input(out: &mut String, value: &CstInputValue<Global>) -> Result<(), AllocError> {
    match value {
        CstInputValue::String(text) => push_word(out, '\'', text.as_str()),
        CstInputValue::Number(text) => push_word(out, '#', text.as_str()),
        CstInputValue::Bool(boolean) => push_boolean(out, *boolean),
        CstInputValue::Null => out.push('N'),
        CstInputValue::Array(elements) => push_elements(out, elements.as_slice()),
        CstInputValue::Object(properties) => push_properties(out, properties.as_slice()),
    }
}

#[cycle(show)]
fn push_elements(out: &mut String, elements: &[CstInputValue<Global>]) -> Result<(), AllocError> {
    write!(out, "[{}", elements.len())?;
    for element in elements {
        out.push(' ')?;
        push_input(out, element)?;
    }
    Ok(())
}

#[cycle(show)]
fn push_properties(
    out: &mut String,
    properties: &[(String, CstInputValue<Global>)],
) -> Result<(), AllocError> {
    write!(out, "{{{}", properties.len())?;
    for (name, value) in properties {
        write!(out, " '{} ", Escaped::word(name.as_str()))?;
        push_input(out, value)?;
    }
    Ok(())
}
