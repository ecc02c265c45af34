//! Documents and values, read from their texts.

use failing_alloc::outcome::Outcome;
use jsonc_parser::ParseOptions;
use jsonc_parser::cst::{CstInputValue, CstRootNode};
use std::alloc::{AllocError, Allocator};
use std::default::Default;

/// A text, read with all options on.
pub fn read<A: Allocator + Copy>(alloc: A, text: &str) -> Result<CstRootNode<A>, Outcome> {
    match CstRootNode::parse(alloc, text, &ParseOptions::default()) {
        Ok(doc) => Ok(doc),
        Err(error) => Err(Outcome::from(error)),
    }
}

/// The value of a text that has one.
pub fn value_of<A: Allocator + Copy>(alloc: A, text: &str) -> Result<CstInputValue<A>, AllocError> {
    let Ok(doc) = read(alloc, text) else {
        return Err(AllocError);
    };
    match doc.to_value() {
        Ok(Some(value)) => Ok(value),
        _ => Err(AllocError),
    }
}
