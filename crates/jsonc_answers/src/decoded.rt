//! A string by itself.

use crate::show::push_string_kind;
use jsonc_cases::escape::Escaped;
use jsonc_text::string::provider::parse_string;
use std::alloc::{AllocError, Global};
use std::borrow::CowStr;

/// The string at the front of a text and whether the text lends it, or why none stands there.
pub fn decoded(alloc: Global, text: &str) -> Result<String, AllocError> {
    match parse_string(alloc, text) {
        Ok(CowStr::Borrowed(string)) => {
            format!(in alloc; "borrowed\t{}", Escaped::field(string.as_bytes()))
        }
        Ok(CowStr::Owned(string)) => {
            format!(in alloc; "owned\t{}", Escaped::field(string.as_bytes()))
        }
        Err(error) => {
            let mut out = String::from_str(alloc, "fault ")?;
            push_string_kind(&mut out, &error.kind)?;
            write!(out, " {} {}", error.byte_index, error.kind)?;
            Ok(out)
        }
    }
}
