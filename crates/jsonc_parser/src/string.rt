//! Strings between quotes, decoded by themselves.

pub use jsonc_text::errors::ParseStringErrorKind;
pub use jsonc_text::string::provider::{
    CharProvider, ParseStringError, parse_string, parse_string_with_char_provider,
};
