//! The value of a JSON text as a value for edits, made as the text is read; and its JSON text.
#![tactic(auto)]

mod compact;
mod maker;
mod parse;

pub use compact::to_json;
pub use parse::parse_to_input;
