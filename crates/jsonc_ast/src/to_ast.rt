//! From a text to its syntax tree.

mod values;

pub use values::{ParseResult, parse_to_ast};
