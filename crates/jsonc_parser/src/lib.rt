//! A parser for JSON with comments, and a document that keeps every byte of its text.
//!
//! [`cst::CstRootNode::parse`] reads a text into a document, which prints as the text was written;
//! [`parse_to_ast`] reads it into values with their ranges, [`parse_to_value`] into values alone,
//! [`view::parse_to_view`] into a value that is read where it stands in the text, and [`check`] keeps nothing of it.
//! What a text may hold beyond JSON is said by [`ParseOptions`]; what is wrong with a text, and
//! where, by [`errors::ParseError`].
#![tactic(auto)]

mod change;
pub mod cst;
pub mod format;
pub mod laws;
mod line_index;
pub mod mend;
pub mod numbers;
pub mod patch;
mod paths;
mod places;
pub mod settings;
pub mod string;
pub mod view;

pub use change::{Utf16Change, text_change, utf16_change};
pub use jsonc_ast::ast;
pub use jsonc_ast::to_ast::{ParseResult, parse_to_ast};
pub use jsonc_check::{check, check_document};
pub use jsonc_mends::TextChange;
pub use jsonc_scan::scanner::Scanner;
pub use jsonc_text::errors::ParseStringErrorKind;
pub use jsonc_text::options::{ParseOptions, ScannerOptions};
pub use jsonc_text::{common, errors, tokens};
pub use jsonc_value::to_value::parse_to_value;
pub use jsonc_value::{JsonArray, JsonObject, JsonValue, Map, map};
pub use jsonc_walk::collect::{CollectOptions, CommentCollectionStrategy, CommentMap};
pub use line_index::LineIndex;
pub use places::{LineAndColumn, line_and_column, line_and_column_utf16, place_of, place_of_utf16};
