//! The tree of a text, made as the text is read: a [`Tree`](jsonc_tree::Tree) whose leaves are every
//! byte of the text.
#![tactic(auto)]

mod fill;
pub mod laws;
mod maker;
mod parse;
mod room;

pub use fill::comment_end;
pub use parse::parse_tree;
