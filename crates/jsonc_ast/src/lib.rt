//! The syntax tree of JSON with comments: each value with the range of its text.
//!
//! [`to_ast`] has the parser that makes it, by the walk of `jsonc_walk`.
#![tactic(auto)]

pub mod ast;
pub mod to_ast;
