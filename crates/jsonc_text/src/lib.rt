//! The texts of JSON with comments: ranges, faults, tokens, and what they are.
//!
//! The definitions of `specs/` say what the lexemes of a text are, which texts are documents, and
//! which values they have; every crate of this repository speaks of texts by them.
//!
//! [`string`] reads what stands between quotes.
#![tactic(auto)]

pub mod chars;
pub mod comment;
pub mod common;
pub mod edit;
pub mod errors;
pub mod laws;
pub mod line;
pub mod options;
pub mod runs;
pub mod string;
pub mod tokens;
