//! The scanner: reads the lexemes and comments of a text one after another.
//!
//! What they are is defined in `jsonc_text`, whose names the contracts of this crate use;
//! `jsonc_text::string` decodes strings.
#![tactic(auto)]

mod comment;
mod faults;
pub mod found;
mod gap;
pub mod laws;
mod lexeme;
mod number;
mod plain;
mod reads;
pub mod scanner;
mod string;
mod word;

pub use number::is_number;
