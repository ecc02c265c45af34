//! Whether a text is read, and what is wrong with one that is not.
//!
//! [`check`] tells it of a text that is read for its value, and [`check_document`] of a document. Neither keeps anything of the
//! text, and neither asks for memory.
#![tactic(auto)]

pub mod checker;

pub use checker::{check, check_document};
