//! Values handed to edits, and how their strings are spelled.

pub mod laws;
pub mod spelling;
mod value;

pub use value::CstInputValue;
