//! The plain value of a node, taken as a value for edits.

pub mod laws;
mod taken;

pub use taken::to_value;
