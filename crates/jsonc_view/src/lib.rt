//! Values of JSON by their places in the text, to be read.
//!
//! [`parse_to_view`] makes one. A text stays where it is, and each value of it has twelve bytes, each member twenty-four: they
//! are dropped without going over them.
#![tactic(auto)]

pub mod laws;
mod maker;
mod parse;
mod rows;
mod view;

pub use parse::parse_to_view;
pub use view::{JsonView, ViewArray, ViewElements, ViewObject, ViewProperties, ViewValue};
