//! Values of JSON, with objects that keep the order of their names.
//!
//! [`to_value`] has the parser that makes values.
#![tactic(auto)]

pub mod laws;
pub mod map;
pub mod to_value;
mod value;

pub use map::Map;
pub use value::{JsonArray, JsonObject, JsonValue};
