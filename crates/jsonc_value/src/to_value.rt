//! Values of JSON read from their text.

mod names;
mod values;

pub use values::parse_to_value;
