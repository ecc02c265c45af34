//! Values for edits, laid out as nodes of a tree.
//!
//! [`lay_out`] makes the node of a value, with all that stands in it, and [`lay_out_property`] that of
//! a name with its value. Neither node is anybody's child yet, and no other node changes: an edit
//! attaches or splices it in. The definitions (`specs/from_input/Laid.antt`) say which row of nodes stands below it.

pub mod laws;
mod layout;
mod lines;
mod values;

pub use layout::Layout;
pub use values::{holds_filled, is_filled, lay_out, lay_out_property};
