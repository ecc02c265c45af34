//! How a document is laid out: what the lines of a [`Tree`](jsonc_tree::Tree) begin and end with.
//!
//! Each call asks for a node by its number and changes nothing. What trivia and elements are, and
//! who stands beside a node, [`jsonc_layout::nodes`] says.

mod breadth;
mod indent;
mod indents;
mod kinds;
mod siblings;
mod walk;

pub use breadth::{last_child_element, newline_kind, newline_kind_at, uses_trailing_commas};
pub use indent::{indent_text, single_indent_text};
pub use indents::{Indents, indents_at};
pub use kinds::is_array_or_object;
pub use siblings::{has_blank_line_before, trailing_comma};
