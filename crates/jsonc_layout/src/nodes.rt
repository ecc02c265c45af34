//! Readings of a document's tree by the numbers of its nodes: who stands beside a node, and below
//! one.
//!
//! Trivia are whitespace, newlines and comments. An element is a child that is neither trivia nor a
//! token: a value, or a property of an object. No call changes the tree; one that answers a list
//! takes the allocator that it is made with.

mod comments;
mod kinds;
mod names;
mod property;
mod siblings;
mod strings;
mod within;

pub use comments::{after_inline_trivia, leading_comments_same_line, trailing_comments_same_line};
pub use jsonc_tree::{Children, PreviousSiblings};
pub use kinds::{
    is_blank, is_comma, is_comment, is_element, is_inline_trivia, is_newline, is_property_kind,
    is_token, is_trivia, is_whitespace,
};
pub use names::{decoded_name, decoded_value, get, is_named, name_read};
pub(crate) use property::first_element_from;
pub use property::{lacks_name, name_of, value_of};
pub use siblings::{
    LineBefore, child_at_index, children_from, line_before, next_sibling, next_siblings,
    previous_sibling, previous_siblings, root_node,
};
pub(crate) use within::first_element_back;
pub use within::{
    children, element_at, element_index, elements, next_element, previous_element, push_children,
};
