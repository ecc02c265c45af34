//! The value of a text, read by its places there: the quickest way to read settings that are not kept.
//!
//! [`parse_to_view`] makes a [`JsonView`], which borrows the text. Its values are looked up by names and places, or gone over.

pub use jsonc_view::{
    JsonView, ViewArray, ViewElements, ViewObject, ViewProperties, ViewValue, parse_to_view,
};
