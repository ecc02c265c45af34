//! Edits of documents, one at a time.
//!
//! [`make`] makes one edit (`specs/Edits.antt`), all but sorts, which ask a comparison of typed nodes. An edit:
//!
//! - replaces the value at a path, sets it, or sets the truth value there;
//! - removes the entry at a path, or the document's value ([`find_entry`]);
//! - removes the comment of a number ([`find_comment`]);
//! - sets the document's value, or removes all of the document;
//! - replaces the property at a path, sets its value, or gives it another name ([`find_property`]);
//! - ensures that the document, a property, or an object's first property of a name is an array or an object;
//! - puts the array or object at a path on several lines ([`find_container`]), or inserts an entry into it;
//! - inserts a comment above the entry at a path, or after it;
//! - sets the trailing commas of the value at a path and of all below it.
//!
//! One that is refused leaves the document as it was, trailing commas aside (`specs/Refusals.antt`). Refused
//! is also one that would nest a value deeper than texts are parsed.
//! In a sound document the text that edits make, one after another, is a document again, whose value is
//! what the same edits make of the old one's, and which is sound (`specs/Written.antt`). Where two literals
//! without quotes would come to stand directly beside each other, an edit writes a space between them.
//!
//! [`promise`] leads from edits that were made in nodes to one chain of texts.
#![tactic(auto)]

mod at;
mod depth;
mod edit;
pub mod laws;
mod making;
mod places;
pub mod promise;

pub use depth::is_too_deep_below;
pub use edit::Edit;
pub use jsonc_edit::{Over, Shape};
pub use jsonc_text::edit::Place;
pub use making::make;
pub use places::{find_comment, find_container, find_entry, find_property};
