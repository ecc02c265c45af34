//! JSON Pointers (RFC 6901), JSON Patches (RFC 6902) and merge patches (RFC 7396).
//!
//! A [`Pointer`] is a text that leads from a document's value to one inside it, through objects by names and through
//! arrays by indexes, parsed, or made of its tokens. [`find`] finds the node that it refers to in a document, [`read`]
//! takes its value, and [`pointer_of`] answers the pointer of a node.
//!
//! A [`Patch`] is a list of operations at pointers, read from its text, which [`Patch::apply`] makes on a document
//! whole or not at all. Every comment outside what was replaced or removed stays, and every byte outside of what the
//! operations change; what a removal takes is said at [`crate::cst::CstNode::remove`]. [`same_number`] determines
//! whether two texts of numbers have one value, as a patch's `test` asks.
//!
//! [`merge`] merges a value into a document's value, object into object, whole or not at all too: what does not differ
//! is not touched.

mod apply;
mod entry;
mod equality;
pub(crate) mod laws;
mod location;
mod making;
mod merge_text;
mod merging;
mod moving;
mod numbers;
mod operation;
mod pointer;
mod putting;
mod quoting;
mod reading;
mod reference;
mod renaming;
mod taking;
mod unique;
mod values;
mod within;

pub use apply::PatchFault;
pub use entry::entry_at;
pub use location::pointer_of;
pub use making::PatchCause;
pub use merge_text::{MergePatchError, merge_patch_from_json};
pub use merging::{MergeFault, merge};
#[doc(hidden)]
pub use numbers::decimal_digits;
pub use numbers::same_number;
pub use operation::{Member, Operation, OperationFault};
pub use pointer::{Pointer, PointerError};
pub use putting::{PutError, put};
#[doc(hidden)]
pub use quoting::write_repeated_name;
pub use reading::{Patch, PatchError};
pub use reference::{FindError, find, read};
