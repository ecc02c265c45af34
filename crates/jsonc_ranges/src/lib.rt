//! The edits of a document as changes of its text.
//!
//! [`LeafRanges`] notes where each leaf of a document is in its text. After edits of the document it gives what has changed as a
//! list of ranges ([`LeafRanges::changes`]), so that an editor, a fixer or a language server changes its buffer there alone.
#![tactic(auto)]

mod changes;
pub mod laws;
mod ranges;

pub use ranges::LeafRanges;
