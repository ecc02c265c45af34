//! The document of a text with faults: that of its mended text, with what the mends wrote.
//!
//! [`parse_mended`] mends the text and parses what that makes. A node that the mends wrote is known by its bytes
//! ([`MendedDocument::is_inserted`]).
#![tactic(auto)]

mod mended;

pub use mended::{MendedDocument, parse_mended};
