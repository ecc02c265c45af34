//! What properties that are inserted into objects make of documents: laws, no code.
//!
//! Where a property has been inserted into an object at a path of a sound document, its row has been put on
//! several lines, blanks have been removed from it, and the property has been inserted ([`laws`],
//! `specs/properties/Laws.antt`). What that makes of the text, the value, the literals and comments, and that
//! the document is sound again, `jsonc_insert::elements` says of the trees.

pub mod laws;
