//! What insertions make of documents: definitions and laws, no code.
//!
//! Where a value has been inserted into an array at a path of a sound document, blanks that stand after a
//! line's end directly inside the first bracket, or before one directly inside the last, have been removed from
//! its row; and then the value has been inserted, after a comma where one is wanted, with what parts it from
//! its neighbours (`specs/elements/Coming.antt`). So the text is a document again, its value is the old one but
//! that the array has one more element, of the literals and comments those of the value are new, and the
//! document is sound ([`laws`], `specs/elements/Laws.antt`). It is so under all options.
//!
//! So it is with a property that is inserted into an object, which is put on several lines before
//! (`specs/elements/Members.antt`). That the calls make of the nodes what this says of the trees is proved here of
//! arrays, and in `jsonc_insert::properties` of objects.

pub mod laws;
