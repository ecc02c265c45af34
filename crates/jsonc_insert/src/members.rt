//! Properties that are inserted into objects, by the numbers of nodes.
//!
//! An object is put on several lines before a property is inserted, unless a line ends in it already
//! (`specs/members/Opened.antt`). Then the property is inserted as an element is: blank lines directly inside
//! the brackets are removed, the tree that is left tells the layout, and what was made is inserted between
//! neighbours (`specs/members/Inserted.antt`). Where memory is refused, the object gets the row again that it
//! had, so an error leaves the document as it was.
//!
//! [`insert_property`] does so with a name, a value and a number; a number past the end means the end. The
//! answer is the new property, and nothing outside of the object changes; of the object's children blanks alone
//! are removed; in a sound document only allocation failure refuses, and the layout that is told fits
//! ([`laws`], `specs/members/Laws.antt`). `specs/members/Worked.antt` has worked insertions. That the text is a
//! document again, with the property in its place, is proved in `jsonc_insert::properties`.

pub mod laws;
mod members;

pub use members::insert_property;
