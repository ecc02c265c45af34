//! Values of properties by the properties' names, by the numbers of nodes.
//!
//! [`ensure_property`] sees that the first property of a name in an object has an array or an object as its
//! value ([`Shape`]): a value of another kind stays or is replaced by an empty one ([`Over`]), and where none
//! has the name one with an empty value is inserted after the last property (`specs/named/Named.antt`). The
//! answer is that array or object.
//!
//! In a sound document what is found so is the first property of the name in the object's value, and the
//! text that is made is a document again, in which that property alone has changed, or has been inserted last
//! (`specs/named/Members.antt`, [`laws`], `specs/named/Laws.antt`). `specs/named/Values.antt` and `specs/named/Places.antt` have the
//! words for values at paths and for the properties that paths lead to, which lists of edits use too.

pub mod laws;
mod named;

pub use named::ensure_property;
