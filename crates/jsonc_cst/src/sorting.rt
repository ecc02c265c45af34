//! Sorts of arrays and objects, on typed nodes.
//!
//! [`CstArray::sort_elements`](crate::cst::CstArray) and [`CstObject::sort_properties`](crate::cst::CstObject) answer
//! a sort, a value that takes how to treat what is between the elements, and then sorts by a
//! comparison or by keys. These are closures that read the document: they are asked with the document
//! as it is before and with nodes of it, all before anything changes (`specs/sorting/Asking.antt`). Which
//! places are in which order is `jsonc_sort::ordering`'s, what goes where with an element `jsonc_sort`'s
//! (`specs/sorting/Sorted.antt`). [`sort_container`] sorts either by a comparison, for lists of edits.

mod containers;
mod elements;
mod headers;
mod placing;
mod properties;
mod rows;
mod sort;
mod sorting;

pub use containers::sort_container;
pub use headers::{BlankLineHeaders, HeaderRule, HeadersBy, KeptHeaders, NoHeaders};
pub use sort::{ElementSort, PropertySort, Sort};
