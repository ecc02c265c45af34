//! Elements that are inserted into arrays, by the numbers of nodes.
//!
//! A row is a container's list of children, brackets among them. Before an element is inserted, blank lines
//! directly inside the brackets are removed (`specs/Trimmed.antt`: after the first bracket all but the
//! first line's end, before the last all but the last). The tree that is left tells how lines end, the
//! indents and the trailing commas (`specs/Settings.antt`), and is asked only where lines are written; a plan
//! says where the element is inserted and what is written beside it (`specs/Planned.antt`). The element and
//! the leaves beside it are made, detached yet (`specs/Made.antt`), and then inserted between neighbours
//! (`specs/Neighbours.antt`). Where memory is refused, what was removed is put back (`specs/Removed.antt`), so
//! an error leaves the document as it was. All of it is said as one change (`specs/Inserted.antt`).
//!
//! [`insert_element`] does so with a value and a number; a number past the end means the end
//! (`specs/Laws.antt`, which also says what stays and that blanks alone are removed). `specs/Worked.antt` has
//! worked insertions. What becomes of a sound document is said in `jsonc_insert::elements`. Properties go
//! into objects in the same way, by `jsonc_insert::members`.
//!
//! [`members`] puts properties into objects, and [`named`] sees that the first property of a name has an array or an object.
//! What becomes of a sound document is said in [`elements`] and [`properties`].
#![tactic(auto)]

pub mod elements;
mod insert;
pub mod laws;
mod made;
pub mod members;
pub mod named;
mod neighbours;
mod plan;
pub mod properties;
mod settings;
mod trim;

pub use insert::insert_element;
