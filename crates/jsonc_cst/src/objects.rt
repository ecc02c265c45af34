//! Edits of objects, on typed nodes: properties that are inserted, and values of properties by name.
//!
//! `insert` and `append` put a property into an object, by its number or after the last
//! (`specs/objects/Members.antt`); `object_value_or_set` and its kin see that the first property of a name has an
//! array or an object as its value (`specs/objects/Named.antt`). As in `jsonc_cst::typed`, a call is a short body over
//! an edit by the numbers of nodes, and says with the words of that edit what it makes of the document; every node
//! that the document held it holds after it too, also after an error. If the object is in a sound document, the
//! call is one step from the text that this showed to the one that it shows.

mod members;
mod named;
