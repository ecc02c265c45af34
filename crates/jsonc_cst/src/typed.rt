//! Edits of documents, on typed nodes.
//!
//! A call is a short body over an edit by the numbers of nodes, and says with the words of that edit
//! what it makes of the document. Every node that the document held it holds after an edit too, also
//! after an error (`specs/typed/Edits.antt`): a node that has been replaced or removed is detached. After
//! an error each is as it was, its parent and its children too, in the document and apart from it; of trailing
//! commas some may have been set.
//!
//! Of a sound document each call is one step (`specs/typed/Steps.antt`): if its node is in the document,
//! whatever text this shows, the edit that the call names, at the node's path, leads from that text to the
//! one that the document shows then. So a list of calls is a list of steps, without a path in a premise. If
//! the node is elsewhere, as it has been replaced or removed, the document is what it was.
//!
//! The edits are methods of the document and of its typed nodes, which take the document first. `set_raw_value`
//! of strings, numbers, words and comments, `set_value` of tokens and whitespace, and `set_kind` of ends of lines
//! write one leaf anew, without memory, whatever the document makes of that
//! (`specs/typed/Raw.antt`). A closure that reads the document borrows it as a [`DocumentArg`].

mod commas;
mod commenting;
mod document;
mod inserting;
mod lines;
mod making;
mod raw;
mod removing;
mod renaming;
mod replacing;
mod setting;
mod there;
mod values;

pub use document::DocumentArg;
pub use setting::{array_at, object_at};
