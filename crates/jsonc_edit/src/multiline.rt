//! Arrays and objects that are put on several lines.
//!
//! What stands between the brackets is read in parts, each through its comma; each is put on a line of
//! its own, without the whitespace around it, and the last bracket on one too (`specs/multiline/Lines.antt`). A
//! row is planned before anything changes: its places, and the nodes that fill them, children that stay
//! and leaves that were made (`specs/multiline/Plans.antt`). Then all take their places at once, so an error
//! leaves the document as it was (`specs/multiline/Multiline.antt`).
//!
//! Where this is done in a sound document, the row is what it was, but that ends of lines have been inserted
//! and whitespace beside them removed (`specs/multiline/Reflows.antt`). So the text is a document again, of the
//! same value and with the same literals and comments, the document is sound, and a second time nothing changes
//! ([`laws`], `specs/multiline/Laws.antt`).
//!
//! [`plan_lines`] serves whoever puts more into such a row: it answers the numbers of the row on several
//! lines and changes no child.

pub mod laws;
mod lines;
mod multiline;
mod plan;

pub use crate::remove::has_brackets;
pub use lines::{Lines, lines_for};
pub use multiline::ensure_multiline;
pub use plan::plan_lines;
