//! What edits stand on: where a node stands in its document, and what the change of one node makes
//! of the document.
//!
//! A value has a path from the document's value: its place among the elements of its array, or that
//! of its property among the properties of its object, at each level (`specs/Paths.antt`); [`find`]
//! answers the value at a path. A change of the list of nodes that touches one node alone is in the
//! ordered tree a change at that path (`specs/Changes.antt`, `specs/Laws.antt`).
//!
//! [`replace`] replaces a node by a new value, laid out as the document tells
//! (`specs/Replacing.antt`, `specs/Reading.antt`). All memory is asked for before the document changes.
//! A value whose numbers are numbers is laid out as a whole value, which may stand where another stood
//! (`specs/Writing.antt`). So the text is a document again, whose value is the old one with the new
//! value at the path (`specs/Written.antt`). Where two literals without quotes would come to stand
//! directly beside each other, a space is inserted between them (`specs/Spaced.antt`).
//! [`remove_comment`] takes a comment out, a line comment with what stands before it on its line
//! (`specs/Comments.antt`), and asks for memory only where a space has to take its place.
//! [`EditError`] says why a document was not changed.
//!
//! The space between literals without quotes: where commas may be missing, a change can let two numbers,
//! names without quotes, `true`, `false` or `null` stand directly beside each other that did not before.
//! Then a space is inserted between them: in the innermost container that holds both, directly before the
//! child that holds the second (`specs/Due.antt`). Leaves that print nothing are passed over.
//! [`space_needed_between`], [`space_needed_before`] and [`space_needed_after`] tell where one is due, and [`space_needed_last`] and
//! [`space_needed_past`] where something is appended; [`make_spaces`] makes it, detached yet, and
//! [`put_spaces`] puts it in, which takes no memory (`specs/Put.antt`).
//!
//! [`set`] has the edits that set values, [`remove`] those that take entries out; [`multiline`] puts arrays and objects on
//! several lines, [`commas`] sets trailing commas, and [`commenting`] puts comments in.
#![tactic(auto)]

pub mod commas;
pub mod commenting;
mod comments;
mod due;
pub mod laws;
pub mod multiline;
mod paths;
mod put;
mod reading;
pub mod remove;
mod replacing;
mod rows;
pub mod seam_laws;
pub mod set;
pub mod space_laws;

pub use comments::{is_line_comment, remove_comment};
pub use due::{
    is_bare, seen_before, space_needed_after, space_needed_before, space_needed_between,
    space_needed_last, space_needed_past,
};
pub use jsonc_text::edit::{EditError, Over, Shape, TrailingCommaMode};
pub use paths::find;
pub use put::{Space, Spaces, make_spaces, put_spaces};
pub use reading::{is_spread, layout_for, layout_for_value};
pub use replacing::{put_in_place, replace, replace_name, replace_with, spaces_for};
pub use rows::{clear_row, set_between};
