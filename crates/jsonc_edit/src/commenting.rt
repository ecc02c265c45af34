//! Comments that are inserted.
//!
//! A comment is inserted above an entry, on a line of its own with the entry's indent
//! (`specs/commenting/Above.antt`), or after it on its line, after its comma
//! (`specs/commenting/Behind.antt`). All leaves are made first, which may be refused, and then inserted in
//! one step (`specs/commenting/Come.antt`), so an error leaves the document as it was.
//!
//! In a sound document whose options allow comments, where a whole comment is inserted ([`comment_kind`]),
//! the text is a document again, of the same value and with the same literals and comments but for this one
//! ([`laws`], `specs/commenting/Laws.antt`). A line comment is inserted after an entry only where its line
//! ends ([`may_end_line`]). [`insert_comment`] refuses what is no comment, no entry, or would take the
//! rest of a line (`specs/commenting/Inserting.antt`).

mod above;
mod behind;
mod come;
mod inserting;
pub mod laws;
mod whole;

pub use above::insert_comment_above;
pub use behind::{insert_comment_behind, may_end_line};
pub use inserting::{insert_comment, is_entry};
pub use whole::{CommentKind, comment_kind};
