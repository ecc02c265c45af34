//! Elements that leave an array, an object or the root.
//!
//! With an element go whitespace and comments directly before it, and after it the comma, with what
//! stands between, or the rest of its line; where no comma stands after it, the nearest one before it
//! goes (`specs/remove/Leaving.antt`). [`remove`] takes all that out; where two literals without quotes would come
//! to stand directly beside each other, a space is inserted between them, and its memory is asked for before
//! anything changes (`specs/remove/Removed.antt`).

mod brackets;
mod comments;
pub mod laws;
mod leaving;
mod removing;

pub use brackets::has_brackets;
pub use comments::clear_comments;
pub use removing::remove;
