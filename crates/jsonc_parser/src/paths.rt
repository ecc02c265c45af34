//! Settings: values at paths of names, which lead from an object to the value of its first property of a name, or of its
//! last.
//!
//! What is put there, and what is removed with a path, is said of plain values (`specs/paths/Settings.antt`); [`find_at`]
//! and [`read_at`] say what is there in a document, and [`reach`] how far names lead. [`set_at`],
//! [`set_last_at`] and [`remove_at`] put a value there, or remove it, by one edit of `jsonc_run` each
//! (`specs/paths/Calls.antt`).

mod find;
pub mod laws;
pub(crate) mod put;
mod reached;
pub(crate) mod which;

pub use find::{find_at, read_at};
pub use put::{remove_at, set_at, set_last_at};
pub use reached::{Reached, is_in_the_way, reach};
pub use which::Which;
