//! Replaces the text of a file so that a crash at any moment leaves the old text or the new one, whole.
#![tactic(auto)]

mod change;
mod edit;
mod fault;
mod folder;
mod mode;
pub mod record;

pub use change::Change;
pub use edit::{Edited, replace};
pub use fault::{Fault, FileError};
pub use folder::{Folder, Owners};
pub use mode::fitting_mode;
