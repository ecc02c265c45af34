//! The changes of blanks between a text and its formatted text.
//!
//! [`format_changes`] gives each gap that differs as a change of the text. An editor makes these changes in its buffer in place of the
//! whole text, so cursors and marks outside the gaps stay.
#![tactic(auto)]

mod changes;
pub mod laws;

pub use changes::format_changes;
