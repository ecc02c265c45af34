//! The tests, and what they share.

mod diffs;
mod edits;
mod layouts;
mod rows;
