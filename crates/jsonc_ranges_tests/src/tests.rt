//! The tests.

mod edits;
