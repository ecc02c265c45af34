//! The tests, and what they share.

mod depth;
mod patch_rows;
mod patches;
mod refusals;
mod rows;
mod runs;
mod streams;
