//! The tests, and what they share.

mod findings;
mod lines;
mod memory;
mod whole;
