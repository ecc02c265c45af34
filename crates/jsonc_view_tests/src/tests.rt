//! The tests.

mod memory;
mod reads;
mod texts;
