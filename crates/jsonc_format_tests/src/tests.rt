//! The tests.

mod changes;
mod rules;
