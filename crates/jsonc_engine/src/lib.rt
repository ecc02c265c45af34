//! One run of the program `jsonc`, over any source and sink: the bytes that are read, the command that is asked for, and
//! the bytes that are written or the fault that is printed.
#![tactic(auto)]

pub mod argument;
pub mod calls;
pub mod command;
mod edit;
pub mod engine;
pub mod fault;
mod find;
pub mod json;
pub mod laws;
pub mod output;
mod patching;
mod settings;
mod sort;
mod task;

pub use sort::{sort_object, written_name};
