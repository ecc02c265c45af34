//! What the program `jsonc` does with the text of one input: the options of a dialect, what a call asks for, a command as
//! a change of a file, a string that is read without its quotes, and the lines of faults.
#![tactic(auto)]

pub mod argument;
pub mod change;
pub mod dialect;
pub mod edit;
pub mod formatting;
pub mod job;
pub mod layout;
pub mod lines;
pub mod mark;
pub mod mending;
pub mod operation;
pub mod place;
mod raw;
pub mod value;
pub mod way;
