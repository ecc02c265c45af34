//! The command line of the program `jsonc`: from the process's arguments to the command that they ask for, with its
//! options and files, or to what is printed in place of a run, as help or a mistake in the words.
#![tactic(auto)]

pub mod arguments;
mod builder;
pub mod call;
pub mod name;
mod options;
mod reader;
mod reply;
mod rules;
mod words;

pub use reply::Reply;
pub use words::read_words;
