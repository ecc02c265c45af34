//! Cases of the bench: questions about a text, each read from a line of words (`docs/proofs/BENCH.md`), and the
//! edits of cases, made on documents: in lists, on nodes, and of single leaves.
//!
//! [`make_step`] makes one edit. Nothing is proved of what it does, but that it is safe and returns: the
//! bench tests it.
#![tactic(auto)]

pub mod case;
pub mod edits;
pub mod error;
pub mod escape;
pub mod lookups;
mod paths;
mod raw;
mod refusal;
mod sorted;
mod steps;

pub use paths::push_children;
pub use refusal::Refusal;
pub use steps::make_step;
