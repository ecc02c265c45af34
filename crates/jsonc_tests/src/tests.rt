//! The tests, and what they share.

mod calls;
mod clones;
mod depth;
mod kinds;
mod lines;
mod maps;
mod nodes;
mod numbers;
mod printed;
mod ranges;
mod refusals;
mod streams;
mod texts;
mod tokens;
mod tree_copies;
mod unasked;
