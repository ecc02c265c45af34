//! Tests of edits: of the pieces of documents, of values and properties that come in, of arrays and objects on
//! several lines, of trailing commas and of sorts, of lists of edits, and of memory that is refused.
//!
//! `docs/proofs/BENCH.md` says what each test is of.
#![tactic(auto)]

#[cfg(test)]
mod tests;
