//! Tests of documents: what no clause says of typed nodes and of edits, and of memory that is refused.
//!
//! `docs/proofs/BENCH.md` says what each test is of.
#![tactic(auto)]

#[cfg(test)]
mod tests;
