//! Tests of reading: what no clause says of texts, values, maps and trees, of what is printed, of memory that is
//! refused, and of streams that fail.
//!
//! `docs/proofs/BENCH.md` says what each test is of.
#![tactic(auto)]

#[cfg(test)]
mod tests;
