//! Tests of mends: what the changes make of texts with faults, and memory that is refused.
#![tactic(auto)]

#[cfg(test)]
mod tests;
