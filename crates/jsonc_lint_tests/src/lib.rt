//! Tests of the linter: what it finds, how that is printed, and memory that is refused.
#![tactic(auto)]

#[cfg(test)]
mod tests;
