//! Tests of formatted texts: each rule by its rows, and memory that is refused.
#![tactic(auto)]

#[cfg(test)]
mod tests;
