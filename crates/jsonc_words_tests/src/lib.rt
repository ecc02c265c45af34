//! Tests of the program's words: which call they ask for, and what is told of words that ask for none.
#![tactic(auto)]

#[cfg(test)]
mod tests;
