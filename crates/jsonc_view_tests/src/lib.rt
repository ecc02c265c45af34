//! Tests of views: what is read of a text, deep texts, and memory that is refused.
#![tactic(auto)]

#[cfg(test)]
mod tests;
