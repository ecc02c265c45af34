//! Tests of the edits of documents as changes of their texts, by rows, with memory that is refused.
#![tactic(auto)]

#[cfg(test)]
mod tests;
