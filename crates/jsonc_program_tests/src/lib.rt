//! Tests of what the program does beyond the engine: its edits, layouts, mends and diffs, and memory that is refused.
#![tactic(auto)]

#[cfg(test)]
mod tests;
