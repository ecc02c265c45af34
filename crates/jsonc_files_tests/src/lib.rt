//! Tests of `jsonc_files` on a folder in memory, whose calls fail in turn, and which a crash may stop at any of them.
#![tactic(auto)]

#[cfg(test)]
mod tests;
