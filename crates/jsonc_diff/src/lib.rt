//! What has changed between two texts, by lines, in the unified format that `patch` and `git apply` read.
#![tactic(auto)]

mod hunks;
mod lines;
mod script;
mod unified;

pub use unified::unified_diff;
