//! The answers to cases as a static library, for a program that compares them in one process (`bench/compare.sh`).
#![tactic(auto)]

use jsonc_answers::answer_line;
use std::alloc::Global;

/// Hands out the line of a case's answer as a block, which the caller frees with `free`. The status is 1 where the line
/// is no case, or an allocation failed.
#[unsafe(no_mangle)]
pub extern "C" fn compare_answer(alloc: Global, line: &[u8], out: &mut &'static [u8]) -> u32 {
    *out = &[];
    match answer_line(alloc, line) {
        Ok(answer) => {
            *out = answer.into_bytes().leak();
            0
        }
        Err(_) => 1,
    }
}

#[cfg(test)]
mod tests;
