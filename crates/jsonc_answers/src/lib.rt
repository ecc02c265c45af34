//! Answers cases: what this repository's calls say of a text.
//!
//! `docs/proofs/BENCH.md` has the forms of cases and answers.
#![tactic(auto)]

mod answer;
mod comments;
mod decoded;
mod document;
mod edited;
mod input;
mod lookup;
mod member;
mod mends;
mod program;
mod reading;
mod scanned;
mod show;
mod syntax;
mod value;
mod view;

use jsonc_cases::case::Case;
use jsonc_cases::error::CaseError;
use std::alloc::Global;

/// The line of an answer.
pub fn answer_line(alloc: Global, line: &[u8]) -> Result<String, CaseError> {
    let Ok(line) = str::from_utf8(line) else {
        return Err(CaseError::NotUtf8);
    };
    let case = Case::from_line(alloc, line)?;
    let Case { id, question } = case;
    let answer = answer::answer(alloc, question)?;
    let line = format!(in alloc; "{id}\t{answer}")?;
    Ok(line)
}
