//! Answers cases: what this repository's calls say of a text, one case a line in and one answer a line out.
//!
//! `docs/proofs/BENCH.md` has the forms of cases and answers.
#![tactic(auto)]

use jsonc_answers::answer_line;
use jsonc_cases::error::CaseError;
use std::alloc::{AllocError, Global};
use std::io;
use std::io::{BufWriter, Read, Write};
use std::process::ExitCode;

/// What stands in the place of an answer where the line with this number, counted from 1, is no case.
fn error_line(alloc: Global, number: u64, error: &CaseError) -> Result<String, AllocError> {
    format!(in alloc; "line {number} is no case: {error}")
}

/// Whether a line is passed over.
fn is_remark(line: &[u8]) -> bool {
    line.is_empty() || line.starts_with(b"%")
}

/// Answers each line of the input, and tells whether all of them were cases.
fn answer_all<W: Write>(alloc: Global, input: &[u8], out: &mut W) -> io::Result<bool> {
    let mut all = true;
    let mut number = 0u64;
    for line in input.split(|byte| *byte == b'\n') {
        number = number.saturating_add(1);
        if is_remark(line) {
            continue;
        }
        match answer_line(alloc, line) {
            Ok(answer) => writeln!(out, "{answer}")?,
            Err(error) => {
                all = false;
                let message = error_line(alloc, number, &error)?;
                writeln!(out, "{message}")?;
            }
        }
    }
    Ok(all)
}

fn run<R: AllocGlobal + Input + Print>(rt: &R) -> io::Result<bool> {
    let mut input = Vec::new(rt.alloc());
    rt.reader().read_to_end(&mut input)?;
    let mut out = BufWriter::new(rt.alloc(), io::writer(rt))?;
    let all = answer_all(rt.alloc(), input.as_slice(), &mut out)?;
    out.flush()?;
    Ok(all)
}

fn main(rt: HostRuntime) -> io::Result<ExitCode> {
    if run(&rt)? {
        return Ok(ExitCode::SUCCESS);
    }
    Ok(ExitCode::FAILURE)
}
