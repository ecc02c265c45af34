//! A linter of JSONC files: `example_lint [--no-trailing-commas] FILE..`.
//!
//! It prints a line for each finding, `FILE:LINE:COLUMN: ..`, in order of place: the fault of a
//! text that is no document; a name that an earlier property of its object has; a comment that says `TODO`; and,
//! where asked for, a trailing comma. The status is 1 where there is a finding, and 2 without files. It is 2 too where
//! a word is not UTF-8, and where memory ran out for a file: both are reported on standard error, the latter with the
//! file.
#![tactic(auto)]

use anyhow::anyhow;
use jsonc_lint::{Rules, lint, shown_name};
use jsonc_parser::ParseOptions;
use std::env::Env;
use std::io::{Eprint, ErrorKind};
use std::process::ExitCode;
use std::rt::Files;
use std::{env, fs};

const USAGE: &str = "usage: example_lint [--no-trailing-commas] FILE..";

/// Prints each finding of a text, and tells whether there is one.
fn lint_text<R: AllocGlobal + Print>(
    rt: &R,
    file: &str,
    text: &str,
    rules: Rules,
) -> anyhow::Result<bool> {
    let findings = lint(rt.alloc(), text, &ParseOptions::default(), rules)?;
    for finding in findings.iter() {
        println!(rt; "{}", finding.file_line(rt.alloc(), file)?)?;
    }
    Ok(!findings.is_empty())
}

/// Prints each finding of a file, and tells whether there is one. Places count without a byte order mark.
fn lint_file<R: Files + AllocGlobal + Print>(
    rt: &R,
    file: &str,
    rules: Rules,
) -> anyhow::Result<bool> {
    let text = match fs::read_to_string(rt, file) {
        Ok(text) => text,
        Err(error) if error.kind() == ErrorKind::InvalidData => {
            println!(rt;
                "{}:1:1: the file is not UTF-8",
                shown_name(rt.alloc(), file)?
            )?;
            return Ok(true);
        }
        Err(error) if error.kind() == ErrorKind::OutOfMemory => return Err(error.into()),
        Err(_) => {
            println!(rt;
                "{}:1:1: the file cannot be read",
                shown_name(rt.alloc(), file)?
            )?;
            return Ok(true);
        }
    };
    let text = text.as_str();
    let text = text.strip_prefix('\u{feff}').unwrap_or(text);
    lint_text(rt, file, text, rules)
}

/// Lints each file that the words name.
fn run<R: Files + AllocGlobal + Print + Eprint>(
    rt: &R,
    words: &[String],
) -> anyhow::Result<ExitCode> {
    let trailing_commas = words
        .iter()
        .any(|word| word.as_str() == "--no-trailing-commas");
    let rules = Rules { trailing_commas };
    let mut files = 0u64;
    let mut any = false;
    let mut failed = false;
    for word in words.iter() {
        if word.as_str() == "--no-trailing-commas" {
            continue;
        }
        files = files.saturating_add(1);
        match lint_file(rt, word.as_str(), rules) {
            Ok(found) => any |= found,
            Err(error) => {
                eprintln!(rt; "{word}: {error}")?;
                failed = true;
            }
        }
    }
    if files == 0 {
        eprintln!(rt; "{USAGE}")?;
        return Ok(ExitCode::from(2));
    }
    let status = if any { 1 } else { 0 };
    Ok(ExitCode::from(if failed { 2 } else { status }))
}

/// The words after the program's name.
fn words<R: Env + AllocGlobal>(rt: &R) -> anyhow::Result<Vec<String>> {
    match env::args(rt) {
        Ok(arguments) => Ok(arguments.skip(1).collect(rt.alloc())?),
        Err(error) if error.kind() == ErrorKind::InvalidData => {
            Err(anyhow!("the name of a file is not UTF-8"))
        }
        Err(error) => Err(error.into()),
    }
}

fn main(rt: HostRuntime) -> ExitCode {
    let ended = match words(&rt) {
        Ok(words) => run(&rt, words.as_slice()),
        Err(error) => Err(error),
    };
    match ended {
        Ok(status) => status,
        Err(error) => {
            // Where standard error fails too, the status alone tells.
            let _ = eprintln!(rt; "example_lint: {error}");
            ExitCode::from(2)
        }
    }
}
