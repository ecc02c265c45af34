//! What `lint` finds, the fault of `check` as JSON, and the faults of `check --all`.
use crate::inputs::{CLOSED, REFUSED, name_of, read_or_tell, text_or_tell, write_out};
use crate::mends::push_mends;
use crate::telling::tell_cause;
use jsonc_lint::{Finding, Findings, Rules, fault_finding, json_array, lint_all, mend_findings};
use jsonc_mends::mend;
use jsonc_parser::{ParseOptions, check_document};
use jsonc_words::call::{Format, Input};
use std::alloc::{AllocError, Global};

/// What is looked for.
#[derive(Clone, Copy)]
enum Aim {
    /// The fault that reading stops with.
    First,
    /// All faults, as JSON each with its change.
    All,
    /// All faults, and what the rules say.
    Lint(Rules),
}

/// What is looked for, and how it is written.
#[derive(Clone, Copy)]
pub(crate) struct Search {
    aim: Aim,
    is_json: bool,
}

/// The search of `check` that writes JSON.
pub(crate) fn of_check() -> Search {
    Search {
        aim: Aim::First,
        is_json: true,
    }
}

/// The search of `check --all`.
pub(crate) fn of_all(format: Format) -> Search {
    Search {
        aim: Aim::All,
        is_json: matches!(format, Format::Json),
    }
}

/// The search of `lint`.
pub(crate) fn of_lint(format: Format, trailing_commas: bool) -> Search {
    Search {
        aim: Aim::Lint(Rules { trailing_commas }),
        is_json: matches!(format, Format::Json),
    }
}

/// The fault that reading a text stops with, as what is found.
fn first_fault(
    rt: &HostRuntime,
    options: &ParseOptions,
    text: &str,
) -> Result<Findings<Global>, AllocError> {
    let mut found = Vec::new(rt.alloc());
    if let Err(error) = check_document(rt.alloc(), text, options) {
        found.push(fault_finding(&error))?;
    }
    Ok(found)
}

/// What is found in a text.
fn found_in(
    rt: &HostRuntime,
    options: &ParseOptions,
    aim: Aim,
    text: &str,
) -> Result<Findings<Global>, AllocError> {
    match aim {
        Aim::First => first_fault(rt, options, text),
        Aim::All => mend_findings(rt.alloc(), mend(rt.alloc(), text, options)?.list()),
        Aim::Lint(rules) => lint_all(rt.alloc(), text, options, rules),
    }
}

/// The line of a finding, without its end.
pub(crate) fn finding_line(
    rt: &HostRuntime,
    input: Input<'_>,
    finding: &Finding<Global>,
) -> Result<String, AllocError> {
    match input {
        Input::File(name) => finding.file_line(rt.alloc(), name),
        Input::Standard => format!(in rt.alloc(); "{}:{}: {finding}", finding.line, finding.column),
    }
}

/// The lines of findings.
fn lines_of(
    rt: &HostRuntime,
    input: Input<'_>,
    found: &[Finding<Global>],
) -> Result<String, AllocError> {
    let mut lines = String::new(rt.alloc());
    for finding in found {
        let line = finding_line(rt, input, finding)?;
        lines.push_str(line.as_str())?;
        lines.push_str("\n")?;
    }
    Ok(lines)
}

/// Adds what is found in a text as objects of JSON.
fn push_objects(
    rt: &HostRuntime,
    options: &ParseOptions,
    aim: Aim,
    input: Input<'_>,
    text: &str,
    objects: &mut Vec<String>,
) -> Result<(), AllocError> {
    if let Aim::All = aim {
        return push_mends(rt, input, &mend(rt.alloc(), text, options)?, objects);
    }
    for finding in found_in(rt, options, aim, text)?.iter() {
        objects.push(finding.to_json(rt.alloc(), name_of(input))?)?;
    }
    Ok(())
}

/// Finds what is in one text, writes it or adds it to the objects, and answers the status.
fn find_in(
    rt: &HostRuntime,
    options: &ParseOptions,
    search: Search,
    input: Input<'_>,
    text: &str,
    objects: &mut Vec<String>,
) -> Result<u8, AllocError> {
    // `mend` copies a text without a fault, and the check does not.
    if matches!(search.aim, Aim::All) && check_document(rt.alloc(), text, options).is_ok() {
        return Ok(0);
    }
    if search.is_json {
        let before = objects.len();
        push_objects(rt, options, search.aim, input, text, objects)?;
        return Ok(if objects.len() > before { REFUSED } else { 0 });
    }
    let found = found_in(rt, options, search.aim, text)?;
    if found.is_empty() {
        return Ok(0);
    }
    let lines = lines_of(rt, input, &found)?;
    let status = write_out(rt, &[], lines.as_str().as_bytes());
    Ok(status.max(REFUSED))
}

/// Finds what is in one input, and answers the status.
fn find_one(
    rt: &HostRuntime,
    options: &ParseOptions,
    search: Search,
    input: Input<'_>,
    objects: &mut Vec<String>,
) -> u8 {
    let Some(bytes) = read_or_tell(rt, input) else {
        return REFUSED;
    };
    let Some(text) = text_or_tell(rt, input, &bytes) else {
        return REFUSED;
    };
    match find_in(rt, options, search, input, text, objects) {
        Ok(status) => status,
        Err(_) => {
            tell_cause(rt, input, "Out of memory");
            REFUSED
        }
    }
}

/// Writes the objects as one array, and answers the status.
fn write_objects(rt: &HostRuntime, objects: &[String]) -> u8 {
    match json_array(rt.alloc(), objects) {
        Ok(text) => write_out(rt, &[], text.as_str().as_bytes()),
        Err(_) => {
            tell_cause(rt, Input::Standard, "Out of memory");
            REFUSED
        }
    }
}

/// Finds what is in each of these inputs, and answers the greatest status. A closed output ends it.
pub(crate) fn find_all(
    rt: &HostRuntime,
    options: &ParseOptions,
    search: Search,
    files: &[Input<'_>],
) -> u8 {
    let mut greatest = 0;
    let mut objects = Vec::new(rt.alloc());
    for input in files {
        greatest = greatest.max(find_one(rt, options, search, *input, &mut objects));
        if greatest == CLOSED {
            return CLOSED;
        }
    }
    if search.is_json {
        greatest = greatest.max(write_objects(rt, &objects));
    }
    greatest
}
