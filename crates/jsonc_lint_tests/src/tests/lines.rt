//! The lines of findings, and findings as JSON.

use failing_alloc::outcome::Outcome;
use jsonc_lint::{Findings, Rules, fault_finding, json_array, lint, shown_name};
use jsonc_parser::{ParseOptions, check_document};
use std::alloc::{AllocError, Allocator};
use std::fmt::Write;
use std::test::Fail;

/// What the findings of a text are printed as.
#[derive(Clone, Copy, Debug, PartialEq, Eq, Drop)]
pub enum Form {
    /// The lines of a file.
    File,
    /// The lines of standard input.
    Input,
    /// An array of JSON.
    Json,
}

const TEXT: &str = "{\"a\": [1,], \"a\": /*TODO*/ 2}";

const FILE: &str =
    "a\"b.jsonc:1:9: Trailing comma\na\"b.jsonc:1:13: Name stands twice: \"a\", first on line 1 column 2\na\"b.jsonc:1:18: Comment says TODO\n";

const INPUT: &str =
    "Trailing comma on line 1 column 9\nName stands twice: \"a\" on line 1 column 13, first on line 1 column 2\nComment says TODO on line 1 column 18\n";

const JSON: &str =
    "[{\"file\":\"a\\\"b.jsonc\",\"line\":1,\"column\":9,\"start\":8,\"end\":9,\"kind\":\"trailing-comma\",\"message\":\"Trailing comma\"},\n{\"file\":\"a\\\"b.jsonc\",\"line\":1,\"column\":13,\"start\":12,\"end\":27,\"kind\":\"repeated-name\",\"message\":\"Name stands twice: \\\"a\\\", first on line 1 column 2\"},\n{\"file\":\"a\\\"b.jsonc\",\"line\":1,\"column\":18,\"start\":17,\"end\":25,\"kind\":\"todo\",\"message\":\"Comment says TODO\"}]\n";

/// The findings in a form, of a file with a quote in its name.
fn printed<A: Allocator + Copy>(
    heap: A,
    findings: &Findings<A>,
    form: Form,
) -> Result<String<A>, AllocError> {
    let mut lines = String::new(heap);
    let mut objects = Vec::new(heap);
    for finding in findings.iter() {
        match form {
            Form::File => write!(lines, "{}\n", finding.file_line(heap, "a\"b.jsonc")?)?,
            Form::Input => write!(lines, "{}\n", finding.input_line(heap)?)?,
            Form::Json => objects.push(finding.to_json(heap, "a\"b.jsonc")?)?,
        }
    }
    match form {
        Form::Json => json_array(heap, objects.as_slice()),
        _ => Ok(lines),
    }
}

/// Whether the findings of a text are printed in a form as these lines.
fn are_printed<A: Allocator + Copy>(
    heap: A,
    text: &str,
    form: Form,
    lines: &str,
) -> Result<bool, AllocError> {
    let rules = Rules {
        trailing_commas: true,
    };
    let findings = lint(heap, text, &ParseOptions::default(), rules)?;
    Ok(printed(heap, &findings, form)?.as_str() == lines)
}

/// What came of printing findings in a form.
pub fn outcome_of_lines<A: Allocator + Copy>(heap: A, form: Form) -> Outcome {
    let lines = match form {
        Form::File => FILE,
        Form::Input => INPUT,
        Form::Json => JSON,
    };
    match are_printed(heap, TEXT, form, lines) {
        Ok(are) => Outcome::of(are),
        Err(error) => Outcome::from(error),
    }
}

#[test]
fn findings_are_lines(rt: HostRuntime) -> Result<(), Fail> {
    assert!(rt; outcome_of_lines(rt.alloc(), Form::File) == Outcome::Answered);
    assert!(rt; outcome_of_lines(rt.alloc(), Form::Input) == Outcome::Answered);
    Ok(())
}

#[test]
fn findings_are_objects_of_json(rt: HostRuntime) -> Result<(), Fail> {
    assert!(rt; outcome_of_lines(rt.alloc(), Form::Json) == Outcome::Answered);
    assert!(rt; are_printed(rt.alloc(), "{}", Form::Json, "[]\n") == Ok(true));
    Ok(())
}

/// The line of the fault of a text that the check refuses.
fn fault_line<A: Allocator + Copy>(heap: A, text: &str) -> Result<String<A>, AllocError> {
    match check_document(heap, text, &ParseOptions::json()) {
        Ok(()) => Ok(String::new(heap)),
        Err(fault) => fault_finding::<A>(&fault).input_line(heap),
    }
}

#[test]
fn faults_are_findings(rt: HostRuntime) -> Result<(), Fail> {
    let line = fault_line(rt.alloc(), "[1 // one\n]");
    let outcome = Outcome::of_text(line, "Comments are not allowed on line 1 column 4");
    assert!(rt; outcome == Outcome::Answered);
    Ok(())
}

/// Names of files, each with what lines show of it.
const NAMES: [(&str, &str); 4] = [
    ("a b.json", "a b.json"),
    ("c:\\d.json", "c:\\d.json"),
    ("a\n\u{1b}.json", "\"a\\n\\u001b.json\""),
    ("", ""),
];

#[test]
fn names_are_shown_on_one_line(rt: HostRuntime) -> Result<(), Fail> {
    for (name, shown) in NAMES.iter() {
        let outcome = Outcome::of_text(shown_name(rt.alloc(), name), shown);
        assert!(rt; outcome == Outcome::Answered, "{shown}");
    }
    Ok(())
}
