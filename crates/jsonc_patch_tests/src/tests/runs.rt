//! What runs write, and what they tell.

use crate::tests::rows::{TOLD, WRITTEN};
use engine_runs::run_by;
use failing_alloc::awaited::{Awaited, prints};
use jsonc_engine::calls::{FromReader, ToWriter};
use jsonc_engine::command::Command;
use jsonc_engine::engine::run_on;
use jsonc_engine::fault::Fault;
use std::alloc::Global;
use std::test::Fail;

#[test]
fn each_run_writes_what_its_row_says(rt: HostRuntime) -> Result<(), Fail> {
    for (words, input, output) in &WRITTEN {
        let mut source = FromReader::new(input.as_bytes());
        let mut sink = ToWriter::new(Awaited {
            rest: output.as_bytes(),
        });
        let ended = run_by(rt.alloc(), words, &mut source, &mut sink);
        assert!(rt;
            ended.is_ok() && sink.writer.rest.is_empty(),
            "{words:?} {input:?}"
        );
    }
    Ok(())
}

/// What a command makes of an input.
fn made(alloc: Global, words: &[&str], input: &[u8]) -> Result<Option<String>, Fault<Global>> {
    match Command::from_words(words) {
        Some(command) => run_on(alloc, command, input),
        None => Err(Fault::Usage),
    }
}

/// The text that a run wrote, where it wrote one.
fn text_made(alloc: Global, words: &[&str], input: &[u8]) -> Option<String> {
    match made(alloc, words, input) {
        Ok(written) => written,
        Err(_fault) => None,
    }
}

#[test]
fn each_command_makes_what_its_row_says(rt: HostRuntime) -> Result<(), Fail> {
    for (words, input, output) in &WRITTEN {
        let is_made = match text_made(rt.alloc(), words, input.as_bytes()) {
            Some(text) => text.as_str() == *output,
            None => false,
        };
        assert!(rt; is_made, "{words:?} {input:?}");
    }
    Ok(())
}

#[test]
fn each_fault_is_told_with_its_status(rt: HostRuntime) -> Result<(), Fail> {
    for (words, input, line, status) in &TOLD {
        let mut source = FromReader::new(input.as_bytes());
        let mut sink = ToWriter::new(Awaited { rest: b"" });
        let is_told = match run_by(rt.alloc(), words, &mut source, &mut sink) {
            Ok(()) => false,
            Err(fault) => prints(&fault, line) && fault.status() == *status,
        };
        assert!(rt; is_told, "{words:?} {input:?}");
    }
    Ok(())
}

#[test]
fn bytes_that_are_no_text_are_told(rt: HostRuntime) -> Result<(), Fail> {
    for words in [
        ["get", ""].as_slice(),
        ["patch", "[]"].as_slice(),
        ["merge", "1"].as_slice(),
        ["json"].as_slice(),
    ] {
        let is_told = match made(rt.alloc(), words, b"[\xFF]") {
            Ok(_) => false,
            Err(fault) => prints(&fault, "jsonc: input is not UTF-8"),
        };
        assert!(rt; is_told, "{words:?}");
    }
    Ok(())
}
