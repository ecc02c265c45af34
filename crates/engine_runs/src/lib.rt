//! Runs of the engine's commands, which crates of tests share: by their words, over a reader and a writer one of whose
//! calls fails, or with memory that is refused.
#![tactic(auto)]

use failing_alloc::awaited::{Awaited, prints};
use failing_alloc::outcome::Outcome;
use failing_alloc::streams::{Calls, Reader, Writer};
use jsonc_engine::calls::{FromReader, Sink, Source, ToWriter};
use jsonc_engine::command::Command;
use jsonc_engine::engine::engine;
use jsonc_engine::fault::Fault;
use jsonc_parser::cst::EditError;
use jsonc_parser::errors::{ParseError, ParseErrorKind};
use jsonc_parser::patch::{MergePatchError, PatchError};
use std::alloc::{Allocator, Global};

/// A run of the command that the words name.
pub fn run_by<A: Allocator + Copy, S: Source, K: Sink>(
    alloc: A,
    words: &[&str],
    source: &mut S,
    sink: &mut K,
) -> Result<(), Fault<A>> {
    match Command::from_words(words) {
        Some(command) => engine(alloc, command, source, sink),
        None => Err(Fault::Usage),
    }
}

/// What came of a run, and what was called in it.
#[derive(Drop)]
pub struct Course {
    pub ended: Result<(), Fault<Global>>,
    pub written: Vec<u8>,
    pub reads: Calls,
    /// How many reads the source has seen give nothing.
    pub empty_reads: u64,
    pub writes: Calls,
}

impl Course {
    /// Whether the run failed with the status 1 and this line.
    pub fn is_told(&self, line: &str) -> bool {
        match &self.ended {
            Ok(()) => false,
            Err(fault) => fault.status() == 1 && prints(fault, line),
        }
    }
}

/// A run of a command over a text, with so many reads and so many writes and flushes that succeed.
pub fn run(
    alloc: Global,
    words: &[&str],
    input: &'static [u8],
    reads: usize,
    writes: usize,
) -> Course {
    let mut source = FromReader::new(Reader {
        rest: input,
        calls: Calls::new(reads),
    });
    let mut sink = ToWriter::new(Writer {
        bytes: Vec::new(alloc),
        calls: Calls::new(writes),
    });
    let ended = run_by(alloc, words, &mut source, &mut sink);
    let FromReader { reader, empty, .. } = source;
    let ToWriter { writer, .. } = sink;
    Course {
        ended,
        written: writer.bytes,
        reads: reader.calls,
        empty_reads: empty,
        writes: writer.calls,
    }
}

fn wants_memory(error: &ParseError) -> bool {
    *error.kind() == ParseErrorKind::OutOfMemory
}

/// Whether a fault tells of memory alone.
pub fn is_of_memory<A: Allocator>(fault: &Fault<A>) -> bool {
    match fault {
        Fault::Edit(EditError::OutOfMemory) => prints(fault, "jsonc: Out of memory"),
        Fault::Input(error) | Fault::Path(error) | Fault::Argument(error) => wants_memory(error),
        Fault::Patch(PatchError::Parse(error)) => wants_memory(error),
        Fault::MergePatch(MergePatchError::Parse(error)) => wants_memory(error),
        _ => false,
    }
}

/// What came of a run that can succeed, and is to write this. Where memory is refused nothing is written.
pub fn outcome_of<A: Allocator + Copy>(
    heap: A,
    words: &[&str],
    input: &str,
    output: &str,
) -> Outcome {
    let mut source = FromReader::new(input.as_bytes());
    let mut sink = ToWriter::new(Awaited {
        rest: output.as_bytes(),
    });
    match run_by(heap, words, &mut source, &mut sink) {
        Ok(()) => Outcome::of(sink.writer.rest.is_empty()),
        Err(fault) if is_of_memory(&fault) && sink.writer.rest.len() == output.len() =>
            Outcome::Wanted,
        Err(_) => Outcome::Other,
    }
}
