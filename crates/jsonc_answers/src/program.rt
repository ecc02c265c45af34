//! A run of the program.

use jsonc_cases::escape::Escaped;
use jsonc_engine::calls::{FromReader, ToWriter};
use jsonc_engine::command::Command;
use jsonc_engine::engine::{engine, run_with};
use jsonc_engine::fault::Fault;
use jsonc_parser::ParseOptions;
use std::alloc::{AllocError, Global};

fn lent(alloc: Global, words: &[String]) -> Result<Vec<&str>, AllocError> {
    let mut lent = Vec::new(alloc);
    for word in words {
        lent.push(word.as_str())?;
    }
    Ok(lent)
}

/// The status of a run, what it writes and the line that it prints.
pub fn outcome(alloc: Global, words: &[String], input: &[u8]) -> Result<String, AllocError> {
    let words = lent(alloc, words)?;
    let mut source = FromReader::new(input);
    let mut sink = ToWriter::new(Vec::new(alloc));
    let result = match Command::from_words(words.as_slice()) {
        Some(command) => engine(alloc, command, &mut source, &mut sink),
        None => Err(Fault::Usage),
    };
    let ToWriter { writer, .. } = sink;
    let written = Escaped::field(writer.as_slice());
    match result {
        Ok(()) => format!(in alloc; "0\t{written}\t"),
        Err(fault) => told(alloc, &written, &fault),
    }
}

/// What printing the input under some options does, as a run of the program that prints it.
pub fn printed(alloc: Global, options: &ParseOptions, input: &[u8]) -> Result<String, AllocError> {
    match run_with(alloc, options, Command::Print, input) {
        Ok(Some(text)) => {
            let written = Escaped::field(text.as_bytes());
            format!(in alloc; "0\t{written}\t")
        }
        Ok(None) => String::from_str(alloc, "nothing is printed"),
        Err(fault) => told(alloc, &Escaped::field(b""), &fault),
    }
}

/// The status of a run that fails, what it wrote and the line that it prints.
fn told(alloc: Global, written: &Escaped<'_>, fault: &Fault<Global>) -> Result<String, AllocError> {
    let status = fault.status();
    let line = format!(in alloc; "{fault}\n")?;
    let line = Escaped::field(line.as_bytes());
    format!(in alloc; "{status}\t{written}\t{line}")
}
