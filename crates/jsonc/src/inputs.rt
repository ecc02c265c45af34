//! Files and standard input, the texts of arguments, and standard output.
use crate::telling::{tell_cause, tell_not_utf8, tell_unread};
use jsonc_program::mark::split_mark;
use jsonc_words::call::{Input, Text};
use std::io::{ErrorKind, Read, Write};
use std::{fs, io, str};

/// The status of what was refused.
pub(crate) const REFUSED: u8 = 1;
/// The status where standard output was closed, as of a process that SIGPIPE ended.
pub(crate) const CLOSED: u8 = 141;

/// The name of an input, as JSON has it.
pub(crate) fn name_of<'a>(input: Input<'a>) -> &'a str {
    match input {
        Input::File(name) => name,
        Input::Standard => "-",
    }
}

/// All bytes of an input.
pub(crate) fn read_input(rt: &HostRuntime, input: Input<'_>) -> io::Result<Vec<u8>> {
    match input {
        Input::File(name) => fs::read(rt, name),
        Input::Standard => {
            let mut bytes = Vec::new(rt.alloc());
            rt.reader().read_to_end(&mut bytes)?;
            Ok(bytes)
        }
    }
}

/// All bytes of an input. Where it cannot be read, that has been told.
pub(crate) fn read_or_tell(rt: &HostRuntime, input: Input<'_>) -> Option<Vec<u8>> {
    match read_input(rt, input) {
        Ok(bytes) => Some(bytes),
        Err(error) => {
            tell_unread(rt, input, &error);
            None
        }
    }
}

/// The text of bytes after a byte order mark. Where they are not UTF-8, that has been told.
pub(crate) fn text_or_tell<'a>(
    rt: &HostRuntime,
    input: Input<'_>,
    bytes: &'a [u8],
) -> Option<&'a str> {
    let (_, rest) = split_mark(bytes);
    match str::from_utf8(rest) {
        Ok(text) => Some(text),
        Err(_) => {
            tell_not_utf8(rt, input, rest);
            None
        }
    }
}

/// A text of its own. Where memory is refused, that has been told.
fn own(rt: &HostRuntime, text: &str) -> Option<String> {
    match String::from_str(rt.alloc(), text) {
        Ok(own) => Some(own),
        Err(_) => {
            tell_cause(rt, Input::Standard, "Out of memory");
            None
        }
    }
}

/// The text of an argument: the word itself, or what the input has after a byte order mark. Where there is none, what
/// is wrong has been told.
pub(crate) fn text_of(rt: &HostRuntime, text: Text<'_>) -> Option<String> {
    match text {
        Text::Word(word) => own(rt, word),
        Text::In(input) => {
            let bytes = read_or_tell(rt, input)?;
            own(rt, text_or_tell(rt, input, &bytes)?)
        }
    }
}

/// Writes to standard output, and answers the status.
pub(crate) fn write_out(rt: &HostRuntime, mark: &[u8], text: &[u8]) -> u8 {
    let mut writer = io::writer(rt);
    let outcome = match writer.write_all(mark) {
        Ok(()) => writer.write_all(text),
        Err(error) => Err(error),
    };
    match outcome {
        Ok(()) => 0,
        Err(error) if error.kind() == ErrorKind::BrokenPipe => CLOSED,
        Err(_) => {
            tell_cause(rt, Input::Standard, "write failed");
            REFUSED
        }
    }
}
