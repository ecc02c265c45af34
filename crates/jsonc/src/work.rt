//! What is made of each input, and what is told where it is refused.
use crate::inputs::{CLOSED, read_input};
use crate::telling::{tell_argument, tell_cause, tell_fault, tell_not_utf8};
use jsonc_engine::command::Command;
use jsonc_engine::fault::Fault;
use jsonc_parser::ParseOptions;
use jsonc_program::edit::EditFault;
use jsonc_program::job::Job;
use jsonc_program::mark::split_mark;
use jsonc_program::operation::told_of_patch;
use jsonc_program::way::told_of_way;
use jsonc_words::call::{Input, Text};
use std::alloc::Global;

/// What is made of each input.
#[derive(Drop)]
pub(crate) struct Work<'a> {
    pub rt: &'a HostRuntime,
    pub options: ParseOptions,
    pub job: Job<'a>,
    /// The text of the command's last argument, as the command takes it.
    pub text: &'a str,
    /// Where that text is from.
    pub source: Text<'a>,
    pub writes_document: bool,
    pub in_place: bool,
}

/// How a run on one input ended: with this status, and whether the other inputs are left alone.
#[derive(Clone, Copy)]
pub(crate) struct End {
    pub status: u8,
    pub is_last: bool,
}

/// The end of a run on one input that has this status.
pub(crate) fn ended(status: u8) -> End {
    End {
        status,
        is_last: status == CLOSED,
    }
}

/// The bytes of an input after a byte order mark, as they were read, or are read again.
pub(crate) fn told_bytes(work: &Work<'_>, input: Input<'_>) -> Option<Vec<u8>> {
    match input {
        Input::File(_) => read_input(work.rt, input).ok(),
        Input::Standard => None,
    }
}

/// Tells of an operation that was not made.
fn tell_operation(
    work: &Work<'_>,
    input: Input<'_>,
    fault: &EditFault<Global>,
    of_engine: &Fault<Global>,
    bytes: &[u8],
) {
    let (_, rest) = split_mark(bytes);
    match told_of_patch(work.rt.alloc(), &work.options, work.text, rest, of_engine) {
        Ok(Some(told)) => tell_cause(work.rt, input, told.as_str()),
        _ => tell_fault(work.rt, input, fault),
    }
}

/// Tells of a value in the way of a path of names.
fn tell_way(work: &Work<'_>, input: Input<'_>, fault: &EditFault<Global>, bytes: &[u8]) {
    let Job::Run(Command::Put { names, .. }) = work.job else {
        tell_fault(work.rt, input, fault);
        return;
    };
    let (_, rest) = split_mark(bytes);
    match told_of_way(work.rt.alloc(), &work.options, names, rest) {
        Ok(Some(told)) => tell_cause(work.rt, input, told.as_str()),
        _ => tell_fault(work.rt, input, fault),
    }
}

/// Tells of a fault in the text of an input, of which these are the bytes.
fn tell_of_input(work: &Work<'_>, input: Input<'_>, fault: &EditFault<Global>, bytes: &[u8]) {
    match fault {
        EditFault::Engine(Fault::NotUtf8) => {
            let (_, rest) = split_mark(bytes);
            tell_not_utf8(work.rt, input, rest);
        }
        EditFault::Engine(Fault::OnTheWay) => tell_way(work, input, fault, bytes),
        EditFault::Engine(of_engine) => tell_operation(work, input, fault, of_engine, bytes),
        _ => tell_fault(work.rt, input, fault),
    }
}

/// The status of a fault.
fn status_of(fault: &EditFault<Global>) -> u8 {
    match fault {
        EditFault::Engine(Fault::NoSetting) => 3,
        _ => fault.status(),
    }
}

/// Tells of a fault, of an argument or of the text of an input, of which these are the bytes. A fault of an argument is
/// one of every input.
pub(crate) fn refuse(
    work: &Work<'_>,
    input: Input<'_>,
    fault: &EditFault<Global>,
    bytes: &[u8],
) -> End {
    let status = status_of(fault);
    let is_last = true;
    match fault {
        EditFault::Engine(Fault::Path(_) | Fault::NotNames | Fault::Pointer(_)) => {
            tell_fault(work.rt, Input::Standard, fault);
            End { status, is_last }
        }
        EditFault::Engine(
            argument @ (Fault::Argument(_)
            | Fault::NoValue
            | Fault::Patch(_)
            | Fault::MergePatch(_)),
        ) => {
            tell_argument(work.rt, work.source, argument);
            End { status, is_last }
        }
        _ => {
            tell_of_input(work, input, fault, bytes);
            ended(status)
        }
    }
}
