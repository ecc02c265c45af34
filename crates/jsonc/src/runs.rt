//! Runs of a command on each of its inputs.
use crate::findings::{find_all, of_all, of_check, of_lint};
use crate::in_place::{WORDS, run_in_place};
use crate::inputs::{REFUSED, read_or_tell, text_of, write_out};
use crate::layouts::{check_format, show_diff};
use crate::mends::mend_to_output;
use crate::telling::{tell_cause, tell_json, tell_place};
use crate::work::{End, Work, ended, refuse};
use jsonc_engine::command::Command;
use jsonc_engine::engine::written_by;
use jsonc_engine::output::Written;
use jsonc_program::argument::{argument_of, check_argument};
use jsonc_program::dialect::options_of;
use jsonc_program::edit::{EditFault, edited};
use jsonc_program::formatting::laid_out;
use jsonc_program::job::{Job, job_of};
use jsonc_program::mark::split_mark;
use jsonc_program::value::value_text;
use jsonc_words::call::{Call, Input, Text};
use std::alloc::Global;

/// What the engine makes of an input. Where that is the input itself, it is not copied.
fn run_engine<'a>(
    work: &Work<'_>,
    command: Command<'_>,
    input: &'a [u8],
) -> Result<Option<Written<'a, Global>>, EditFault<Global>> {
    match written_by(work.rt.alloc(), &work.options, command, input) {
        Ok(written) => Ok(written),
        Err(fault) => Err(EditFault::Engine(fault)),
    }
}

/// What is written of an input.
fn made<'a>(
    work: &Work<'_>,
    input: &'a [u8],
) -> Result<Option<Written<'a, Global>>, EditFault<Global>> {
    match work.job {
        Job::Run(command) => run_engine(work, command, input),
        Job::Edit(edit) => match edited(work.rt.alloc(), &work.options, edit, input) {
            Ok(text) => Ok(Some(Written::Text(text))),
            Err(fault) => Err(fault),
        },
        Job::Get { place, is_raw } => {
            match value_text(work.rt.alloc(), &work.options, place, is_raw, input) {
                Ok(text) => Ok(Some(Written::Text(text))),
                Err(fault) => Err(fault),
            }
        }
        Job::Format { layout, .. } => {
            match laid_out(work.rt.alloc(), &work.options, &layout, input) {
                Ok(text) => Ok(Some(Written::Text(text))),
                Err(fault) => Err(fault),
            }
        }
        Job::Check | Job::CheckAll { .. } | Job::Lint { .. } | Job::Mend => Ok(None),
    }
}

/// Runs on an input, to standard output. A byte order mark stays before a document.
fn run_to_output(work: &Work<'_>, input: Input<'_>) -> End {
    let Some(bytes) = read_or_tell(work.rt, input) else {
        return ended(REFUSED);
    };
    let (mark, rest) = split_mark(&bytes);
    match made(work, rest) {
        Ok(Some(written)) => {
            let mark = if work.writes_document { mark } else { &[] };
            ended(write_out(work.rt, mark, written.as_str().as_bytes()))
        }
        Ok(None) => ended(0),
        Err(fault) => refuse(work, input, &fault, &bytes),
    }
}

/// Runs on one input.
fn run_one(work: &Work<'_>, input: Input<'_>) -> End {
    match input {
        Input::File(name) if work.in_place => run_in_place(work, name),
        _ => match work.job {
            Job::Format {
                layout,
                only_checks,
                shows_diff: true,
            } => show_diff(work, input, &layout, only_checks),
            Job::Format {
                layout,
                only_checks: true,
                ..
            } => check_format(work, input, &layout),
            Job::Mend => mend_to_output(work, input),
            _ => run_to_output(work, input),
        },
    }
}

/// Runs on each of these inputs, and answers the greatest status. A closed output ends it, and a fault of an argument.
fn run_all(work: &Work<'_>, files: &[Input<'_>]) -> u8 {
    let mut greatest = 0;
    for input in files {
        let end = run_one(work, *input);
        greatest = greatest.max(end.status);
        if end.is_last {
            return greatest;
        }
    }
    greatest
}

/// Does the work on the inputs of a call, and answers the status.
fn run_work(work: &Work<'_>, files: &[Input<'_>]) -> u8 {
    match work.job {
        Job::Check => find_all(work.rt, &work.options, of_check(), files),
        Job::CheckAll { format } => find_all(work.rt, &work.options, of_all(format), files),
        Job::Lint {
            format,
            no_trailing_commas,
        } => find_all(
            work.rt,
            &work.options,
            of_lint(format, no_trailing_commas),
            files,
        ),
        _ => run_all(work, files),
    }
}

/// Runs a call whose last argument has this text, and answers the status.
fn run_with_text(rt: &HostRuntime, call: &Call<'_>, source: Text<'_>, text: &str) -> u8 {
    let options = options_of(call.dialect);
    let job = match job_of(call.command, call.must_exist, text) {
        Ok(job) => job,
        Err(fault) => {
            tell_place(rt, fault.word);
            return WORDS;
        }
    };
    if let Err(error) = check_argument(rt.alloc(), &options, call.command, text) {
        tell_json(rt, source, error);
        return REFUSED;
    }
    let work = Work {
        rt,
        options,
        job,
        text,
        source,
        writes_document: call.command.writes_document(),
        in_place: call.in_place,
    };
    if call.files.is_empty() {
        run_work(&work, &[Input::Standard])
    } else {
        run_work(&work, &call.files)
    }
}

/// Runs the call, and answers the status. Where a word names no place nothing is read.
pub(crate) fn run_call(rt: &HostRuntime, call: &Call<'_>) -> u8 {
    if let Err(fault) = job_of(call.command, call.must_exist, "") {
        tell_place(rt, fault.word);
        return WORDS;
    }
    let source = match call.command.text() {
        Some(source) => source,
        None => Text::Word(""),
    };
    let Some(text) = text_of(rt, source) else {
        return REFUSED;
    };
    match argument_of(rt.alloc(), call.command, text) {
        Ok(text) => run_with_text(rt, call, source, text.as_str()),
        Err(_) => {
            tell_cause(rt, Input::Standard, "Out of memory");
            REFUSED
        }
    }
}
