//! Runs on files, in their places.
use crate::inputs::REFUSED;
use crate::layouts::format_in_place;
use crate::mends::mend_in_place;
use crate::telling::{tell_file_error, tell_not_durable};
use crate::work::{End, Work, ended, refuse, told_bytes};
use jsonc_engine::fault::Fault;
use jsonc_files::{Edited, FileError, replace};
use jsonc_host::HostFolder;
use jsonc_program::change::Replacing;
use jsonc_program::edit::EditFault;
use jsonc_program::edit::editing::Editing;
use jsonc_program::job::Job;
use jsonc_words::call::Input;
use std::alloc::Global;

/// The status where the words name no call, or a file is none.
pub(crate) const WORDS: u8 = 2;

/// Tells why a file was not edited.
fn refuse_file(work: &Work<'_>, input: Input<'_>, error: &FileError) -> End {
    tell_file_error(work.rt, input, error);
    match error {
        FileError::NotAFile => ended(WORDS),
        _ => ended(REFUSED),
    }
}

/// Tells of a fault in the text of a file that was not edited.
fn refuse_text(work: &Work<'_>, input: Input<'_>, fault: &EditFault<Global>) -> End {
    match told_bytes(work, input) {
        Some(bytes) => refuse(work, input, fault, &bytes),
        None => refuse(work, input, fault, &[]),
    }
}

/// Ends a run on a file in its place.
pub(crate) fn end_in_place(
    work: &Work<'_>,
    input: Input<'_>,
    edited: Result<Edited, jsonc_files::Fault<EditFault<Global>>>,
) -> End {
    match edited {
        Ok(_) => ended(0),
        Err(jsonc_files::Fault::Refused(fault)) => refuse_text(work, input, &fault),
        Err(jsonc_files::Fault::File(error)) => refuse_file(work, input, &error),
        Err(jsonc_files::Fault::NotDurable(error)) => {
            tell_not_durable(work.rt, input, &error);
            ended(REFUSED)
        }
    }
}

/// The same outcome with the engine's fault as one of edits.
fn of_edits(
    replaced: Result<Edited, jsonc_files::Fault<Fault<Global>>>,
) -> Result<Edited, jsonc_files::Fault<EditFault<Global>>> {
    match replaced {
        Ok(edited) => Ok(edited),
        Err(jsonc_files::Fault::Refused(fault)) => {
            Err(jsonc_files::Fault::Refused(EditFault::Engine(fault)))
        }
        Err(jsonc_files::Fault::File(error)) => Err(jsonc_files::Fault::File(error)),
        Err(jsonc_files::Fault::NotDurable(error)) => Err(jsonc_files::Fault::NotDurable(error)),
    }
}

/// Runs on a file, in its place.
pub(crate) fn run_in_place(work: &Work<'_>, name: &str) -> End {
    let alloc = work.rt.alloc();
    let options = work.options.copied();
    let mut folder = HostFolder::new(work.rt, name);
    match work.job {
        Job::Run(command) => {
            let mut change = Replacing {
                alloc,
                options,
                command,
            };
            let replaced = replace(alloc, &mut folder, &mut change);
            end_in_place(work, Input::File(name), of_edits(replaced))
        }
        Job::Edit(edit) => {
            let mut change = Editing {
                alloc,
                options,
                edit,
            };
            let replaced = replace(alloc, &mut folder, &mut change);
            end_in_place(work, Input::File(name), replaced)
        }
        Job::Format { layout, .. } => format_in_place(work, name, layout),
        Job::Mend => mend_in_place(work, name),
        Job::Get { .. } | Job::Check | Job::CheckAll { .. } | Job::Lint { .. } => ended(WORDS),
    }
}
