//! Runs of `format`.
use crate::in_place::end_in_place;
use crate::inputs::{REFUSED, read_or_tell, write_out};
use crate::telling::tell_cause;
use crate::work::{End, Work, ended, refuse};
use jsonc_files::replace;
use jsonc_host::HostFolder;
use jsonc_lint::shown_name;
use jsonc_program::formatting::{Formatting, format_diff, laid_out};
use jsonc_program::layout::Layout;
use jsonc_program::mark::split_mark;
use jsonc_words::call::Input;
use std::alloc::AllocError;

/// The name of an input as it is shown.
fn name_of(rt: &HostRuntime, input: Input<'_>) -> Result<String, AllocError> {
    match input {
        Input::File(name) => shown_name(rt.alloc(), name),
        Input::Standard => String::from_str(rt.alloc(), "-"),
    }
}

fn name_line(rt: &HostRuntime, input: Input<'_>) -> Result<String, AllocError> {
    let name = name_of(rt, input)?;
    format!(in rt.alloc(); "{name}\n")
}

/// Tells that memory was refused, and answers the status.
fn lack_memory(rt: &HostRuntime, input: Input<'_>) -> u8 {
    tell_cause(rt, input, "Out of memory");
    REFUSED
}

/// Writes the name of an input, and answers the status.
fn name_input(rt: &HostRuntime, input: Input<'_>) -> u8 {
    match name_line(rt, input) {
        Ok(line) => write_out(rt, &[], line.as_str().as_bytes()),
        Err(_) => lack_memory(rt, input),
    }
}

/// Names an input that would change if it were formatted.
pub(crate) fn check_format(work: &Work<'_>, input: Input<'_>, layout: &Layout) -> End {
    let Some(bytes) = read_or_tell(work.rt, input) else {
        return ended(REFUSED);
    };
    let (_, rest) = split_mark(&bytes);
    match laid_out(work.rt.alloc(), &work.options, layout, rest) {
        Ok(text) => {
            if text.as_str().as_bytes() == rest {
                return ended(0);
            }
            ended(name_input(work.rt, input).max(REFUSED))
        }
        Err(fault) => refuse(work, input, &fault, &bytes),
    }
}

/// Writes what would change in an input if it were formatted. Where it is checked, a change has its status.
pub(crate) fn show_diff(
    work: &Work<'_>,
    input: Input<'_>,
    layout: &Layout,
    only_checks: bool,
) -> End {
    let Some(bytes) = read_or_tell(work.rt, input) else {
        return ended(REFUSED);
    };
    let Ok(name) = name_of(work.rt, input) else {
        return ended(lack_memory(work.rt, input));
    };
    match format_diff(
        work.rt.alloc(),
        &work.options,
        layout,
        name.as_str(),
        &bytes,
    ) {
        Ok(diff) => {
            if diff.is_empty() {
                return ended(0);
            }
            let status = if only_checks { REFUSED } else { 0 };
            ended(write_out(work.rt, &[], diff.as_str().as_bytes()).max(status))
        }
        Err(fault) => refuse(work, input, &fault, &bytes),
    }
}

/// Formats a file, in its place.
pub(crate) fn format_in_place(work: &Work<'_>, name: &str, layout: Layout) -> End {
    let alloc = work.rt.alloc();
    let options = work.options.copied();
    let mut folder = HostFolder::new(work.rt, name);
    let mut change = Formatting {
        alloc,
        options,
        layout,
    };
    let replaced = replace(alloc, &mut folder, &mut change);
    end_in_place(work, Input::File(name), replaced)
}
