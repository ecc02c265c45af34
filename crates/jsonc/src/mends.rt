//! Runs of `mend`, and all faults of a text, each with the change that mends it.
use crate::findings::finding_line;
use crate::in_place::end_in_place;
use crate::inputs::{REFUSED, name_of, read_or_tell, write_out};
use crate::telling::{tell_cause, tell_finding};
use crate::work::{End, Work, ended, refuse};
use jsonc_files::replace;
use jsonc_host::HostFolder;
use jsonc_layout::input::spelling::spell;
use jsonc_lint::{mend_finding, mend_findings};
use jsonc_mends::{Mend, Mends};
use jsonc_parser::common::Range;
use jsonc_program::mark::split_mark;
use jsonc_program::mending::{Mending, mends_of};
use jsonc_words::call::Input;
use std::alloc::{AllocError, Global};

/// The text of an object of JSON without its last bracket.
fn without_bracket(object: &str) -> &str {
    match object.strip_suffix("}") {
        Some(front) => front,
        None => object,
    }
}

/// A fault as an object of JSON, with its change: the first byte that is replaced, the byte behind the last, and what is
/// written there.
fn object_of(
    rt: &HostRuntime,
    name: &str,
    mend: &Mend,
    range: Range,
    new_text: &str,
) -> Result<String, AllocError> {
    let object = mend_finding::<Global>(mend).to_json(rt.alloc(), name)?;
    let text = spell(rt.alloc(), new_text)?;
    let (start, end) = (range.start, range.end);
    let mut whole = String::from_str(rt.alloc(), without_bracket(object.as_str()))?;
    write!(
        whole,
        ",\"change\":{{\"start\":{start},\"end\":{end},\"text\":{text}}}}}"
    )?;
    Ok(whole)
}

/// The last of the mends behind this one that are for the same fault.
fn last_of(mends: &[Mend], first: usize) -> usize {
    let mut last = first;
    for number in first..mends.len() {
        if mends[number].fault != mends[first].fault {
            break;
        }
        last = number;
    }
    last
}

/// The fault of a mend as an object of JSON, with the change that it and those behind it for the same fault make together.
fn object_from(
    rt: &HostRuntime,
    name: &str,
    mends: &Mends<Global>,
    number: usize,
    first: &Mend,
) -> Result<String, AllocError> {
    let list = mends.list();
    let (end, written_end) = match list.get(last_of(list, number)) {
        Some(last) => (last.range.end, last.written.end),
        None => (first.range.end, first.written.end),
    };
    let range = Range {
        start: first.range.start,
        end,
    };
    let new_text = match mends.text().get(first.written.start..written_end) {
        Some(new_text) => new_text,
        None => "",
    };
    object_of(rt, name, first, range, new_text)
}

/// Adds the faults with their changes as objects of JSON, each once.
pub(crate) fn push_mends(
    rt: &HostRuntime,
    input: Input<'_>,
    mends: &Mends<Global>,
    objects: &mut Vec<String>,
) -> Result<(), AllocError> {
    let name = name_of(input);
    let list = mends.list();
    for number in 0..list.len() {
        if number == 0 || list[number - 1].fault != list[number].fault {
            objects.push(object_from(rt, name, mends, number, &list[number])?)?;
        }
    }
    Ok(())
}

/// Tells each fault on standard error.
fn tell_mends(rt: &HostRuntime, input: Input<'_>, mends: &[Mend]) {
    match mend_findings(rt.alloc(), mends) {
        Ok(found) => {
            for finding in found.iter() {
                tell_finding(rt, finding_line(rt, input, finding));
            }
        }
        Err(_) => tell_cause(rt, input, "Out of memory"),
    }
}

/// Writes the mended text of an input, and tells its faults.
pub(crate) fn mend_to_output(work: &Work<'_>, input: Input<'_>) -> End {
    let Some(bytes) = read_or_tell(work.rt, input) else {
        return ended(REFUSED);
    };
    let (mark, rest) = split_mark(&bytes);
    match mends_of(work.rt.alloc(), &work.options, rest) {
        Ok(mends) => {
            tell_mends(work.rt, input, mends.list());
            ended(write_out(work.rt, mark, mends.text().as_bytes()))
        }
        Err(fault) => refuse(work, input, &fault, &bytes),
    }
}

/// Mends a file, in its place, and tells its faults.
pub(crate) fn mend_in_place(work: &Work<'_>, name: &str) -> End {
    let alloc = work.rt.alloc();
    let options = work.options.copied();
    let found = None;
    let mut folder = HostFolder::new(work.rt, name);
    let mut change = Mending {
        alloc,
        options,
        found,
    };
    let replaced = replace(alloc, &mut folder, &mut change);
    if let Some(mends) = &change.found {
        tell_mends(work.rt, Input::File(name), mends.list());
    }
    end_in_place(work, Input::File(name), replaced)
}
