//! Patches whose values are nested as deep as a text may be, and deeper.

use failing_alloc::awaited::prints;
use jsonc_engine::command::Command;
use jsonc_engine::engine::run_on;
use std::alloc::{AllocError, Global};
use std::test::Fail;

/// What is done where so many arrays are around: the value is added behind the innermost element, or takes its place, or
/// is added there as one of two operations; or the document is copied behind it, or the second element is moved there.
#[derive(Clone, Copy)]
enum Deep {
    Add,
    Replace,
    Second,
    Copy,
    Move,
}

/// What is done, how many arrays are around the place, how many are around `1` in the value, or in the document's second
/// element, and the line of the fault: where more than 512 arrays would be around `1`.
type Row = (Deep, usize, usize, Option<&'static str>);

const FIRST: Option<&str> = Some("jsonc: Operation 0: Maximum nesting depth exceeded");

const NEXT: Option<&str> = Some("jsonc: Operation 1: Maximum nesting depth exceeded");

static ROWS: [Row; 14] = [
    (Deep::Add, 500, 12, None),
    (Deep::Add, 500, 13, FIRST),
    (Deep::Add, 3, 509, None),
    (Deep::Add, 4, 509, FIRST),
    (Deep::Replace, 500, 12, None),
    (Deep::Replace, 500, 13, FIRST),
    (Deep::Second, 500, 12, None),
    (Deep::Second, 500, 13, NEXT),
    (Deep::Copy, 256, 0, None),
    (Deep::Copy, 257, 0, FIRST),
    (Deep::Copy, 512, 0, FIRST),
    (Deep::Move, 500, 12, None),
    (Deep::Move, 500, 13, FIRST),
    (Deep::Move, 512, 0, None),
];

/// A text, so often.
fn repeated(alloc: Global, text: &str, count: usize) -> Result<String, AllocError> {
    let mut all = String::new(alloc);
    for _ in 0..count {
        all.push_str(text)?;
    }
    Ok(all)
}

/// `1` in so many arrays, one in another.
fn in_arrays(alloc: Global, count: usize) -> Result<String, AllocError> {
    let opened = repeated(alloc, "[", count)?;
    let closed = repeated(alloc, "]", count)?;
    format!(in alloc; "{}1{}", opened, closed)
}

/// The document: `1` in so many arrays, with a second element of the first that has so many arrays too.
fn text_of(alloc: Global, row: &Row) -> Result<String, AllocError> {
    let (deep, around, arrays, _) = *row;
    let inner = in_arrays(alloc, around.saturating_sub(1))?;
    match deep {
        Deep::Move => format!(in alloc; "[{},{}]", inner, in_arrays(alloc, arrays)?),
        _ => format!(in alloc; "[{}]", inner),
    }
}

/// The patch.
fn patch_of(alloc: Global, row: &Row) -> Result<String, AllocError> {
    let (deep, around, arrays, _) = *row;
    let place = repeated(alloc, "/0", around.saturating_sub(1))?;
    let value = in_arrays(alloc, arrays)?;
    match deep {
        Deep::Add => format!(in alloc;
            "[{{\"op\":\"add\",\"path\":\"{}/-\",\"value\":{}}}]",
            place, value
        ),
        Deep::Replace => format!(in alloc;
            "[{{\"op\":\"replace\",\"path\":\"{}/0\",\"value\":{}}}]",
            place, value
        ),
        Deep::Second => format!(in alloc;
            "[{{\"op\":\"add\",\"path\":\"/-\",\"value\":2}},{{\"op\":\"add\",\"path\":\"{}/-\",\"value\":{}}}]",
            place, value
        ),
        Deep::Copy => format!(in alloc;
            "[{{\"op\":\"copy\",\"from\":\"\",\"path\":\"{}/-\"}}]",
            place
        ),
        Deep::Move => format!(in alloc;
            "[{{\"op\":\"move\",\"from\":\"/1\",\"path\":\"{}/-\"}}]",
            place
        ),
    }
}

/// Whether `jsonc check` accepts a text.
fn is_accepted(alloc: Global, text: &str) -> bool {
    run_on(alloc, Command::Check, text.as_bytes()).is_ok()
}

/// Whether what a row says comes of its patch.
fn is_so(alloc: Global, row: &Row) -> Result<bool, AllocError> {
    let text = text_of(alloc, row)?;
    let patch = patch_of(alloc, row)?;
    match (
        run_on(
            alloc,
            Command::Patch {
                text: &patch,
                most: 1_000_000_000,
            },
            text.as_bytes(),
        ),
        row.3,
    ) {
        (Ok(Some(written)), None) => Ok(is_accepted(alloc, &written)),
        (Err(fault), Some(line)) => Ok(prints(&fault, line)),
        _ => Ok(false),
    }
}

#[test]
fn what_patches_write_is_accepted(rt: HostRuntime) -> Result<(), Fail> {
    for (place, row) in ROWS.iter().enumerate() {
        assert!(rt; is_so(rt.alloc(), row) == Ok(true), "row {}", place);
    }
    Ok(())
}
