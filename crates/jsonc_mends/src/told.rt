//! Faults of a text with their lines and columns, and the changes for them.
ghost use Rattle.std.specs.Prelude.{◌≡◌, ◌≢◌, IfOk, IfSome, Some, false, true};
ghost use Rattle.std.specs.List.{All};
ghost use Rattle.jsonc_text.specs.Faults.{IsFault, kind_of};
ghost use Rattle.jsonc_text.specs.Options.{Options};
ghost use Rattle.jsonc_walk.specs.Faults.{ParseFault};
ghost use Rattle.jsonc_mend.specs.Places.{IsKnown};
ghost use Rattle.jsonc_mends.specs.Told.{BeginWith, HasFirst, IsTold, mend_of};

use jsonc_mend::changes::{Change, Fault, Proposal};
use jsonc_mend::places::{Known, known_places, position_of};
use jsonc_text::common::Range;
use jsonc_text::errors::{ParseError, ParseErrorKind};
use jsonc_text::line::LineAndColumn;
use std::alloc::{AllocError, Allocator};

/// A fault of a text, and the change for it.
#[derive(Clone, Copy, Debug, PartialEq, Eq)]
pub struct Mend {
    /// What is wrong, and the bytes of the text where it is.
    pub fault: Fault,
    /// The line and column of the fault's start, in characters, as in a `ParseError`.
    pub at: LineAndColumn,
    /// The bytes of the text that are replaced.
    pub range: Range,
    /// The bytes of the mended text in their place.
    pub written: Range,
}

/// A fault of a text, with its line and column.
#[derive(Clone, Copy)]
pub(crate) struct Told {
    pub fault: Fault,
    pub at: LineAndColumn,
}

/// The fault that an error tells.
pub(crate) fn told_of(text: &str, error: &ParseError) -> Told
    requires fault { IsFault text.now error.now }
    requires kind { kind_of error.now ≢ ParseErrorKind.OutOfMemory }
    ensures told { IsTold text.now result }
    ensures first { (o : Options) → ParseFault o text.now true error.now → HasFirst o text.now result }
{
    Told {
        fault: Fault {
            kind: *error.kind(),
            range: error.range(),
        },
        at: LineAndColumn {
            line: error.line_display(),
            column: error.column_display(),
        },
    }
}

// Whether a fault is an allocation failure.
fn is_memory(kind: ParseErrorKind) -> bool
    ensures { result ≡ false → kind ≢ ParseErrorKind.OutOfMemory }
{
    match kind {
        ParseErrorKind::OutOfMemory => true,
        _ => false,
    }
}

// A fault with its line and column, where it is one of the text.
fn told_at(text: &str, known: &[Known], fault: Fault) -> Option<Told>
    requires { All (IsKnown text.now) known.now }
    ensures { IfSome result (IsTold text.now) }
{
    let range = fault.range;
    if range.end < range.start || is_memory(fault.kind) {
        return None;
    }
    if !text.is_char_boundary(range.start) || !text.is_char_boundary(range.end) {
        return None;
    }
    let at = position_of(text, known, range.start);
    Some(Told { fault, at })
}

// The fault of the change of a number: the first is given.
fn told_number(
    text: &str,
    first: Told,
    proposals: &[Proposal],
    known: &[Known],
    number: usize,
) -> Option<Told>
    requires first { IsTold text.now first }
    requires known { All (IsKnown text.now) known.now }
    ensures told { IfSome result (IsTold text.now) }
    ensures first { number ≡ 0 → result ≡ Some first }
{
    if number == 0 {
        return Some(first);
    }
    match proposals.get(number) {
        Some(proposal) => told_at(text, known, proposal.fault),
        None => None,
    }
}

/// The lines and columns of the proposed faults, by one walk over the text.
pub(crate) fn known_faults<A: Allocator + Copy>(
    alloc: A,
    text: &str,
    proposals: &[Proposal],
) -> Result<Vec<Known, A>, AllocError>
    ensures { IfOk result (λ known. All (IsKnown text.now) known.items) }
{
    let mut starts = Vec::new(alloc);
    for proposal in proposals {
        starts.push(proposal.fault.range.start)?;
    }
    starts.as_mut_slice().sort_unstable();
    known_places(alloc, text, starts.as_slice())
}

// The fault with its change.
fn mend_of(told: Told, change: Change) -> Mend
    ensures { result ≡ mend_of told change }
{
    Mend {
        fault: told.fault,
        at: told.at,
        range: change.range,
        written: change.written,
    }
}

/// Each change with its fault, the first with the one that is given. None where another fault is none of the text.
pub(crate) fn told_changes<A: Allocator + Copy>(
    alloc: A,
    text: &str,
    first: Told,
    proposals: &[Proposal],
    changes: &[Change],
) -> Result<Option<Vec<Mend, A>>, AllocError>
    requires { IsTold text.now first }
    ensures { IfOk result (λ list. IfSome list (λ mends. BeginWith text.now first mends.items changes.now)) }
{
    let known = known_faults(alloc, text, proposals)?;
    let mut list = Vec::new(alloc);
    for change in changes {
        let Some(told) = told_number(text, first, proposals, known.as_slice(), list.len()) else {
            return Ok(None);
        };
        list.push(mend_of(told, *change))?;
    }
    if list.is_empty() {
        return Ok(None);
    }
    Ok(Some(list))
}
