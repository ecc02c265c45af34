//! Faults of a text at its places.
ghost use Rattle.std.specs.Prelude.{◌≡◌, ◌≢◌};
ghost use Rattle.jsonc_text.specs.Text.{Spans};
ghost use Rattle.jsonc_text.specs.Faults.{IsFault, kind_of};
ghost use Rattle.jsonc_scan.specs.Refusals.{IsTextFault, IsFaultError, IsFaultOfNext};

use jsonc_text::chars::char_end;
use jsonc_text::common::Range;
use jsonc_text::errors::{ParseError, ParseErrorKind};

/// A fault that is told of the bytes between two places.
#[cold]
pub(crate) fn fault(text: &str, start: usize, end: usize, kind: ParseErrorKind) -> ParseError
    requires spans { Spans text.now start end }
    requires kind { kind ≢ ParseErrorKind.OutOfMemory }
    ensures fault { IsTextFault text.now result }
    ensures error { IsFaultError start end kind result }
{
    ParseError::new(Range { start, end }, kind, text)
}

/// A fault that is told of the character at a place, or of no bytes at the end of the text.
#[cold]
pub(crate) fn fault_at(text: &str, place: usize, kind: ParseErrorKind) -> ParseError
    requires spans { Spans text.now place place }
    requires kind { kind ≢ ParseErrorKind.OutOfMemory }
    ensures fault { IsTextFault text.now result }
    ensures kind { kind_of result ≡ kind }
    ensures next { IsFaultOfNext text.now place result }
{
    let end = char_end(text, place);
    fault(text, place, end, kind)
}

/// The error of an allocation failure.
#[cold]
pub(crate) fn out_of_memory(text: &str) -> ParseError
    ensures fault { IsFault text.now result }
    ensures kind { kind_of result ≡ ParseErrorKind.OutOfMemory }
{
    ParseError::out_of_memory()
}
