//! Why a line is no case.

use std::alloc::{AllocError, AllocFailed};
use std::error::Error;
use std::fmt;

/// Why a line is no case. Its `Display` is what the line lacks.
#[derive(Debug, Drop)]
pub enum CaseError {
    /// The line's bytes are not UTF-8.
    NotUtf8,
    /// No field after the first.
    NoKind,
    /// A kind that no case has.
    UnknownKind,
    /// More or fewer fields than the kind has.
    FieldCount,
    /// No ten characters `0` or `1` where options stand.
    Options,
    /// No strategy with or without tokens where one stands.
    Collection,
    /// A backslash without `x` and two upper-case hex digits after it.
    Escape,
    /// A text whose bytes are not UTF-8.
    TextNotUtf8,
    /// A word that does not begin with `'`.
    Word,
    /// A look-up that no object has, or one without a name.
    Lookup,
    /// An edit of no kind that there is, or with other words than it takes.
    Edit,
    /// There was not enough memory to read the line.
    OutOfMemory,
}

impl fmt::Display for CaseError {
    fn fmt<W: fmt::Write>(&self, f: &mut fmt::Formatter<W>) -> fmt::Result {
        f.write_str(match self {
            CaseError::NotUtf8 => "its bytes are not UTF-8",
            CaseError::NoKind => "it has no kind",
            CaseError::UnknownKind => "there is no such kind",
            CaseError::FieldCount => "its kind has another number of fields",
            CaseError::Options => "options are ten characters 0 or 1",
            CaseError::Collection => "a collection is O, S or T, and then t or -",
            CaseError::Escape => "an escape is \\x and two upper-case hex digits",
            CaseError::TextNotUtf8 => "its text is not UTF-8",
            CaseError::Word => "a word begins with '",
            CaseError::Lookup => "a look-up is get or take, with a kind or none, and a word",
            CaseError::Edit =>
                "an edit is its kind, and the path, name, value, number or words that it takes",
            CaseError::OutOfMemory => "out of memory",
        })
    }
}

impl Error for CaseError {}

impl From<AllocError> for CaseError {
    fn from(_error: AllocError) -> CaseError {
        CaseError::OutOfMemory
    }
}

impl<T: Drop> From<AllocFailed<T>> for CaseError {
    fn from(_error: AllocFailed<T>) -> CaseError {
        CaseError::OutOfMemory
    }
}
