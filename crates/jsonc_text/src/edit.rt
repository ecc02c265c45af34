//! What edits are told, and why one was not made.

ghost use Rattle.std.specs.Prelude.{◌≡◌, Some};
ghost use Rattle.jsonc_text.specs.EditErrors.{edit_error_text};
ghost use Rattle.jsonc_text.specs.declared.edit.EditError.TheVariants.{OutOfMemory};

use std::alloc::{AllocError, AllocFailed};
use std::error::Error;
use std::fmt;

/// Why an edit or another call of a document failed.
#[derive(Clone, Copy, Debug, PartialEq, Eq, Drop)]
pub enum EditError {
    /// There was not enough memory.
    OutOfMemory,
    /// A container has lost a bracket.
    MissingBrackets,
    /// A property has lost its name or its colon.
    MissingName,
    /// The path leads to nothing that the edit needs, or no comment has the number.
    NoSuchPlace,
    /// The text is not one comment and nothing else.
    InvalidComment,
    /// The comment ends with its line, and something follows on the line that it is to end.
    LineContinues,
    /// The node is no element or property of an array or object, and not the document's value.
    NotAnEntry,
    /// The value would be nested deeper in the document than texts are parsed.
    NestingDepthExceeded,
}

impl fmt::Display for EditError {
    ghost output = { λ e. Some (edit_error_text e) };

    ghost styled_output = { λ e _. Some (edit_error_text e) };

    fn fmt<W: fmt::Write>(&self, f: &mut fmt::Formatter<W>) -> fmt::Result {
        match self {
            EditError::OutOfMemory => f.write_str("Out of memory"),
            EditError::MissingBrackets => f.write_str("Missing brackets"),
            EditError::MissingName => f.write_str("Missing name"),
            EditError::NoSuchPlace => f.write_str("No such place"),
            EditError::InvalidComment => f.write_str("Invalid comment"),
            EditError::LineContinues => f.write_str("Line continues after the comment"),
            EditError::NotAnEntry => f.write_str("Not an entry"),
            EditError::NestingDepthExceeded => f.write_str("Maximum nesting depth exceeded"),
        }
    }
}

impl Error for EditError {}

impl From<AllocError> for EditError {
    ghost from_gives = { λ _ e. e ≡ OutOfMemory };

    fn from(_error: AllocError) -> EditError {
        EditError::OutOfMemory
    }
}

impl<T: Drop> From<AllocFailed<T>> for EditError {
    ghost from_gives = { λ _ e. e ≡ OutOfMemory };

    fn from(_error: AllocFailed<T>) -> EditError {
        EditError::from(AllocError)
    }
}

/// Where trailing commas are to stand. By default nowhere.
#[derive(Clone, Copy, Debug, PartialEq, Eq)]
pub enum TrailingCommaMode {
    /// After no last element or property.
    Never,
    /// After the last one of each array and object on several lines.
    IfMultiline,
}

impl Default for TrailingCommaMode {
    fn default() -> Self
        ensures { result ≡ TrailingCommaMode.Never }
    {
        TrailingCommaMode::Never
    }
}

/// Whether an array or an object is to be there.
#[derive(Clone, Copy, Debug, PartialEq, Eq)]
pub enum Shape {
    Object,
    Array,
}

/// What happens to a value of another kind than the one that is to be there.
#[derive(Clone, Copy, Debug, PartialEq, Eq)]
pub enum Over {
    /// It stays.
    Keep,
    /// It is replaced.
    Replace,
}

/// Where a comment of an entry is inserted.
#[derive(Clone, Copy, Debug, PartialEq, Eq)]
pub enum Place {
    /// Above the entry, on a line of its own.
    Above,
    /// After the entry on its line, and after its comma.
    After,
}
