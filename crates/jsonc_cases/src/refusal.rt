//! Why an edit of a case was not made.

use jsonc_parser::cst::EditError;
use std::alloc::{AllocError, AllocFailed};

/// Why an edit was not made.
#[derive(Clone, Copy)]
pub enum Refusal {
    /// The call that makes it said so.
    Error(EditError),
    /// No call makes it: a leaf of this kind has none.
    Usage,
}

impl Refusal {
    /// The word that an answer has for it.
    pub fn word(self) -> Result<&'static str, AllocError> {
        match self {
            Refusal::Usage => Ok("Usage"),
            Refusal::Error(EditError::NoSuchPlace) => Ok("NoSuchPlace"),
            Refusal::Error(EditError::MissingBrackets) => Ok("MissingBrackets"),
            Refusal::Error(EditError::MissingName) => Ok("MissingName"),
            Refusal::Error(EditError::InvalidComment) => Ok("InvalidComment"),
            Refusal::Error(EditError::LineContinues) => Ok("LineContinues"),
            Refusal::Error(EditError::NotAnEntry) => Ok("NotAnEntry"),
            Refusal::Error(EditError::NestingDepthExceeded) => Ok("NestingDepthExceeded"),
            Refusal::Error(EditError::OutOfMemory) => Err(AllocError),
        }
    }
}

impl From<EditError> for Refusal {
    fn from(error: EditError) -> Refusal {
        Refusal::Error(error)
    }
}

impl From<AllocError> for Refusal {
    fn from(_: AllocError) -> Refusal {
        Refusal::Error(EditError::OutOfMemory)
    }
}

impl<T: Drop> From<AllocFailed<T>> for Refusal {
    fn from(_: AllocFailed<T>) -> Refusal {
        Refusal::Error(EditError::OutOfMemory)
    }
}
