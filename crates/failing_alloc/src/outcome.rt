//! What came of a call that may want memory.

use jsonc_edit::EditError;
use jsonc_text::errors::{ParseError, ParseErrorKind, ParseStringErrorKind};
use jsonc_text::options::ParseOptions;
use jsonc_text::string::provider::ParseStringError;
use jsonc_value::to_value::parse_to_value;
use std::alloc::{AllocError, AllocFailed, Allocator};

/// What came of a call.
#[derive(Clone, Copy, Debug, PartialEq, Eq, Drop)]
pub enum Outcome {
    /// It answered as with ample memory.
    Answered,
    /// It wanted memory, and said so as it is to.
    Wanted,
    /// It answered something else.
    Other,
}

impl Outcome {
    /// An answer that is right or not.
    pub fn of(is_right: bool) -> Outcome {
        if is_right {
            return Outcome::Answered;
        }
        Outcome::Other
    }

    /// What came of this and of what was asked next.
    pub fn then(self, next: Outcome) -> Outcome {
        match (self, next) {
            (Outcome::Other, _) | (_, Outcome::Other) => Outcome::Other,
            (Outcome::Wanted, _) | (_, Outcome::Wanted) => Outcome::Wanted,
            _ => Outcome::Answered,
        }
    }

    /// Whether this answer was wanted, or the memory for it.
    pub fn of_answer<T: PartialEq + Drop, E: Into<Outcome>>(
        answer: Result<T, E>,
        wanted: &T,
    ) -> Outcome {
        match answer {
            Ok(answer) => Outcome::of(answer == *wanted),
            Err(error) => error.into(),
        }
    }

    /// Whether a text that is owned is this one, or the memory for it was wanted.
    pub fn of_text<A: Allocator, E: Into<Outcome>>(
        text: Result<String<A>, E>,
        wanted: &str,
    ) -> Outcome {
        match text {
            Ok(text) => Outcome::of(text.as_str() == wanted),
            Err(error) => error.into(),
        }
    }

    /// Whether two texts have one value, or the memory for it was wanted.
    pub fn of_values<'a, A: Allocator + Copy>(alloc: A, one: &'a str, other: &'a str) -> Outcome {
        let options = ParseOptions::default();
        let one = match parse_to_value(alloc, one, &options) {
            Ok(value) => value,
            Err(error) => return Outcome::from(error),
        };
        match parse_to_value(alloc, other, &options) {
            Ok(other) => Outcome::of(one == other),
            Err(error) => Outcome::from(error),
        }
    }
}

impl From<AllocError> for Outcome {
    fn from(_error: AllocError) -> Outcome {
        Outcome::Wanted
    }
}

impl<T: Drop> From<AllocFailed<T>> for Outcome {
    fn from(_error: AllocFailed<T>) -> Outcome {
        Outcome::Wanted
    }
}

fn is_told_of_no_bytes(error: &ParseError) -> bool {
    let range = error.range();
    let place = (
        range.start,
        range.end,
        error.line_display(),
        error.column_display(),
    );
    place == (0, 0, 1, 1)
}

impl From<ParseError> for Outcome {
    fn from(error: ParseError) -> Outcome {
        match error.kind() {
            ParseErrorKind::OutOfMemory if is_told_of_no_bytes(&error) => Outcome::Wanted,
            _ => Outcome::Other,
        }
    }
}

impl From<ParseStringError> for Outcome {
    fn from(error: ParseStringError) -> Outcome {
        match error.kind {
            ParseStringErrorKind::OutOfMemory if error.byte_index == 0 => Outcome::Wanted,
            _ => Outcome::Other,
        }
    }
}

impl From<ParseStringErrorKind> for Outcome {
    fn from(kind: ParseStringErrorKind) -> Outcome {
        match kind {
            ParseStringErrorKind::OutOfMemory => Outcome::Wanted,
            _ => Outcome::Other,
        }
    }
}

impl From<EditError> for Outcome {
    fn from(error: EditError) -> Outcome {
        match error {
            EditError::OutOfMemory => Outcome::Wanted,
            _ => Outcome::Other,
        }
    }
}
