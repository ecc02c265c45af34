//! What is looked for.

/// What is looked for besides faults, repeated names and TODO comments.
#[derive(Clone, Copy, Debug, PartialEq, Eq, Drop)]
pub struct Rules {
    /// Trailing commas.
    pub trailing_commas: bool,
}
