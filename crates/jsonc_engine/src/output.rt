//! What is to be written.
ghost use Rattle.std.specs.Prelude.{◌≡◌, string_bytes, IfErr, IfOk};
ghost use Rattle.jsonc_engine.specs.Output.{written_bytes};

use jsonc_parser::cst::CstRootNode;
use std::alloc::{AllocError, Allocator};

/// What is to be written of a document.
#[derive(Drop)]
pub(crate) enum Output<A: Allocator> {
    /// The document.
    Document(CstRootNode<A>),
    /// A text in its place.
    Text(String<A>),
}

/// What is made of a text.
#[derive(Drop)]
pub(crate) enum Made<'a, A: Allocator> {
    /// Nothing: it is to be written as it is.
    Same(&'a str),
    /// This is to be written in its place.
    Other(Output<A>),
}

/// What a command writes.
#[derive(Drop)]
pub enum Written<'a, A: Allocator> {
    /// The text of the input, as it is.
    Input(&'a str),
    /// A text of its own.
    Text(String<A>),
}

impl<A: Allocator + Copy> Written<'_, A> {
    /// The text that is written.
    pub fn as_str(&self) -> &str
        ensures { result.now ≡ written_bytes self.now }
    {
        match self {
            Written::Input(text) => *text,
            Written::Text(text) => text.as_str(),
        }
    }

    /// The text that is written, as a text of its own.
    pub fn into_text(self, alloc: A) -> Result<String<A>, AllocError>
        ensures { IfOk result (λ text. string_bytes text ≡ written_bytes self.entry) }
    {
        match self {
            Written::Input(text) => match String::from_str(alloc, text) {
                Ok(copy) => Ok(copy),
                Err(_) => Err(AllocError),
            },
            Written::Text(text) => Ok(text),
        }
    }
}
