//! What is printed in place of a run.
ghost use Rattle.std.specs.Prelude.{◌≡◌};
ghost use Rattle.jsonc_words.specs.Calls.{status_of};
ghost use Rattle.clap.specs.Values.{kind_of};
ghost use Rattle.clap.specs.declared.error.kind.ErrorKind.TheVariants.{OutOfMemory};

use clap::Error;
use clap::error::ErrorKind;
use std::alloc::AllocError;
use std::{fmt, io};

/// Help, the version, or what is wrong with the words. Its `Display` is the text, with its line end.
#[derive(Debug, Drop)]
pub struct Reply {
    pub(crate) error: Error,
}

impl Reply {
    /// The status that the program ends with: 0 for help and the version, 1 where memory was refused, else 2.
    pub fn status(&self) -> u8
        ensures { result ≡ status_of (kind_of self.now.error) }
    {
        match self.error.kind() {
            ErrorKind::DisplayHelp | ErrorKind::DisplayVersion => 0,
            ErrorKind::OutOfMemory => 1,
            _ => 2,
        }
    }

    /// Prints the text: help and the version to standard output, else to standard error.
    pub fn print<R: Print + Eprint>(&self, rt: &R) -> io::Result<()> {
        self.error.print(rt)
    }
}

impl From<Error> for Reply {
    ghost from_gives = { λ error reply. reply.error ≡ error };

    fn from(error: Error) -> Reply {
        Reply { error }
    }
}

impl From<AllocError> for Reply {
    ghost from_gives = { λ _ reply. kind_of reply.error ≡ OutOfMemory };

    fn from(error: AllocError) -> Reply {
        Reply {
            error: Error::from(error),
        }
    }
}

impl fmt::Display for Reply {
    fn fmt<W: fmt::Write>(&self, f: &mut fmt::Formatter<W>) -> fmt::Result {
        fmt::Display::fmt(&self.error, f)
    }
}
