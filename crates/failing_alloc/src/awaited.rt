//! A writer that takes no memory.

use std::fmt::Write;
use std::io::ErrorKind;
use std::{fmt, io};

/// What is still to be written; anything else is refused.
#[derive(Drop)]
pub struct Awaited<'a> {
    pub rest: &'a [u8],
}

impl fmt::Write for Awaited<'_> {
    fn write_str(&mut self, s: &str) -> fmt::Result {
        match self.rest.strip_prefix(s.as_bytes()) {
            Some(rest) => {
                self.rest = rest;
                Ok(())
            }
            None => Err(fmt::Error),
        }
    }
}

impl io::Write for Awaited<'_> {
    fn write(&mut self, bytes: &[u8]) -> io::Result<usize> {
        match self.rest.strip_prefix(bytes) {
            Some(rest) => {
                self.rest = rest;
                Ok(bytes.len())
            }
            None => Err(io::Error::from(ErrorKind::Other)),
        }
    }

    fn flush(&mut self) -> io::Result<()> {
        Ok(())
    }
}

/// Whether this is what something prints, for which no memory is asked.
pub fn prints<T: fmt::Display>(shown: &T, text: &str) -> bool {
    let mut printed = Awaited {
        rest: text.as_bytes(),
    };
    let is_printed = write!(printed, "{shown}").is_ok();
    is_printed && printed.rest.is_empty()
}
