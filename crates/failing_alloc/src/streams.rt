//! A reader and a writer of a few bytes a call, one of whose calls fails.

use std::io;
use std::io::{ErrorKind, Read, Write};

/// The most bytes that a call moves.
pub const STEP: usize = 5;

/// Counts calls, and fails each one behind so many.
#[derive(Drop)]
pub struct Calls {
    left: usize,
    pub made: usize,
    pub failed: usize,
}

impl Calls {
    /// Calls of which so many succeed.
    pub fn new(left: usize) -> Calls {
        Calls {
            left,
            made: 0,
            failed: 0,
        }
    }

    /// Counts a call, and tells whether it succeeds.
    fn next(&mut self) -> io::Result<()> {
        if self.left == 0 {
            self.failed = self.failed.saturating_add(1);
            return Err(io::Error::from(ErrorKind::Other));
        }
        self.left -= 1;
        self.made = self.made.saturating_add(1);
        Ok(())
    }
}

/// A reader of bytes.
#[derive(Drop)]
pub struct Reader<'a> {
    pub rest: &'a [u8],
    pub calls: Calls,
}

impl Read for Reader<'_> {
    fn read(&mut self, buffer: &mut [u8]) -> io::Result<usize> {
        self.calls.next()?;
        let count = buffer.len().min(self.rest.len()).min(STEP);
        let (front, rest) = self.rest.split_at(count);
        buffer[..count].copy_from_slice(front);
        self.rest = rest;
        Ok(count)
    }
}

/// A writer that keeps the bytes.
#[derive(Drop)]
pub struct Writer {
    pub bytes: Vec<u8>,
    pub calls: Calls,
}

impl Write for Writer {
    fn write(&mut self, bytes: &[u8]) -> io::Result<usize> {
        self.calls.next()?;
        let count = bytes.len().min(STEP);
        self.bytes.extend_from_slice(&bytes[..count])?;
        Ok(count)
    }

    fn flush(&mut self) -> io::Result<()> {
        self.calls.next()
    }
}
