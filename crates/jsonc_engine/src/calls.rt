//! Where the program's bytes come from and go to, with counts of the calls that failed and of the reads that gave nothing.
ghost use Rattle.std.specs.Prelude.{◌≡◌, ℕ, List, Option, OnErr, OnOk, false, true};
ghost use Rattle.std.specs.Io.{ReadsAtMost};
ghost use Rattle.std.specs.Io.KnownBytes.{Appends, Keeps, ReadConsumes};
ghost use Rattle.jsonc_engine.specs.Calls.{IsCounted, IsEndCounted};

use std::io;
use std::io::{Read, Write};

/// Where input comes from.
pub trait Source {
    // The bytes that reads will give from here on, where they are known.
    ghost remaining: { Self → Option (List ℕ) };

    // How many reads failed, up to `u64::MAX`.
    ghost failed_reads: { Self → ℕ };

    // How many reads gave no bytes, up to `u64::MAX`.
    ghost empty_reads: { Self → ℕ };

    /// Reads some bytes to the front of `buffer`, none only at the end.
    fn read(&mut self, buffer: &mut [u8]) -> io::Result<usize>
        ensures bound { ReadsAtMost result buffer.new }
        ensures bytes { ReadConsumes (remaining self.old) (remaining self.new) result buffer.new }
        ensures counted { IsCounted result (failed_reads self.old) (failed_reads self.new) }
        ensures ended { IsEndCounted result (empty_reads self.old) (empty_reads self.new) };
}

/// Where output goes.
pub trait Sink {
    // The bytes that it holds, where they are known.
    ghost contents: { Self → Option (List ℕ) };

    // How many writes and flushes failed, up to `u64::MAX`.
    ghost failed_writes: { Self → ℕ };

    // Whether nothing was written since the last flush.
    ghost is_flushed: { Self → Type 0 };

    /// Writes all the bytes.
    fn write(&mut self, bytes: &[u8]) -> io::Result<()>
        ensures bytes { OnOk result (Appends (contents self.old) (contents self.new) bytes.now) }
        ensures counted { IsCounted result (failed_writes self.old) (failed_writes self.new) };

    /// Sees that what was written has left.
    fn flush(&mut self) -> io::Result<()>
        ensures bytes { OnOk result (Keeps (contents self.old) (contents self.new)) }
        ensures flushed { OnOk result (is_flushed self.new) }
        ensures counted { IsCounted result (failed_writes self.old) (failed_writes self.new) };
}

/// A reader, as a source.
#[derive(Drop)]
pub struct FromReader<R> {
    pub reader: R,
    /// How many reads failed, up to `u64::MAX`.
    pub failed: u64,
    /// How many reads gave no bytes, up to `u64::MAX`.
    pub empty: u64,
}

impl<R: Read> FromReader<R> {
    /// The reader as a source, of which no read has failed or given nothing.
    pub fn new(reader: R) -> FromReader<R>
        ensures reader { result.reader ≡ reader }
        ensures fresh { result.failed ≡ 0 }
        ensures begun { result.empty ≡ 0 }
    {
        FromReader {
            reader,
            failed: 0,
            empty: 0,
        }
    }
}

impl<R: Read> Source for FromReader<R> {
    ghost remaining = { λ s. R.remaining s.reader };

    ghost failed_reads = { λ s. s.failed };

    ghost empty_reads = { λ s. s.empty };

    fn read(&mut self, buffer: &mut [u8]) -> io::Result<usize> {
        match self.reader.read(buffer) {
            Ok(count) => {
                if count == 0 {
                    self.empty = self.empty.saturating_add(1);
                }
                Ok(count)
            }
            Err(error) => {
                self.failed = self.failed.saturating_add(1);
                Err(error)
            }
        }
    }
}

/// A writer, as a sink.
#[derive(Drop)]
pub struct ToWriter<W> {
    pub writer: W,
    /// How many writes and flushes failed, up to `u64::MAX`.
    pub failed: u64,
    /// Whether something was written since the last flush.
    pub unflushed: bool,
}

impl<W: Write> ToWriter<W> {
    /// The writer as a sink, of which no call has failed.
    pub fn new(writer: W) -> ToWriter<W>
        ensures writer { result.writer ≡ writer }
        ensures fresh { result.failed ≡ 0 }
        ensures flushed { result.unflushed ≡ false }
    {
        ToWriter {
            writer,
            failed: 0,
            unflushed: false,
        }
    }

    /// Counts the call where it failed.
    fn count<T>(&mut self, outcome: io::Result<T>) -> io::Result<T>
        ensures outcome { result ≡ outcome }
        ensures kept { self.new.writer ≡ self.old.writer }
        ensures unflushed { self.new.unflushed ≡ self.old.unflushed }
        ensures counted { IsCounted result self.old.failed self.new.failed }
    {
        if outcome.is_err() {
            self.failed = self.failed.saturating_add(1);
        }
        outcome
    }
}

impl<W: Write> Sink for ToWriter<W> {
    ghost contents = { λ s. W.contents s.writer };

    ghost failed_writes = { λ s. s.failed };

    ghost is_flushed = { λ s. s.unflushed ≡ false };

    fn write(&mut self, bytes: &[u8]) -> io::Result<()>
        ensures bytes { OnOk result (Appends (W.contents self.old.writer) (W.contents self.new.writer) bytes.now) }
        ensures counted { IsCounted result self.old.failed self.new.failed }
        ensures unflushed { self.new.unflushed ≡ true }
    {
        self.unflushed = true;
        let outcome = self.writer.write_all(bytes);
        self.count(outcome)
    }

    fn flush(&mut self) -> io::Result<()>
        ensures bytes { OnOk result (Keeps (W.contents self.old.writer) (W.contents self.new.writer)) }
        ensures flushed { OnOk result (self.new.unflushed ≡ false) }
        ensures counted { IsCounted result self.old.failed self.new.failed }
        ensures unflushed { OnErr result (self.new.unflushed ≡ true) }
    {
        let outcome = self.writer.flush();
        self.unflushed = outcome.is_err();
        self.count(outcome)
    }
}
