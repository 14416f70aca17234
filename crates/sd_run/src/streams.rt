//! The readers and writers of std as a source and a drain.

ghost use Rattle.std.specs.Prelude.{◌≡◌, false};

use crate::device::{DeviceFault, Drain, Source};
use std::io::{Read, Write};

/// A reader of std as a source: it counts the reads, those that answered 0 and those that failed.
#[derive(Drop)]
pub struct FromRead<R: Read> {
    reader: R,
    reads: u64,
    ends: u64,
    failures: u64,
}

impl<R: Read> FromRead<R> {
    /// No call is counted yet.
    ///
    /// ```
    /// let mut lines = FromRead::new(b"".as_slice());
    /// assert!(rt; lines.read(&mut [0; 8]) == Ok(0));
    /// ```
    pub fn new(reader: R) -> Self
        ensures told { ⟦<FromRead<R> as Source>⟧.told result
            ≡ record { left = R.remaining reader; reads = 0; ends = 0; failures = 0 } }
    {
        FromRead {
            reader,
            reads: 0,
            ends: 0,
            failures: 0,
        }
    }
}

impl<R: Read> Source for FromRead<R> {
    ghost told = { λ s. record { left = R.remaining s.reader; reads = s.reads; ends = s.ends; failures = s.failures } };

    fn read(&mut self, buf: &mut [u8]) -> Result<usize, DeviceFault> {
        if buf.is_empty() {
            return Ok(0);
        }
        self.reads = self.reads.saturating_add(1);
        match self.reader.read(buf) {
            Ok(0) => {
                self.ends = self.ends.saturating_add(1);
                Ok(0)
            }
            Ok(n) => Ok(n),
            Err(_) => {
                self.failures = self.failures.saturating_add(1);
                Err(DeviceFault)
            }
        }
    }
}

/// A writer of std as a drain: it counts the failed calls, and knows whether the last call was a flush
/// that succeeded.
#[derive(Drop)]
pub struct ToWrite<W: Write> {
    writer: W,
    failures: u64,
    flushed: bool,
}

impl<W: Write> ToWrite<W> {
    /// No call is counted yet.
    ///
    /// ```
    /// let mut out = Vec::new(rt.alloc());
    /// let mut answers = ToWrite::new(&mut out);
    /// assert!(rt; answers.write(b"O:BA") == Ok(4));
    /// assert!(rt; out.len() == 4);
    /// ```
    pub fn new(writer: W) -> Self
        ensures told { ⟦<ToWrite<W> as Drain>⟧.told result
            ≡ record { taken = W.contents writer; failures = 0; flushed = false } }
    {
        ToWrite {
            writer,
            failures: 0,
            flushed: false,
        }
    }
}

impl<W: Write> Drain for ToWrite<W> {
    ghost told = { λ s. record { taken = W.contents s.writer; failures = s.failures; flushed = s.flushed } };

    fn write(&mut self, bytes: &[u8]) -> Result<usize, DeviceFault> {
        self.flushed = false;
        match self.writer.write(bytes) {
            Ok(0) => {
                if !bytes.is_empty() {
                    self.failures = self.failures.saturating_add(1);
                }
                Ok(0)
            }
            Ok(n) => Ok(n),
            Err(_) => {
                self.failures = self.failures.saturating_add(1);
                Err(DeviceFault)
            }
        }
    }

    fn flush(&mut self) -> Result<(), DeviceFault> {
        match self.writer.flush() {
            Ok(()) => {
                self.flushed = true;
                Ok(())
            }
            Err(_) => {
                self.flushed = false;
                self.failures = self.failures.saturating_add(1);
                Err(DeviceFault)
            }
        }
    }
}
