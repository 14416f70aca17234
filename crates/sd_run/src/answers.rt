//! Answers that wait for more.

ghost use Rattle.std.specs.Prelude.{◌≡◌, ◌⊎◌, [], true, false, MatchResult, OnOk};
ghost use Rattle.std.specs.Io.Buffered.{writer_buffer, writer_contents};
ghost use Rattle.std.specs.Io.{WritesAtMost};
ghost use Rattle.std.specs.Io.KnownBytes.{Keeps, WriteAppends};

use std::cell::Cell;
use std::io::{BufWriter, Result, Write};
use std::marker::Model;

/// A writer that gathers answers. A flush does nothing while a line follows: the run flushes again after that line, and
/// so before it waits for input.
#[derive(Drop)]
pub struct HeldAnswers<'a, W: Write + Drop> {
    writer: BufWriter<W>,
    line_follows: &'a Cell<bool>,
    // A write or a flush failed.
    failed: bool,
}

impl<'a, W: Write + Drop> Model for HeldAnswers<'a, W> {
    ghost use Rattle.std.specs.Io.Buffered.{writer_buffer, writer_contents};
    ghost use Rattle.sd_run.specs.Held.{HeldTold};

    ghost Value = { HeldTold };

    ghost view = { λ s. record {
      contents = writer_contents W.contents s.writer;
      waiting = writer_buffer s.writer;
      failed = s.failed;
    } };
}

impl<'a, W: Write + Drop> HeldAnswers<'a, W> {
    /// Answers for this writer, none yet.
    pub fn new(writer: BufWriter<W>, line_follows: &'a Cell<bool>) -> Self
        ensures { result ≡ record {
          contents = writer_contents W.contents writer;
          waiting = writer_buffer writer;
          failed = false;
        } }
    {
        HeldAnswers {
            writer,
            line_follows,
            failed: false,
        }
    }

    /// Writes what still waits, unless a call failed: then it is let go, since nothing is written after the message of
    /// the error.
    pub fn end(self) {
        let HeldAnswers { writer, failed, .. } = self;
        if failed {
            let _ = writer.into_parts();
        }
    }
}

impl<'a, W: Write + Drop> Write for HeldAnswers<'a, W> {
    ghost contents = { λ s. s.contents };

    #[inline(always)]
    fn write(&mut self, bytes: &[u8]) -> Result<usize>
        ensures bound { WritesAtMost result bytes.now }
        ensures bytes { WriteAppends self.old.contents self.new.contents result bytes.now }
        ensures failed { MatchResult result (λ _. self.new.failed ≡ self.old.failed) (λ _. self.new.failed ≡ true) }
    {
        let taken = self.writer.write(bytes);
        self.failed |= taken.is_err();
        taken
    }

    fn flush(&mut self) -> Result<()>
        ensures bytes { Keeps self.old.contents self.new.contents }
        // Nothing waits behind a flush that succeeds, or it did nothing.
        ensures handed_on { OnOk result ((self.new.waiting ≡ []) ⊎ (self.new ≡ self.old)) }
        ensures failed { MatchResult result (λ _. self.new.failed ≡ self.old.failed) (λ _. self.new.failed ≡ true) }
    {
        if self.line_follows.get() {
            return Ok(());
        }
        let flushed = self.writer.flush();
        self.failed |= flushed.is_err();
        flushed
    }
}
