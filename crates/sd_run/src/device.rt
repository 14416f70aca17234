//! What a run reads from and writes to.

ghost use Rattle.std.specs.Prelude.{◌≡◌, ◌≤◌, length, take, false, MatchResult};
ghost use Rattle.std.specs.Io.KnownBytes.{ReadConsumes, Keeps, Appends};
ghost use Rattle.sd_run.specs.Told.{SourceTold, DrainTold, reads_after, ends_after, failed_reads_after};
ghost use Rattle.sd_run.specs.Told.{failed_writes_after, failed_flushes_after, is_flush};

use sd_sink::SinkFault;

/// A call of a device failed.
#[derive(Clone, Copy, Debug, PartialEq, Eq)]
pub struct DeviceFault;

impl From<DeviceFault> for SinkFault {
    fn from(_fault: DeviceFault) -> SinkFault {
        SinkFault
    }
}

/// What a run reads from.
///
/// ```
/// let mut lines = FromRead::new(b"D:\n".as_slice());
/// let mut buf = [0; 8];
/// assert!(rt; lines.read(&mut buf) == Ok(3) && buf.starts_with(b"D:\n"));
/// assert!(rt; lines.read(&mut buf) == Ok(0));
/// ```
pub trait Source {
    /// The bytes that it has still to give, and its counts of calls.
    ghost told: { Self → SourceTold };

    /// Reads into the buffer. `Ok(n)` fills its first n bytes, `Err` fills none. 0 is the end of the input if the
    /// buffer has room; a call with an empty buffer is no read.
    fn read(&mut self, buf: &mut [u8]) -> Result<usize, DeviceFault>
        ensures within { MatchResult result (λ n. n ≤ length buf.new) (λ _. Unit {0}) }
        ensures bytes { ReadConsumes (told self.old).left (told self.new).left result buf.new }
        ensures reads { (told self.new).reads ≡ reads_after buf.new (told self.old).reads }
        ensures ends { (told self.new).ends ≡ ends_after result buf.new (told self.old).ends }
        ensures failures { (told self.new).failures ≡ failed_reads_after result (told self.old).failures };
}

/// What a run writes to.
///
/// ```
/// let mut out = Vec::new(rt.alloc());
/// let mut answers = ToWrite::new(&mut out);
/// assert!(rt; answers.write(b"D:\n") == Ok(3) && answers.flush() == Ok(()));
/// assert!(rt; out.as_slice() == b"D:\n".as_slice());
/// ```
pub trait Drain {
    /// The bytes that it took, its count of failed calls, and whether the last call was a flush that
    /// succeeded.
    ghost told: { Self → DrainTold };

    /// Writes the bytes. `Ok(n)` accepts the first n of them, `Err` accepts none.
    fn write(&mut self, bytes: &[u8]) -> Result<usize, DeviceFault>
        ensures within { MatchResult result (λ n. n ≤ length bytes.now) (λ _. Unit {0}) }
        ensures bytes { MatchResult result
            (λ n. Appends (told self.old).taken (told self.new).taken (take n bytes.now))
            (λ _. Keeps (told self.old).taken (told self.new).taken) }
        ensures failures { (told self.new).failures ≡ failed_writes_after result bytes.now (told self.old).failures }
        ensures flushed { (told self.new).flushed ≡ false };

    /// Passes on everything that was written.
    fn flush(&mut self) -> Result<(), DeviceFault>
        ensures bytes { Keeps (told self.old).taken (told self.new).taken }
        ensures failures { (told self.new).failures ≡ failed_flushes_after result (told self.old).failures }
        ensures flushed { (told self.new).flushed ≡ is_flush result };
}
