//! A sink over a drain.

ghost use Rattle.sd_sink.specs.Sink.{Puts};
ghost use Rattle.sd_run.specs.Told.{sink_of};

use crate::device::Drain;
use sd_sink::{Sink, SinkFault};

/// A drain as a sink: short writes are continued.
#[derive(Drop)]
pub struct DrainSink<'a, W: Drain> {
    pub drain: &'a mut W,
}

impl<'a, W: Drain> Sink for DrainSink<'a, W> {
    ghost told = { λ s. record (sink_of (W.told s.drain.now)) { identity = s.drain.ghost_name } };

    fn put(&mut self, bytes: &[u8]) -> Result<(), SinkFault> {
        write_whole(self.drain, bytes)
    }
}

/// Writes all of the bytes, in as many calls as the drain needs.
pub fn write_whole<W: Drain>(drain: &mut W, bytes: &[u8]) -> Result<(), SinkFault>
    ensures { Puts (sink_of (W.told drain.old)) (sink_of (W.told drain.new)) bytes.now result }
{
    let mut at = 0;
    while at < bytes.len() {
        let n = drain.write(&bytes[at..])?;
        if n == 0 {
            return Err(SinkFault);
        }
        at += n;
    }
    Ok(())
}
