//! A printer that hands each text down at once.

ghost use Rattle.std.specs.Prelude.{◌≡◌, false};
ghost use Rattle.sd_sink.specs.Print.{Begins};

use crate::print::Print;
use crate::sink::{Sink, SinkFault};

/// A printer that hands each text down at once.
///
/// ```
/// let mut sink = TextSink::new(&rt);
/// let mut out = Printer::new(&mut sink);
/// out.put(b"D:");
/// assert!(rt; !out.failed && out.finish() == Ok(()));
/// assert!(rt; sink.bytes() == b"D:".as_slice());
/// ```
#[derive(Drop)]
pub struct Printer<'a, S: Sink> {
    pub sink: &'a mut S,
    pub failed: bool,
}

impl<'a, S: Sink> Printer<'a, S> {
    /// Prints to a sink.
    pub fn new(sink: &'a mut S) -> Printer<'a, S>
        ensures same_reference { result.sink.ghost_name ≡ sink.entry.ghost_name }
        ensures same_sink { result.sink.now ≡ sink.old }
        ensures begins { Begins (S.told sink.old) (⟦<Printer<'a, S> as Print>⟧.told result) }
    {
        Printer {
            sink,
            failed: false,
        }
    }
}

impl<'a, S: Sink> Print for Printer<'a, S> {
    ghost use Rattle.std.specs.Prelude.{[]};

    ghost told = { λ s.
        record { identity = s.sink.ghost_name; failed = s.failed; below = S.told s.sink.now; held = [] } };

    fn put(&mut self, bytes: &[u8]) {
        if !self.failed {
            self.failed = self.sink.put(bytes).is_err();
        }
    }

    fn put_front(&mut self, cells: &[u8], count: usize) {
        self.put(&cells[..count]);
    }

    fn finish(&mut self) -> Result<(), SinkFault> {
        if self.failed { Err(SinkFault) } else { Ok(()) }
    }
}
