//! What prints: straight code above a sink.

ghost use Rattle.std.specs.Prelude.{◌≤◌, length, take};
ghost use Rattle.sd_sink.specs.Print.{PrintTold, Prints, Finishes};

use crate::sink::SinkFault;

/// Prints texts, and remembers a failure: after it nothing is handed down.
///
/// ```
/// let mut sink = TextSink::new(&rt);
/// let mut out = Printer::new(&mut sink);
/// out.put(b"O:");
/// out.put(b"BA");
/// assert!(rt; out.finish() == Ok(()));
/// assert!(rt; sink.bytes() == b"O:BA".as_slice());
/// ```
pub trait Print {
    /// What it holds, what a contract sees of the sink below it, and whether a call failed.
    ghost told: { Self → PrintTold };

    /// Prints the bytes.
    fn put(&mut self, bytes: &[u8])
        ensures { Prints (told self.old) (told self.new) bytes.now };

    /// Prints the first few of at least 16 cells, at most 16 of them. Where they are known to be few, they are copied
    /// faster than a text of any length.
    fn put_front(&mut self, cells: &[u8], count: usize)
        requires cells { 16 ≤ length cells.now }
        requires few { count ≤ 16 }
        ensures { Prints (told self.old) (told self.new) (take count cells.now) };

    /// Hands down what is held. `Err` where a call failed, now or before.
    fn finish(&mut self) -> Result<(), SinkFault>
        ensures { Finishes (told self.old) (told self.new) result };
}
