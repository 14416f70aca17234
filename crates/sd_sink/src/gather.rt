//! A printer that gathers small texts, and hands them down together.

ghost use Rattle.std.specs.Prelude.{◌≡◌, [], false};
ghost use Rattle.sd_sink.specs.Print.{Prints, Begins};

use crate::held::{FRONT, Held};
use crate::print::Print;
use crate::sink::{Sink, SinkFault};

/// A printer that gathers small texts, and hands them down when it is full and when it finishes.
///
/// ```
/// let mut sink = TextSink::new(&rt);
/// let mut out = Gather::new(&mut sink);
/// print_rights(AceKind::Allow, 0x1f01ff, &mut out);
/// out.put(b";;;WD");
/// assert!(rt; out.finish() == Ok(()));
/// assert!(rt; sink.bytes() == b"FA;;;WD".as_slice());
/// ```
#[derive(Drop)]
pub struct Gather<'a, S: Sink> {
    pub sink: &'a mut S,
    pub held: Held,
    pub failed: bool,
}

impl<'a, S: Sink> Gather<'a, S> {
    /// Holds nothing yet.
    pub fn new(sink: &'a mut S) -> Gather<'a, S>
        ensures same_reference { result.sink.ghost_name ≡ sink.entry.ghost_name }
        ensures same_sink { result.sink.now ≡ sink.old }
        ensures begins { Begins (S.told sink.old) (⟦<Gather<'a, S> as Print>⟧.told result) }
    {
        Gather {
            sink,
            held: Held::new(),
            failed: false,
        }
    }

    // Prints a text that there is no room for.
    #[cold]
    #[inline(never)]
    fn put_over(&mut self, text: &[u8])
        ensures { Prints (⟦<Gather<'a, S> as Print>⟧.told self.old) (⟦<Gather<'a, S> as Print>⟧.told self.new)
            text.now }
    {
        self.hand_down();
        if !self.failed {
            self.pass(text);
        }
    }

    // Hands down what is held.
    fn hand_down(&mut self)
        ensures prints { Prints (⟦<Gather<'a, S> as Print>⟧.told self.old)
            (⟦<Gather<'a, S> as Print>⟧.told self.new) [] }
        ensures empty { self.new.failed ≡ false → self.new.held ≡ [] }
    {
        if !self.failed {
            self.failed = self.sink.put(self.held.as_slice()).is_err();
            self.held.clear();
        }
    }

    // Hands down a text, where nothing is held.
    fn pass(&mut self, text: &[u8])
        requires { self.old.held ≡ [] }
        ensures { Prints (⟦<Gather<'a, S> as Print>⟧.told self.old) (⟦<Gather<'a, S> as Print>⟧.told self.new)
            text.now }
    {
        if !self.failed {
            self.failed = self.sink.put(text).is_err();
        }
    }
}

impl<'a, S: Sink> Print for Gather<'a, S> {
    ghost told = { λ s.
        record { identity = s.sink.ghost_name; failed = s.failed; below = S.told s.sink.now; held = s.held } };

    // Where a text is known when the program is built, its few bytes are then written at once.
    #[inline(always)]
    fn put(&mut self, text: &[u8]) {
        if text.len() <= self.held.room() {
            self.held.append(text);
        } else {
            self.put_over(text);
        }
    }

    #[inline(always)]
    fn put_front(&mut self, cells: &[u8], count: usize) {
        if self.held.room() < FRONT {
            self.put_over(&cells[..count]);
        } else {
            self.held.append_front(cells, count);
        }
    }

    fn finish(&mut self) -> Result<(), SinkFault> {
        self.hand_down();
        if self.failed { Err(SinkFault) } else { Ok(()) }
    }
}
