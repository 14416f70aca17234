//! Input that is read ahead.

ghost use Rattle.std.specs.Prelude.{◌≡◌, ◌↔◌, take, Contains, IsTrue};
ghost use Rattle.std.specs.Io.Buffered.{reader_remaining};

use std::cell::Cell;
use std::io::{BufReader, Read, Result};

/// A reader that reads ahead. It notes whether a line ends in what its next read gives without a wait, if that read
/// asks for as many bytes as the last one.
#[derive(Drop)]
pub struct InputAhead<'a, R: Read + Drop> {
    reader: BufReader<R>,
    line_follows: &'a Cell<bool>,
}

impl<'a, R: Read + Drop> InputAhead<'a, R> {
    /// Input of this reader, which has read nothing ahead yet.
    pub fn new(reader: BufReader<R>, line_follows: &'a Cell<bool>) -> Self
        ensures { ⟦<InputAhead<'a, R> as Read>⟧.remaining result ≡ reader_remaining R.remaining reader }
    {
        InputAhead {
            reader,
            line_follows,
        }
    }
}

impl<'a, R: Read + Drop> Read for InputAhead<'a, R> {
    ghost remaining = { λ s. reader_remaining R.remaining s.reader };

    fn read(&mut self, buf: &mut [u8]) -> Result<usize> {
        let given = self.reader.read(buf)?;
        self.line_follows
            .set(ends_in(self.reader.buffer(), buf.len()));
        Ok(given)
    }
}

// Whether a line ends in the first bytes, of which there are at most so many.
fn ends_in(ahead: &[u8], most: usize) -> bool
    ensures { IsTrue result ↔ Contains (take most ahead.now) 10 }
{
    ahead[..ahead.len().min(most)].contains(&b'\n')
}
