//! The bytes that the caller lends for an answer.

ghost use Rattle.std.specs.Prelude.{◌≡◌, ◌≤◌, ◌<◌, ◌+◌, ◌++◌, length, take};
ghost use Rattle.sd_call.specs.Outcomes.{Gives};

use crate::outcome::{Outcome, done, too_small};
use sd_sink::{Sink, SinkFault};

/// The front of some cells, as a sink: it takes a text if there is room for all of it.
#[derive(Drop)]
pub struct Front<'a> {
    pub cells: &'a mut [u8],
    /// How many bytes it took.
    pub held: usize,
    pub failures: u64,
}

impl<'a> Front<'a> {
    /// How many bytes it took.
    pub fn count(&self) -> usize
        ensures { result ≡ length (take self.now.held self.now.cells.now) }
    {
        self.held.min(self.cells.len())
    }
}

impl<'a> Sink for Front<'a> {
    ghost use Rattle.std.specs.Prelude.{Some, ◌∷◌, ◌-◌, length, take};

    // The number of cells stands in front of the bytes. No text changes it, as it changes nothing that was taken.
    ghost told = { λ s. record {
      identity = s.cells.ghost_name;
      contents = Some (length s.cells.now ∷ take s.held s.cells.now);
      failures = s.failures;
      room = length s.cells.now - s.held;
    } };

    fn put(&mut self, bytes: &[u8]) -> Result<(), SinkFault> {
        if bytes.is_empty() {
            return Ok(());
        }
        if self.held > self.cells.len() || bytes.len() > self.cells.len() - self.held {
            self.failures = self.failures.saturating_add(1);
            return Err(SinkFault);
        }
        write_at(self.cells, self.held, bytes);
        self.held += bytes.len();
        Ok(())
    }
}

/// Copies the bytes into the cells from an offset on.
pub fn write_at(cells: &mut [u8], at: usize, bytes: &[u8])
    requires { at + length bytes.now ≤ length cells.old }
    ensures front { take (at + length bytes.now) cells.new ≡ take at cells.old ++ bytes.now }
    ensures same_length { length cells.new ≡ length cells.old }
{
    cells[at..at + bytes.len()].copy_from_slice(bytes);
}

/// Gives the bytes, if there is room for them.
pub fn give(bytes: &[u8], output: &mut [u8]) -> Outcome
    ensures { Gives bytes.now output.old output.new result }
{
    if bytes.len() > output.len() {
        return too_small(bytes.len());
    }
    output[..bytes.len()].copy_from_slice(bytes);
    done(bytes.len())
}
