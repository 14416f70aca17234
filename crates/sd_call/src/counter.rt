//! How long a text is that is kept nowhere.

use sd_sink::{Sink, SinkFault};

/// A sink that only counts its bytes. What it has room for tells how many there were.
#[derive(Drop)]
pub struct Counter {
    pub count: usize,
    pub failures: u64,
}

impl Sink for Counter {
    ghost use Rattle.std.specs.Prelude.{None, ◌-◌, ◌^◌};

    ghost told = { λ s. record { identity = 0; contents = None; failures = s.failures; room = 2 ^ 64 - 1 - s.count } };

    fn put(&mut self, bytes: &[u8]) -> Result<(), SinkFault> {
        if bytes.len() > usize::MAX - self.count {
            self.failures = self.failures.saturating_add(1);
            return Err(SinkFault);
        }
        self.count += bytes.len();
        Ok(())
    }
}
