//! A digest of bytes, in whatever pieces they come.

use std::fmt;
use std::io::{self, Write};

/// The bytes that are digested together.
const GATHERED: usize = 1024;

const WORD: usize = 8;

/// A writer that keeps a digest of its bytes, and their number.
#[derive(Drop)]
pub struct Digest {
    cells: [u8; GATHERED],
    held: usize,
    state: u64,
    count: u64,
}

impl Digest {
    pub fn new() -> Digest {
        Digest {
            cells: [0; GATHERED],
            held: 0,
            state: 0,
            count: 0,
        }
    }

    /// Adds a number.
    pub fn add(&mut self, number: u64) {
        self.state = mixed(self.state, number);
        self.count = self.count.saturating_add(1);
    }

    // Digests all cells. Those that no byte reached are zeros.
    fn digest(&mut self) {
        for word in self.cells.chunks_exact(WORD) {
            if let Some(word) = word.first_chunk::<WORD>() {
                self.state = mixed(self.state, u64::from_le_bytes(*word));
            }
        }
        self.cells = [0; GATHERED];
        self.held = 0;
    }

    /// The digest of all bytes.
    pub fn end(&mut self) {
        self.digest();
    }
}

fn mixed(state: u64, word: u64) -> u64 {
    let product = (state ^ word).wrapping_mul(0x9E37_79B9_7F4A_7C15);
    product ^ (product >> 32)
}

impl Write for Digest {
    fn write(&mut self, bytes: &[u8]) -> io::Result<usize> {
        let Some(mut room) = self.cells.get_mut(self.held..) else {
            return Ok(0);
        };
        let n = room.write(bytes)?;
        self.held = self.held.saturating_add(n);
        self.count = self.count.saturating_add(n as u64);
        if self.held >= GATHERED {
            self.digest();
        }
        Ok(n)
    }

    fn flush(&mut self) -> io::Result<()> {
        Ok(())
    }
}

impl fmt::Display for Digest {
    fn fmt<W: fmt::Write>(&self, f: &mut fmt::Formatter<W>) -> fmt::Result {
        let (count, state) = (self.count, self.state);
        write!(f, "{count} {state:016x}")
    }
}
