//! Numbers that a seed determines.

ghost use Rattle.std.specs.Prelude.{◌<◌};

/// A linear congruential generator, of which the upper bits are taken (Knuth, The Art of Computer Programming,
/// volume 2, section 3.2.1).
#[derive(Clone, Copy)]
pub struct Numbers {
    state: u64,
}

impl Numbers {
    pub fn new(seed: u64) -> Numbers {
        Numbers { state: seed }
    }

    fn step(&mut self) {
        self.state = self
            .state
            .wrapping_mul(6_364_136_223_846_793_005)
            .wrapping_add(1_442_695_040_888_963_407);
    }

    /// A number below 64.
    pub fn below_64(&mut self) -> usize
        ensures { result < 64 }
    {
        self.step();
        (self.state >> 32) as usize / (1 << 26) % 64
    }

    /// Whether one case in 1,024 is here.
    pub fn is_rare(&mut self) -> bool {
        self.step();
        self.state >> 54 == 0
    }

    /// A byte.
    pub fn byte(&mut self) -> u8 {
        self.step();
        self.state.to_be_bytes()[0]
    }
}
