//! Where the answers of a column begin and end, in offsets of either size.

ghost use Rattle.std.specs.Prelude.{◌≡◌, ◌≤◌, ◌<◌, ◌+◌, ◌^◌, ℕ, length, map, take, drop, slice_index};
ghost use Rattle.sd_call_convert.specs.Many.{lengths, most_small};

use sd_call::Outcome;

/// An offset of 32 or of 64 bits.
pub trait Offset: Copy {
    ghost number: { Self → ℕ };

    /// How far it reaches.
    ghost most: { ℕ };

    fn at(place: usize) -> Self
        requires { place ≤ most }
        ensures { number result ≡ place };
}

impl Offset for u32 {
    ghost number = { λ offset. offset };

    ghost most = { most_small };

    fn at(place: usize) -> u32 {
        place as u32
    }
}

impl Offset for u64 {
    ghost number = { λ offset. offset };

    ghost most = { 0xFFFF_FFFF_FFFF_FFFF };

    fn at(place: usize) -> u64 {
        place as u64
    }
}

/// Writes where the answers begin and end.
pub fn write_ends<T: Offset>(begin: usize, outcomes: &[Outcome], offsets: &mut [T])
    requires room { length outcomes.now < length offsets.old }
    requires reaches { begin + lengths outcomes.now ≤ T.most }
    requires fits { begin + lengths outcomes.now < 2 ^ 64 }
    ensures ends { (k : ℕ) → k ≤ length outcomes.now
        → slice_index (map T.number offsets.new) k ≡ begin + lengths (take k outcomes.now) }
    ensures rest { drop (length outcomes.now + 1) (map T.number offsets.new)
        ≡ drop (length outcomes.now + 1) (map T.number offsets.old) }
{
    let mut at = begin;
    offsets[0] = T::at(at);
    for i in 0..outcomes.len() {
        at += outcomes[i].length;
        offsets[i + 1] = T::at(at);
    }
}
