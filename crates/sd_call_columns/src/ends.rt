//! Where the answers to the rows of a column begin and end.

ghost use Rattle.std.specs.Prelude.{◌≡◌, ◌≤◌, ◌<◌, ◌+◌, ◌^◌, ℕ, length, take, drop, slice_index};
ghost use Rattle.sd_call_columns.specs.Answered.{lengths};

use sd_call::Outcome;

/// Writes these places as offsets of 32 bits.
pub(crate) fn write_ends(begin: usize, outcomes: &[Outcome], offsets: &mut [u32])
    requires room { length outcomes.now < length offsets.old }
    requires fits { begin + lengths outcomes.now < 2 ^ 32 }
    ensures ends { (k : ℕ) → k ≤ length outcomes.now
        → slice_index offsets.new k ≡ begin + lengths (take k outcomes.now) }
    ensures rest { drop (length outcomes.now + 1) offsets.new ≡ drop (length outcomes.now + 1) offsets.old }
{
    let mut at = begin;
    offsets[0] = at as u32;
    for i in 0..outcomes.len() {
        at += outcomes[i].length;
        offsets[i + 1] = at as u32;
    }
}

/// Writes these places as offsets of 64 bits.
pub(crate) fn write_large_ends(begin: usize, outcomes: &[Outcome], offsets: &mut [u64])
    requires room { length outcomes.now < length offsets.old }
    requires fits { begin + lengths outcomes.now < 2 ^ 64 }
    ensures ends { (k : ℕ) → k ≤ length outcomes.now
        → slice_index offsets.new k ≡ begin + lengths (take k outcomes.now) }
    ensures rest { drop (length outcomes.now + 1) offsets.new ≡ drop (length outcomes.now + 1) offsets.old }
{
    let mut at = begin;
    offsets[0] = at as u64;
    for i in 0..outcomes.len() {
        at += outcomes[i].length;
        offsets[i + 1] = at as u64;
    }
}
