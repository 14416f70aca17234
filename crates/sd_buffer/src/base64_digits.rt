//! Base64 read in blocks, beside the crate `base64`, whose definition is their contract.

ghost use Rattle.std.specs.Prelude.{◌≡◌, ◌≤◌, ◌<◌, ◌+◌, ◌-◌, ◌*◌, ◌%◌, ◌^◌, ◌==◌, ℕ, true, false, length, take, drop};
ghost use Rattle.std.specs.Prelude.{map, if◌then◌else◌, nat_lt};
ghost use Rattle.std.specs.Simd.Lanes.{Each1};
ghost use Rattle.base64.specs.Decode.{decoded_estimate};
ghost use Rattle.base64.specs.Engines.{standard};
ghost use Rattle.base64.specs.GeneralPurpose.{encode_of};
ghost use Rattle.sd_buffer.specs.Inner.Base64Blocks.{AreSixBits, HasOther, joined_groups};

use std::simd::prelude::*;

/// The characters that are read at once: they fill a vector of 16 bytes.
const BLOCK: usize = 16;

/// The groups of four characters in a block.
const GROUPS: usize = BLOCK / 4;

// Decodes whole blocks of symbols, up to one that has another character, to the front of the cells. Says how many
// groups of four symbols these are. Padding is no symbol, so the block that has it is left. Each block is stored with
// four zeros behind its bytes, so a last one without the room for these is left too.
pub(crate) fn decode_blocks(text: &[u8], cells: &mut [u8]) -> usize
    requires { decoded_estimate (length text.now) ≤ length cells.old }
    ensures within { 4 * result ≤ length text.now }
    ensures spelled { take (4 * result) text.now ≡ encode_of standard (take (3 * result) cells.new) }
    ensures ended { 4 * result + 16 ≤ length text.now → 3 * result + 16 ≤ length cells.old
        → HasOther (take 16 (drop (4 * result) text.now)) }
{
    let mut groups = 0;
    while 4 * groups + BLOCK <= text.len() && 3 * groups + BLOCK <= cells.len() {
        let (values, are_symbols) = values_of(&text[4 * groups..4 * groups + BLOCK]);
        if !are_symbols {
            return groups;
        }
        let bytes = join(values);
        cells[3 * groups..3 * groups + BLOCK].copy_from_slice(&bytes);
        groups += GROUPS;
    }
    groups
}

// The values of a block of symbols, and whether all of the characters are symbols.
#[inline(always)]
fn values_of(text: &[u8]) -> (u8x16, bool)
    requires { length text.now ≡ 16 }
    ensures symbols { result.1 ≡ true → AreSixBits text.now result.0 }
    ensures other { result.1 ≡ false → HasOther text.now }
{
    let symbols = u8x16::from_slice(text);
    let shifts = shifts_in(symbols, b'A', 26, 191)
        + shifts_in(symbols, b'a', 26, 185)
        + shifts_in(symbols, b'0', 10, 4)
        + shifts_at(symbols, b'+', 19)
        + shifts_at(symbols, b'/', 16);
    let others = shifts.simd_eq(u8x16::splat(0)).to_bitmask();
    (symbols + shifts, others == 0)
}

// How far the value of each symbol of a run is above it, modulo 256. It is 0 for other symbols.
#[inline(always)]
fn shifts_in(symbols: u8x16, first: u8, count: u8, shift: u8) -> u8x16
    ensures { result ≡ map (λ (c : ℕ). if nat_lt ((c + (2 ^ 8 - first)) % 2 ^ 8) count then shift else 0) symbols }
{
    let places = symbols - u8x16::splat(first);
    let is_in = places.simd_lt(u8x16::splat(count));
    is_in.select(u8x16::splat(shift), u8x16::splat(0))
}

// The same for one symbol.
#[inline(always)]
fn shifts_at(symbols: u8x16, symbol: u8, shift: u8) -> u8x16
    ensures { result ≡ map (λ (c : ℕ). if c == symbol then shift else 0) symbols }
{
    let is_at = symbols.simd_eq(u8x16::splat(symbol));
    is_at.select(u8x16::splat(shift), u8x16::splat(0))
}

// The bytes of four groups of four values, and four zeros. A group is a word of 32 bits, and its bytes are stored from
// the last one on.
#[inline(always)]
fn join(values: u8x16) -> [u8; BLOCK]
    requires { Each1 (λ (v : ℕ). v < 64) values }
    ensures { take 12 result ≡ joined_groups values }
{
    let groups = u32x4::from_le_bytes(values);
    let byte = u32x4::splat(1 << 8);
    let first = groups % byte * u32x4::splat(1 << 18);
    let second = groups / byte % byte * u32x4::splat(1 << 12);
    let third = groups / u32x4::splat(1 << 16) % byte * u32x4::splat(1 << 6);
    let fourth = groups / u32x4::splat(1 << 24);
    let bits = first + second + third + fourth;
    bits.to_le_bytes()
        .swizzle([2, 1, 0, 6, 5, 4, 10, 9, 8, 14, 13, 12, 3, 7, 11, 15])
        .to_array()
}
