//! Bytes printed as base64.

ghost use Rattle.std.specs.Prelude.{◌≡◌, ◌≤◌, ◌<◌, ◌*◌, ◌/◌, ◌+◌, ℕ, length, map, slice_index, take};
ghost use Rattle.std.specs.Simd.Lanes.{Each1};
ghost use Rattle.base64.specs.Engines.{standard};
ghost use Rattle.base64.specs.GeneralPurpose.{encode_of, encoded_size_of, engine_symbols};
ghost use Rattle.sd_sink.specs.Print.{Prints};

use crate::hex_text::SPELLED;
use base64::engine::general_purpose::STANDARD;
use sd_sink::Print;
use std::simd::prelude::*;

/// The bytes of a vector. Twelve of them are encoded at once, to as many symbols as it has.
const LANES: usize = 16;

/// Prints the bytes as base64 (RFC 4648, section 4), by way of the cells.
pub fn print_as_base64<P: Print>(bytes: &[u8], cells: &mut [u8; SPELLED], out: &mut P)
    ensures { Prints (P.told out.old) (P.told out.new) (encode_of standard bytes.now) }
{
    let mut at = 0;
    while at < bytes.len() {
        // Of a multiple of three bytes, so that the last piece alone has padding.
        let n = (bytes.len() - at).min(SPELLED / 4 * 3);
        let characters = encode_base64(&bytes[at..at + n], cells);
        out.put(&cells[..characters]);
        at += n;
    }
}

// Encodes to the front of the cells, and says how many characters there are. Blocks are encoded at once, and the rest
// by the crate `base64`.
fn encode_base64(bytes: &[u8], cells: &mut [u8]) -> usize
    requires { encoded_size_of standard (length bytes.now) ≤ length cells.old }
    ensures count { result ≤ length cells.new }
    ensures characters { take result cells.new ≡ encode_of standard bytes.now }
{
    let mut groups = 0;
    while 3 * groups + LANES <= bytes.len() {
        let symbols = block_symbols(&bytes[3 * groups..3 * groups + LANES]);
        cells[4 * groups..4 * groups + LANES].copy_from_slice(&symbols);
        groups += LANES / 4;
    }
    4 * groups + encode_rest(&bytes[3 * groups..], &mut cells[4 * groups..])
}

// The same, group by group.
fn encode_rest(bytes: &[u8], cells: &mut [u8]) -> usize
    requires { encoded_size_of standard (length bytes.now) ≤ length cells.old }
    ensures count { result ≤ length cells.new }
    ensures characters { take result cells.new ≡ encode_of standard bytes.now }
{
    // There is room for them.
    STANDARD.encode_slice(bytes, cells).unwrap_or(0)
}

// The symbols of the first twelve of sixteen bytes. Each three of them become the last bytes of a word of 32 bits, and
// are then moved to its four bytes.
#[inline(always)]
fn block_symbols(bytes: &[u8]) -> [u8; LANES]
    requires { length bytes.now ≡ 16 }
    ensures { result ≡ encode_of standard (take 12 bytes.now) }
{
    let lanes = u8x16::from_slice(bytes);
    let spread = lanes.shuffle(
        u8x16::splat(0),
        [2, 1, 0, 16, 5, 4, 3, 16, 8, 7, 6, 16, 11, 10, 9, 16],
    );
    let groups = u32x4::from_le_bytes(spread);
    let six_bits = u32x4::splat(1 << 6);
    let first = groups / u32x4::splat(1 << 18);
    let second = groups / u32x4::splat(1 << 12) % six_bits * u32x4::splat(1 << 8);
    let third = groups / six_bits % six_bits * u32x4::splat(1 << 16);
    let fourth = groups % six_bits * u32x4::splat(1 << 24);
    let values = first + second + third + fourth;
    symbols_of(values.to_le_bytes()).to_array()
}

// The symbols of values: capital letters, small letters, digits, `+` and `/`. Each run of symbols begins a step away
// from the end of the run before it.
#[inline(always)]
fn symbols_of(values: u8x16) -> u8x16
    requires { Each1 (λ (v : ℕ). v < 64) values }
    ensures { result ≡ map (λ (v : ℕ). slice_index (engine_symbols standard) v) values }
{
    let none = u8x16::splat(0);
    let small = values
        .simd_ge(u8x16::splat(26))
        .select(u8x16::splat(6), none);
    let digit = values
        .simd_ge(u8x16::splat(52))
        .select(u8x16::splat(75), none);
    let plus = values
        .simd_ge(u8x16::splat(62))
        .select(u8x16::splat(15), none);
    let slash = values
        .simd_ge(u8x16::splat(63))
        .select(u8x16::splat(3), none);
    values + u8x16::splat(b'A') + small - digit - plus + slash
}
