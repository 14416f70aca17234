//! Bytes printed as hex.

ghost use Rattle.std.specs.Prelude.{◌≡◌, ◌≤◌, ◌<◌, ◌*◌, ◌++◌, ◌∷◌, [], ℕ, length, map, slice_index, take};
ghost use Rattle.std.specs.Simd.Lanes.{Each1};
ghost use Rattle.hex.specs.Hex.{encode_lower, lower_digits};
ghost use Rattle.sd_sink.specs.Print.{Prints};
ghost use Rattle.sd_sink.specs.Sink.{Puts};
ghost use Rattle.sd_answer.specs.LineEnd.{line_feed};

use sd_sink::{Print, Sink, SinkFault};
use std::simd::prelude::*;

/// The characters that are gathered before they are printed: of hex 512 bytes, of base64 768.
pub const SPELLED: usize = 1024;

/// The bytes whose digits fill the cells.
const PIECE: usize = SPELLED / 2;

/// The bytes that are encoded at once: they fill a vector.
const BLOCK: usize = 16;

/// The digits of a block.
const DIGITS: usize = 2 * BLOCK;

/// Each digit of sixteen with the one of sixteen others behind it.
const HIGH_AND_LOW: [usize; DIGITS] = [
    0, 16, 1, 17, 2, 18, 3, 19, 4, 20, 5, 21, 6, 22, 7, 23, 8, 24, 9, 25, 10, 26, 11, 27, 12, 28,
    13, 29, 14, 30, 15, 31,
];

/// Prints the bytes as lower-case hex, by way of the cells.
pub fn print_as_hex<P: Print>(bytes: &[u8], cells: &mut [u8; SPELLED], out: &mut P)
    ensures { Prints (P.told out.old) (P.told out.new) (encode_lower bytes.now) }
{
    let mut at = 0;
    while at < bytes.len() {
        let n = (bytes.len() - at).min(PIECE);
        let digits = encode_hex(&bytes[at..at + n], cells);
        out.put(&cells[..digits]);
        at += n;
    }
}

/// Puts the bytes as lower-case hex, with an LF behind them, by way of the cells. The last piece leaves room for it.
pub fn put_as_hex<S: Sink>(
    bytes: &[u8],
    cells: &mut [u8; SPELLED],
    sink: &mut S,
) -> Result<(), SinkFault>
    ensures { Puts (S.told sink.old) (S.told sink.new) (encode_lower bytes.now ++ line_feed ∷ []) result }
{
    let mut at = 0;
    while bytes.len() - at >= PIECE {
        let digits = encode_hex(&bytes[at..at + PIECE], cells);
        if let Err(fault) = sink.put(&cells[..digits]) {
            return Err(fault);
        }
        at += PIECE;
    }
    let count = encode_hex(&bytes[at..], cells);
    cells[count] = b'\n';
    sink.put(&cells[..count + 1])
}

// Encodes to the front of the cells, and says how many digits there are. The last block ends with the bytes, so it may
// begin with some that were encoded before. The crate `hex` encodes what is shorter than a block.
fn encode_hex(bytes: &[u8], cells: &mut [u8]) -> usize
    requires { 2 * length bytes.now ≤ length cells.old }
    ensures count { result ≡ 2 * length bytes.now }
    ensures digits { take result cells.new ≡ encode_lower bytes.now }
{
    let count = bytes.len();
    if count < BLOCK {
        // The room is exactly that of the digits.
        let _ = hex::encode_to_slice(bytes, &mut cells[..2 * count]);
        return 2 * count;
    }
    let mut done = 0;
    while done < count {
        let at = done.min(count - BLOCK);
        let digits = block_digits(&bytes[at..at + BLOCK]);
        cells[2 * at..2 * at + DIGITS].copy_from_slice(&digits);
        done = at + BLOCK;
    }
    2 * count
}

// The digits of a block of bytes.
#[inline(always)]
fn block_digits(bytes: &[u8]) -> [u8; DIGITS]
    requires { length bytes.now ≡ 16 }
    ensures { result ≡ encode_lower bytes.now }
{
    let lanes = u8x16::from_slice(bytes);
    let high = digits_of(lanes / u8x16::splat(16));
    let low = digits_of(lanes % u8x16::splat(16));
    high.shuffle(low, HIGH_AND_LOW).to_array()
}

// The lower-case digits of values.
#[inline(always)]
fn digits_of(values: u8x16) -> u8x16
    requires { Each1 (λ (v : ℕ). v < 16) values }
    ensures { result ≡ map (λ (v : ℕ). slice_index lower_digits v) values }
{
    let is_letter = values.simd_gt(u8x16::splat(9));
    values + u8x16::splat(b'0') + is_letter.select(u8x16::splat(b'a' - 10 - b'0'), u8x16::splat(0))
}
