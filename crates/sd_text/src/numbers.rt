//! The numbers that digits write, in rights and in SIDs.

ghost use Rattle.std.specs.Prelude.{◌≡◌, ◌<◌, ◌≤◌, ◌+◌, ◌*◌, ◌/◌, ◌%◌, ◌^◌, length, take, get_or, true, false, IfSome};
ghost use Rattle.std.specs.Prelude.{Some};
ghost use Rattle.std.specs.Char.{is_digit};
ghost use Rattle.std.specs.Int.{from_le_bytes, w64};
ghost use Rattle.std.specs.List.{list_all};
ghost use Rattle.sd_text.specs.LimitValues.{LimitValues};
ghost use Rattle.sd_text.specs.Numbers.{number, number_after};

use crate::usual::shift_of;

/// The digits that a decimal number has at most.
const MOST_DIGITS: usize = 10;

const ZERO: u64 = b'0' as u64;

const NINE: u64 = b'9' as u64;

/// The digits that are read at once, if there are as many.
const BLOCK: usize = 8;

/// The digit zero in each byte of a block.
const ZEROS: u64 = 0x3030_3030_3030_3030;

/// In each byte of a block what sets the highest bit of a byte above the digit nine.
const TO_HIGHEST: u64 = 0x4646_4646_4646_4646;

/// The highest bit of each byte of a block.
const HIGHEST_BITS: u64 = 0x8080_8080_8080_8080;

/// The number that the text writes, if each byte is a digit and the number is below the limit. No digits write 0.
#[tactic(auto, unfolding(crate::specs::LimitValues::LimitValues))]
pub fn read_number(base: u32, limit: u64, text: &[u8]) -> Option<u64>
    requires low { 2 ≤ base }
    requires high { base ≤ 16 }
    requires small { limit ≤ 2 ^ 48 }
    requires some { 0 < limit }
    ensures value { result ≡ number base limit text.now }
    ensures limit { IfSome result (λ n. n < limit) }
    // The limits of texts have the values that LimitValues writes out.
    ensures values { LimitValues }
{
    let mut number: u64 = 0;
    for byte in text {
        let digit = char::from(*byte).to_digit(base)?;
        number = number * u64::from(base) + u64::from(digit);
        if number >= limit {
            return None;
        }
    }
    Some(number)
}

/// The decimal number that the digits at the front write, ten of them at most, and how many these are. Where there are
/// fewer, the next byte is no digit.
#[inline(always)]
pub fn front_decimal(text: &[u8]) -> (u64, usize)
    ensures few { result.1 ≤ 10 }
    ensures within { result.1 ≤ length text.now }
    ensures number { number_after 10 0 (take result.1 text.now) ≡ Some result.0 }
    ensures ends { result.1 < 10 → result.1 < length text.now → is_digit (get_or text.now result.1 0) 10 ≡ false }
{
    if text.len() < MOST_DIGITS {
        return few_digits(0, text);
    }
    // Most sub-authorities of a domain have eight digits or more.
    let block = &text[..BLOCK];
    if !are_digits(block) {
        return short_decimal(block);
    }
    let (number, count) = few_digits(block_number(block), &text[BLOCK..MOST_DIGITS]);
    (number, BLOCK + count)
}

// Whether all bytes of a block are digits, found for all of them at once. The sum sets the highest bit of a byte above
// '9', and the difference that of a byte below '0', or of one so large that its sum overflows. A carry or a borrow only
// comes out of a byte that is no digit, so the first such byte is always found, and digits set none of these bits.
#[inline(always)]
fn are_digits(block: &[u8]) -> bool
    requires { length block.now ≡ 8 }
    ensures { result ≡ list_all (λ b. is_digit b 10) block.now }
{
    let word = block_word(block);
    let others = word.wrapping_add(TO_HIGHEST) | word.wrapping_sub(ZEROS);
    others & HIGHEST_BITS == 0
}

// The number that the digits of a block write. Each two digits become a number, then each four, then all eight, and
// each step does the whole block at once.
#[inline(always)]
fn block_number(block: &[u8]) -> u64
    requires size { length block.now ≡ 8 }
    requires digits { list_all (λ b. is_digit b 10) block.now ≡ true }
    ensures number { number_after 10 0 block.now ≡ Some result }
    ensures small { result < 10 ^ 8 }
{
    let digits = block_word(block) - ZEROS;
    let pairs = digits * 10 + digits / 256;
    let first = outer_bytes(pairs).wrapping_mul(100 + (1_000_000 << 32));
    let second = outer_bytes(pairs / 65_536).wrapping_mul(1 + (10_000 << 32));
    first.wrapping_add(second) / (1 << 32)
}

// The number at the front of a block that has another byte among its digits. The digits before that byte are moved to
// the end of the block, with zeros before them, and read as a block.
#[inline(always)]
fn short_decimal(block: &[u8]) -> (u64, usize)
    requires { length block.now ≡ 8 }
    ensures within { result.1 ≤ length block.now }
    ensures number { number_after 10 0 (take result.1 block.now) ≡ Some result.0 }
    ensures ends { result.1 < length block.now → is_digit (get_or block.now result.1 0) 10 ≡ false }
{
    let word = block_word(block);
    let count = digits_in(word);
    let moved = word.wrapping_sub(ZEROS).wrapping_mul(shift_of(count));
    let filled = moved.wrapping_add(ZEROS).to_le_bytes();
    let next = u64::from(block[count]);
    if !are_digits(&filled) || (ZERO <= next && next <= NINE) {
        return few_digits(0, block);
    }
    (block_number(&filled), count)
}

// How many bytes of a word are digits, from the lowest on, if one of them is none. Its contract does not say that this
// is right: `short_decimal` tests the digits that it moves.
#[inline(always)]
fn digits_in(word: u64) -> usize
    ensures { result < 8 }
{
    let others = (word.wrapping_add(TO_HIGHEST) | word.wrapping_sub(ZEROS)) & HIGHEST_BITS;
    (others.trailing_zeros() / 8 % 8) as usize
}

// The bytes of a block as a word, the first byte lowest. It has no `inline(always)`: compiled by itself it becomes one
// load, and merged with its caller eight (bench/README.md).
fn block_word(block: &[u8]) -> u64
    requires { length block.now ≡ 8 }
    ensures { result ≡ from_le_bytes w64 block.now }
{
    u64::from_le_bytes([
        block[0], block[1], block[2], block[3], block[4], block[5], block[6], block[7],
    ])
}

// The lowest byte of each half of a word.
#[inline(always)]
fn outer_bytes(word: u64) -> u64
    ensures { result ≡ word / 2 ^ 32 % 256 * 2 ^ 32 + word % 256 }
{
    word / (1 << 32) % 256 * (1 << 32) + word % 256
}

// The number that the digits at the front write behind those of another, and how many these are.
#[inline(always)]
fn few_digits(before: u64, text: &[u8]) -> (u64, usize)
    requires before { before < 10 ^ 8 }
    requires few { length text.now ≤ 10 }
    ensures within { result.1 ≤ length text.now }
    ensures number { number_after 10 before (take result.1 text.now) ≡ Some result.0 }
    ensures ends { result.1 < length text.now → is_digit (get_or text.now result.1 0) 10 ≡ false }
{
    let mut number = before;
    for (i, byte) in text.iter().enumerate() {
        let byte = u64::from(*byte);
        if byte < ZERO || NINE < byte {
            return (number, i);
        }
        number = number * 10 + (byte - ZERO);
    }
    (number, text.len())
}
