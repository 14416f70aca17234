//! Numbers in digits.

ghost use Rattle.std.specs.Prelude.{◌≡◌, false, ◌+◌, ◌-◌, ◌*◌, ◌/◌, ◌%◌, ◌^◌, ◌<◌, ◌≤◌, ◌∷◌, ◌++◌, codes, length, take};
ghost use Rattle.std.specs.Fmt.{decimal, digit_glyph, digits};
ghost use Rattle.std.specs.Int.{to_le_bytes, w64};
ghost use Rattle.sd_sink.specs.Print.{Prints};
ghost use Rattle.sd_text.specs.Numbers.{hex_digits};
ghost use Rattle.sd_text.specs.Inner.Digits.{IsWritten, eight_digits, four_digits, two_digits};

use sd_sink::{FRONT, Print};

/// Both digits of each number below 100.
static PAIRS: [u8; 200] =
    *b"0001020304050607080910111213141516171819202122232425262728293031323334353637383940414243444546474849\
    5051525354555657585960616263646566676869707172737475767778798081828384858687888990919293949596979899";

/// Both hex digits of each byte.
static HEX_PAIRS: [u8; 512] =
    *b"000102030405060708090a0b0c0d0e0f101112131415161718191a1b1c1d1e1f202122232425262728292a2b2c2d2e2f30313233\
    3435363738393a3b3c3d3e3f404142434445464748494a4b4c4d4e4f505152535455565758595a5b5c5d5e5f6061626364656667\
    68696a6b6c6d6e6f707172737475767778797a7b7c7d7e7f808182838485868788898a8b8c8d8e8f909192939495969798999a9b\
    9c9d9e9fa0a1a2a3a4a5a6a7a8a9aaabacadaeafb0b1b2b3b4b5b6b7b8b9babbbcbdbebfc0c1c2c3c4c5c6c7c8c9cacbcccdcecf\
    d0d1d2d3d4d5d6d7d8d9dadbdcdddedfe0e1e2e3e4e5e6e7e8e9eaebecedeeeff0f1f2f3f4f5f6f7f8f9fafbfcfdfeff";

/// The hex digits in lower case.
static HEX_DIGITS: [u8; 16] = *b"0123456789abcdef";

/// The digit zero in each byte of a word.
const ZEROS: u64 = 0x3030_3030_3030_3030;

/// Prints a number in decimal, without leading zeros.
///
/// ```
/// let mut sink = TextSink::new(&rt);
/// let mut out = Printer::new(&mut sink);
/// print_decimal(544, &mut out);
/// assert!(rt; out.finish() == Ok(()));
/// assert!(rt; sink.bytes() == b"544".as_slice());
/// ```
pub fn print_decimal<P: Print>(number: u32, out: &mut P)
    ensures { Prints (P.told out.old) (P.told out.new) (decimal number) }
{
    // Most of these numbers have one digit.
    if number < 10 {
        return out.put(&[b'0' + number as u8]);
    }
    let mut cells = [0; FRONT];
    let end = write_decimal(number, &mut cells, 0);
    out.put_front(&cells, end);
}

/// Prints a character and a number in decimal.
#[inline(always)]
pub fn print_decimal_behind<P: Print>(character: u8, number: u32, out: &mut P)
    ensures { Prints (P.told out.old) (P.told out.new) (character ∷ decimal number) }
{
    let mut cells = [0; FRONT];
    cells[0] = character;
    let end = write_decimal(number, &mut cells, 1);
    out.put_front(&cells, end);
}

/// Prints the last hex digits of a number, as many as are asked for, with leading zeros.
///
/// ```
/// let mut sink = TextSink::new(&rt);
/// let mut out = Printer::new(&mut sink);
/// print_hex(4, 0x220, &mut out);
/// assert!(rt; out.finish() == Ok(()));
/// assert!(rt; sink.bytes() == b"0220".as_slice());
/// ```
pub fn print_hex<P: Print>(digits: usize, number: u64, out: &mut P)
    requires { digits ≤ 16 }
    ensures { Prints (P.told out.old) (P.told out.new) (hex_digits digits number) }
{
    let mut cells = [0; FRONT];
    write_hex(digits, number, &mut cells);
    out.put_front(&cells, digits);
}

/// Prints `0x` and a number in hex, without leading zeros.
///
/// ```
/// let mut sink = TextSink::new(&rt);
/// let mut out = Printer::new(&mut sink);
/// print_hex_number(0x1f01ff, &mut out);
/// assert!(rt; out.finish() == Ok(()));
/// assert!(rt; sink.bytes() == b"0x1f01ff".as_slice());
/// ```
pub fn print_hex_number<P: Print>(number: u32, out: &mut P)
    ensures { Prints (P.told out.old) (P.told out.new) (codes "0x" ++ digits 16 false number) }
{
    let mut cells = [0; FRONT];
    let end = write_hex_number(number, &mut cells);
    out.put_front(&cells, end);
}

// Writes `0x` and a number in hex, without leading zeros, and says where it ends. What is behind the end is no digit of
// the number: the leading zeros are moved out to the left, so that the first digit is the first of eight.
#[inline(always)]
fn write_hex_number(number: u32, cells: &mut [u8; FRONT]) -> usize
    ensures written { take result cells.new ≡ codes "0x" ++ digits 16 false number }
    ensures within { result ≤ 10 }
{
    let zeros = leading_hex_zeros(number);
    cells[0] = b'0';
    cells[1] = b'x';
    write_hex_eight(u64::from(number) << (4 * zeros), cells, 2);
    10 - zeros
}

// How many of the eight hex digits of a number are zeros in front of it. The number 0 has a digit too.
#[inline(always)]
fn leading_hex_zeros(number: u32) -> usize
    ensures few { result ≤ 7 }
    ensures digits { hex_digits (8 - result) number ≡ digits 16 false number }
{
    (number | 1).leading_zeros() as usize / 4
}

// Writes as many hex digits of a number, the last ones, to the front.
fn write_hex(digits: usize, number: u64, cells: &mut [u8; FRONT])
    requires { digits ≤ 16 }
    ensures { take digits cells.new ≡ hex_digits digits number }
{
    // Most calls ask for the eight digits of an access mask.
    if digits == 8 {
        write_hex_eight(number, cells, 0);
        return;
    }
    let mut left = number;
    let mut at = digits;
    while at > 0 {
        at -= 1;
        cells[at] = hex_digit((left % 16) as u8);
        left /= 16;
    }
}

// Writes the last eight hex digits of a number, a byte's two at once and with no loop.
#[inline(always)]
fn write_hex_eight(number: u64, cells: &mut [u8; FRONT], at: usize)
    requires { at + 8 ≤ 16 }
    ensures { IsWritten at (hex_digits 8 number) (at + 8) cells.old cells.new }
{
    write_hex_pair(number / (1 << 24), cells, at);
    write_hex_pair(number / (1 << 16), cells, at + 2);
    write_hex_pair(number / (1 << 8), cells, at + 4);
    write_hex_pair(number, cells, at + 6);
}

// Writes the last two hex digits of a number.
#[inline(always)]
fn write_hex_pair(number: u64, cells: &mut [u8; FRONT], at: usize)
    requires { at + 2 ≤ 16 }
    ensures { IsWritten at (hex_digits 2 number) (at + 2) cells.old cells.new }
{
    let from = 2 * (number % 256) as usize;
    let (first, second) = (HEX_PAIRS[from], HEX_PAIRS[from + 1]);
    cells[at] = first;
    cells[at + 1] = second;
}

// The lower-case digit of a value.
#[inline(always)]
fn hex_digit(value: u8) -> u8
    requires { value < 16 }
    ensures { result ≡ digit_glyph false value }
{
    HEX_DIGITS[usize::from(value)]
}

// Writes a number in decimal from a place on, and says where it ends. There is no loop: ten digits are the most.
#[inline(always)]
fn write_decimal(number: u32, cells: &mut [u8; FRONT], at: usize) -> usize
    requires { at ≤ 1 }
    ensures written { IsWritten at (decimal number) result cells.old cells.new }
    ensures within { result ≤ at + 10 }
{
    if number < 10_000 {
        return write_first_four(number, cells, at);
    }
    if number < 100_000_000 {
        let end = write_first_four(number / 10_000, cells, at);
        write_four(number % 10_000, cells, end);
        return end + 4;
    }
    // Each branch copies the word to a place that it knows, which costs less than one copy behind both.
    let last = digits_word(number % 100_000_000);
    let first = number / 100_000_000;
    if first < 10 {
        write_digit(first, cells, at);
        write_word(last, cells, at + 1);
        return at + 9;
    }
    write_pair(first, cells, at);
    write_word(last, cells, at + 2);
    at + 10
}

// Writes a number of at most four digits, without leading zeros, and says where it ends.
#[inline(always)]
fn write_first_four(number: u32, cells: &mut [u8; FRONT], at: usize) -> usize
    requires short { number < 10000 }
    requires room { at + 4 ≤ 16 }
    ensures written { IsWritten at (decimal number) result cells.old cells.new }
    ensures within { result ≤ at + 4 }
{
    if number < 100 {
        return write_first_two(number, cells, at);
    }
    let end = write_first_two(number / 100, cells, at);
    write_pair(number % 100, cells, end);
    end + 2
}

// The same for one or two digits.
#[inline(always)]
fn write_first_two(number: u32, cells: &mut [u8; FRONT], at: usize) -> usize
    requires short { number < 100 }
    requires room { at + 2 ≤ 16 }
    ensures written { IsWritten at (decimal number) result cells.old cells.new }
    ensures within { result ≤ at + 2 }
{
    if number < 10 {
        write_digit(number, cells, at);
        return at + 1;
    }
    write_pair(number, cells, at);
    at + 2
}

// Writes a number of one digit.
#[inline(always)]
fn write_digit(number: u32, cells: &mut [u8; FRONT], at: usize)
    requires short { number < 10 }
    requires room { at + 1 ≤ 16 }
    ensures { IsWritten at (decimal number) (at + 1) cells.old cells.new }
{
    cells[at] = b'0' + number as u8;
}

// Writes four digits, leading zeros too.
#[inline(always)]
fn write_four(number: u32, cells: &mut [u8; FRONT], at: usize)
    requires short { number < 10000 }
    requires room { at + 4 ≤ 16 }
    ensures { IsWritten at (four_digits number) (at + 4) cells.old cells.new }
{
    write_pair(number / 100, cells, at);
    write_pair(number % 100, cells, at + 2);
}

// Writes both digits of a number below 100.
#[inline(always)]
fn write_pair(pair: u32, cells: &mut [u8; FRONT], at: usize)
    requires short { pair < 100 }
    requires room { at + 2 ≤ 16 }
    ensures { IsWritten at (two_digits pair) (at + 2) cells.old cells.new }
{
    let from = 2 * pair as usize;
    let (tens, ones) = (PAIRS[from], PAIRS[from + 1]);
    cells[at] = tens;
    cells[at + 1] = ones;
}

// Writes the bytes of a word, the lowest of them first.
#[inline(always)]
fn write_word(word: u64, cells: &mut [u8; FRONT], at: usize)
    requires { at + 8 ≤ 16 }
    ensures { IsWritten at (to_le_bytes w64 word) (at + 8) cells.old cells.new }
{
    set_word(word, &mut cells[at..at + 8]);
}

// The same to a place of eight bytes. It is set as an array, since `copy_from_slice` would look for an overlap.
#[inline(always)]
fn set_word(word: u64, place: &mut [u8])
    requires { length place.old ≡ 8 }
    ensures { place.new ≡ to_le_bytes w64 word }
{
    if let Some(place) = place.as_mut_array::<8>() {
        *place = word.to_le_bytes();
    }
}

// The word that has the eight digits of a number in its bytes, the first of them lowest. The number is cut into halves
// of four digits, these into pairs and these into digits, each step for the whole word at once.
#[inline(always)]
fn digits_word(number: u32) -> u64
    requires { number < 10 ^ 8 }
    ensures { to_le_bytes w64 result ≡ eight_digits number }
{
    let pairs = pairs_word(number);
    // The tens, and one byte further what they leave of the pairs.
    pairs * 256 - tens_word(pairs) * (256 * 10 - 1) + ZEROS
}

// The word that has the four pairs of those digits in its quarters, the first of them lowest.
#[inline(always)]
fn pairs_word(number: u32) -> u64
    requires { number < 10 ^ 8 }
    ensures { result ≡ number / 10000 / 100 + number / 10000 % 100 * 2 ^ 16
        + number % 10000 / 100 * 2 ^ 32 + number % 10000 % 100 * 2 ^ 48 }
{
    let number = u64::from(number);
    let halves = number / 10_000 + number % 10_000 * (1 << 32);
    // The hundreds, and a quarter further what they leave of the halves.
    halves * 65_536 - hundreds_word(halves) * (65_536 * 100 - 1)
}

// A hundredth of each half of a word. It is exact below 10,000, as 10,486 / 2 ^ 20 is hardly more than 1 / 100. The
// remainders take away what the upper half left behind its own hundredth.
#[inline(always)]
fn hundreds_word(halves: u64) -> u64
    requires low { halves % 2 ^ 32 < 10000 }
    requires high { halves / 2 ^ 32 < 10000 }
    ensures { result ≡ halves % 2 ^ 32 / 100 + halves / 2 ^ 32 / 100 * 2 ^ 32 }
{
    let shares = halves * 10_486 / (1 << 20);
    shares % 128 + shares / (1 << 32) % 128 * (1 << 32)
}

// A tenth of each quarter of a word, in the same way: it is exact below 100.
#[inline(always)]
fn tens_word(pairs: u64) -> u64
    requires first { pairs % 2 ^ 16 < 100 }
    requires second { pairs / 2 ^ 16 % 2 ^ 16 < 100 }
    requires third { pairs / 2 ^ 32 % 2 ^ 16 < 100 }
    requires fourth { pairs / 2 ^ 48 < 100 }
    ensures { result ≡ pairs % 2 ^ 16 / 10 + pairs / 2 ^ 16 % 2 ^ 16 / 10 * 2 ^ 16
        + pairs / 2 ^ 32 % 2 ^ 16 / 10 * 2 ^ 32 + pairs / 2 ^ 48 / 10 * 2 ^ 48 }
{
    let shares = pairs * 103 / 1024;
    shares % 16
        + shares / (1 << 16) % 16 * (1 << 16)
        + shares / (1 << 32) % 16 * (1 << 32)
        + shares / (1 << 48) % 16 * (1 << 48)
}
