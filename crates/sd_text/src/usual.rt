//! Texts before a semicolon that are met so often that a table has them.

ghost use Rattle.std.specs.Prelude.{◌≡◌, ◌≤◌, ◌<◌, true, IfSome};
ghost use Rattle.sd_text.specs.Usual.{IsRowOf, are_shifts, shift_of};

/// The rows of a table of usual texts.
pub const USUAL_ROWS: usize = 64;

/// The bytes that such a text has at most: they fill a word.
const MOST_BYTES: usize = 8;

/// What shifts each number of bytes to the high end of a word.
static SHIFTS: [u64; MOST_BYTES + 1] = [
    0,
    1 << 56,
    1 << 48,
    1 << 40,
    1 << 32,
    1 << 24,
    1 << 16,
    1 << 8,
    1,
];

/// A semicolon in each byte of a word.
const SEMICOLONS: u64 = 0x3b3b_3b3b_3b3b_3b3b;

/// The lowest bit of each byte of a word.
const LOWEST_BITS: u64 = 0x0101_0101_0101_0101;

/// The highest bit of each byte of a word.
const HIGHEST_BITS: u64 = 0x8080_8080_8080_8080;

/// What spreads keys over the rows: a table has each key in the row that this gives.
const SPREAD: u64 = 0xf7a6_bf13_af30_b95b;

/// The row of the text before the semicolon at the front, in a table of keys and sizes. A key is the word of a text,
/// with the first byte lowest and the last one at the high end. `None` means only that the general reader must decide.
#[inline(always)]
pub fn usual_row(keys: &[u64; USUAL_ROWS], sizes: &[u8; USUAL_ROWS], text: &[u8]) -> Option<usize>
    ensures { IfSome result (λ row. IsRowOf keys.now sizes.now text.now row) }
{
    let block = text.first_chunk::<MOST_BYTES>()?;
    let word = u64::from_le_bytes(*block);
    let size = semicolon_in(word);
    let key = word.wrapping_mul(shift_of(size));
    let row = row_of(key);
    if keys[row] != key || usize::from(sizes[row]) != size {
        return None;
    }
    Some(row)
}

// Where the first semicolon of a word is, from its lowest byte on, or 8. Its contract says only that it is at most 8:
// `usual_row` compares the key and the size.
#[inline(always)]
fn semicolon_in(word: u64) -> usize
    ensures { result ≤ 8 }
{
    let others = word ^ SEMICOLONS;
    let found = others.wrapping_sub(LOWEST_BITS) & !others & HIGHEST_BITS;
    found.trailing_zeros() as usize / 8
}

/// What shifts so many bytes to the high end of a word, by multiplication.
#[inline(always)]
pub(crate) fn shift_of(size: usize) -> u64
    requires { size ≤ 8 }
    ensures { result ≡ shift_of size }
{
    shift_in(&SHIFTS, size)
}

#[inline(always)]
fn shift_in(shifts: &[u64; MOST_BYTES + 1], size: usize) -> u64
    requires shifts { are_shifts shifts.now ≡ true }
    requires size { size ≤ 8 }
    ensures { result ≡ shift_of size }
{
    shifts[size]
}

// The row in which a table has this key, if it has it.
#[inline(always)]
fn row_of(key: u64) -> usize
    ensures { result < 64 }
{
    (key.wrapping_mul(SPREAD) / (1 << 58)) as usize
}
