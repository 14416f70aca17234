//! Access masks at the front of a longer text, in the forms that most of them have: names, or hex digits.

ghost use Rattle.std.specs.Prelude.{◌≡◌, ◌≤◌, ◌<◌, get_or, length, take, true, IfSome, Some};
ghost use Rattle.sd_text.specs.Numbers.{number_after};
ghost use Rattle.sd_text.specs.Usual.{have_values, usual_text};
ghost use Rattle.sd_rights.specs.HexValues.{has_values, value_of};
ghost use Rattle.sd_rights.specs.Rights.{rights_reads};

use crate::mask_texts::{USUAL_MASK_KEYS, USUAL_MASK_SIZES, USUAL_MASK_VALUES};
use crate::right_cells::RIGHT_CELLS;
use sd_text::{MOST_FIELD_SIZE, USUAL_ROWS, front_names, usual_row};

/// The digits of the largest mask.
const MOST_DIGITS: usize = 8;

/// The value of a byte that is no digit.
const NO_DIGIT: u8 = 16;

/// The value of each byte as a hex digit, or `NO_DIGIT`.
static VALUES: [u8; 256] = [
    16, 16, 16, 16, 16, 16, 16, 16, 16, 16, 16, 16, 16, 16, 16, 16, 16, 16, 16, 16, 16, 16, 16, 16,
    16, 16, 16, 16, 16, 16, 16, 16, 16, 16, 16, 16, 16, 16, 16, 16, 16, 16, 16, 16, 16, 16, 16, 16,
    0, 1, 2, 3, 4, 5, 6, 7, 8, 9, 16, 16, 16, 16, 16, 16, 16, 10, 11, 12, 13, 14, 15, 16, 16, 16,
    16, 16, 16, 16, 16, 16, 16, 16, 16, 16, 16, 16, 16, 16, 16, 16, 16, 16, 16, 16, 16, 16, 16, 10,
    11, 12, 13, 14, 15, 16, 16, 16, 16, 16, 16, 16, 16, 16, 16, 16, 16, 16, 16, 16, 16, 16, 16, 16,
    16, 16, 16, 16, 16, 16, 16, 16, 16, 16, 16, 16, 16, 16, 16, 16, 16, 16, 16, 16, 16, 16, 16, 16,
    16, 16, 16, 16, 16, 16, 16, 16, 16, 16, 16, 16, 16, 16, 16, 16, 16, 16, 16, 16, 16, 16, 16, 16,
    16, 16, 16, 16, 16, 16, 16, 16, 16, 16, 16, 16, 16, 16, 16, 16, 16, 16, 16, 16, 16, 16, 16, 16,
    16, 16, 16, 16, 16, 16, 16, 16, 16, 16, 16, 16, 16, 16, 16, 16, 16, 16, 16, 16, 16, 16, 16, 16,
    16, 16, 16, 16, 16, 16, 16, 16, 16, 16, 16, 16, 16, 16, 16, 16, 16, 16, 16, 16, 16, 16, 16, 16,
    16, 16, 16, 16, 16, 16, 16, 16, 16, 16, 16, 16, 16, 16,
];

/// The access mask that a run of names, or `0x` and up to eight hex digits, give at the front of a text, and the size
/// of that text (MS-DTYP 2.5.1.1). `None` means only that the general reader must decide.
///
/// ```
/// assert!(rt; front_mask(b"RCWD;;;WD") == Some((READ_CONTROL | WRITE_DAC, 4)));
/// assert!(rt; front_mask(b"0x1200a9;;;WD") == Some((0x1200a9, 8)));
/// assert!(rt; front_mask(b"3;;;WD") == None);
/// ```
#[inline(always)]
pub fn front_mask(text: &[u8]) -> Option<(u32, usize)>
    ensures within { IfSome result (λ r. r.1 ≤ length text.now) }
    ensures mask { IfSome result (λ r. rights_reads (take r.1 text.now) ≡ Some r.0) }
{
    if let Some(usual) = usual_mask(text) {
        return Some(usual);
    }
    let (mask, size) = front_names(&RIGHT_CELLS, text);
    if size == 0 {
        return hex_mask(text);
    }
    if size > MOST_FIELD_SIZE {
        return None;
    }
    Some((mask, size))
}

// The same for the masks that most ACEs have.
#[tactic(auto, unfolding(crate::specs::Rights::rights_reads, sd_text::specs::Names::run_of))]
#[inline(always)]
fn usual_mask(text: &[u8]) -> Option<(u32, usize)>
    ensures within { IfSome result (λ r. r.1 ≤ length text.now) }
    ensures mask { IfSome result (λ r. rights_reads (take r.1 text.now) ≡ Some r.0) }
{
    let row = usual_row(&USUAL_MASK_KEYS, &USUAL_MASK_SIZES, text)?;
    let mask = mask_in(&USUAL_MASK_KEYS, &USUAL_MASK_SIZES, &USUAL_MASK_VALUES, row);
    Some((mask, usize::from(USUAL_MASK_SIZES[row])))
}

// The mask of a row.
#[inline(always)]
fn mask_in(
    keys: &[u64; USUAL_ROWS],
    sizes: &[u8; USUAL_ROWS],
    values: &[u32; USUAL_ROWS],
    row: usize,
) -> u32
    requires values { have_values rights_reads keys.now sizes.now values.now ≡ true }
    requires row { row < 64 }
    ensures { rights_reads (usual_text (get_or keys.now row 0) (get_or sizes.now row 0)) ≡ Some result }
{
    values[row]
}

// The same for hex digits.
#[inline(always)]
fn hex_mask(text: &[u8]) -> Option<(u32, usize)>
    ensures within { IfSome result (λ r. r.1 ≤ length text.now) }
    ensures mask { IfSome result (λ r. rights_reads (take r.1 text.now) ≡ Some r.0) }
{
    if text.len() < 3 || text[0] != b'0' || text[1] != b'x' {
        return None;
    }
    let (mask, count) = front_hex(&text[2..]);
    if count == 0 {
        return None;
    }
    Some((mask, 2 + count))
}

// The number that the hex digits at the front write, eight of them at most, and how many these are.
#[inline(always)]
fn front_hex(text: &[u8]) -> (u32, usize)
    ensures few { result.1 ≤ 8 }
    ensures within { result.1 ≤ length text.now }
    ensures number { number_after 16 0 (take result.1 text.now) ≡ Some result.0 }
{
    let most = text.len().min(MOST_DIGITS);
    let mut number: u32 = 0;
    for i in 0..most {
        let value = value_in(&VALUES, text[i]);
        if value == NO_DIGIT {
            return (number, i);
        }
        number = number * 16 + u32::from(value);
    }
    (number, most)
}

// The value of a hex digit, and `NO_DIGIT` for any other byte.
#[inline(always)]
fn value_in(values: &[u8; 256], byte: u8) -> u8
    requires { has_values values.now ≡ true }
    ensures { result ≡ value_of byte }
{
    values[usize::from(byte)]
}
