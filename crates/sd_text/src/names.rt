//! Names of two letters for bits.

ghost use Rattle.std.specs.Prelude.{◌≡◌, ◌≤◌, ◌<◌, ◌+◌, List, length, take, get_or, true, Some, None};
ghost use Rattle.std.specs.Char.{to_ascii_uppercase};
ghost use Rattle.sd_text.specs.Names.{IsSameCapital, bits_named, has_cells, name_cell, names_of, run_of};
ghost use Rattle.sd_text.specs.declared.names.NamedBits.{NamedBits};
ghost use Rattle.sd_sink.specs.Print.{Prints};

use sd_sink::{FRONT, Print};

/// A name of two capital letters, and the bits that it means.
#[derive(Clone, Copy)]
pub struct NamedBits {
    pub first: u8,
    pub second: u8,
    pub bits: u32,
}

/// A row of a table of names: both letters, and the bits.
#[macro_export]
macro_rules! named {
    ($first:literal, $second:literal, $bits:expr) => {
        $crate::NamedBits {
            first: $first,
            second: $second,
            bits: $bits,
        }
    };
}

/// The bits of each two letters, and 0 where they are no name: 32 cells for each first letter, and in them one for each
/// second letter. A letter is told by its lowest five bits, in either case.
pub type NameCells = [u32; 1024];

/// The names of the largest table.
const MOST_NAMES: usize = 17;

/// The cells for all of them.
const CELLS: usize = 2 * MOST_NAMES;

/// The bit that tells a small letter from its capital.
const CASE_BIT: u8 = b'a' - b'A';

/// Prints the names of the bits of a mask, in the table's order.
pub fn print_names<P: Print>(table: &[NamedBits], mask: u32, out: &mut P)
    requires fits { length table.now ≤ 17 }
    ensures { Prints (P.told out.old) (P.told out.new) (names_of table.now mask) }
{
    let mut buffer = [0; CELLS];
    let end = write_names(table, mask, &mut buffer);
    if end <= FRONT {
        out.put_front(&buffer, end);
    } else {
        out.put(&buffer[..end]);
    }
}

// Writes the names to the front of the buffer and returns their end. Every name is written; the end moves only if its
// bits are set. So the loop is branch-free.
fn write_names(table: &[NamedBits], mask: u32, buffer: &mut [u8; CELLS]) -> usize
    requires fits { length table.now ≤ 17 }
    ensures end { result ≤ 34 }
    ensures names { take result buffer.new ≡ names_of table.now mask }
{
    let mut end = 0;
    for name in table {
        buffer[end] = name.first;
        buffer[end + 1] = name.second;
        end += if mask & name.bits != 0 { 2 } else { 0 };
    }
    end
}

/// The capital of a letter. Any other byte becomes one that is no capital.
///
/// It clears a bit without a branch, which is enough to compare with names in capitals. `to_ascii_uppercase` first asks
/// whether the byte is a small letter.
#[inline(always)]
pub fn capital(byte: u8) -> u8
    ensures { IsSameCapital result (to_ascii_uppercase byte) }
{
    // By division, which the prover computes with.
    byte - byte / CASE_BIT % 2 * CASE_BIT
}

/// The bits of a run of names, each in either case and as often as it likes. The table of names has capitals, and its
/// cells have the bits of its names. None where two letters are no name, or one is left.
#[tactic(auto, unfolding(crate::specs::Names::run_of))]
pub fn read_names(cells: &NameCells, text: &[u8]) -> Option<u32>
    ghost table: { List NamedBits }
    requires { has_cells table cells.now ≡ true }
    ensures { result ≡ run_of table text.now }
{
    let mut bits = 0;
    let mut rest = text;
    while let Some((first, tail)) = rest.split_first() {
        let (second, tail) = tail.split_first()?;
        bits |= bits_named(cells, *first, *second)?;
        rest = tail;
    }
    Some(bits)
}

/// The bits of the run of names at the front, and how many bytes it has. The next two bytes are no name, or fewer are
/// left.
#[inline(always)]
pub fn front_names(cells: &NameCells, text: &[u8]) -> (u32, usize)
    ghost table: { List NamedBits }
    requires { has_cells table cells.now ≡ true }
    ensures within { result.1 ≤ length text.now }
    ensures run { run_of table (take result.1 text.now) ≡ Some result.0 }
    ensures ends { result.1 + 1 < length text.now
        → bits_named table (get_or text.now result.1 0) (get_or text.now (result.1 + 1) 0) ≡ None }
{
    let mut bits = 0;
    let mut size = 0;
    while size + 1 < text.len() {
        let Some(more) = bits_named(cells, text[size], text[size + 1]) else {
            return (bits, size);
        };
        bits |= more;
        size += 2;
    }
    (bits, size)
}

// The bits of two letters. Any other byte may have the cell of a letter, so it is told apart first.
#[inline(always)]
fn bits_named(cells: &NameCells, first: u8, second: u8) -> Option<u32>
    ghost table: { List NamedBits }
    requires { has_cells table cells.now ≡ true }
    ensures { result ≡ bits_named table first second }
{
    if !first.is_ascii_alphabetic() || !second.is_ascii_alphabetic() {
        return None;
    }
    let bits = cells[name_cell(first, second)];
    if bits == 0 { None } else { Some(bits) }
}

// The cell of two letters, in either case.
#[inline(always)]
fn name_cell(first: u8, second: u8) -> usize
    ensures cell { result ≡ name_cell first second }
    ensures within { result < 1024 }
{
    usize::from(first % 32) * 32 + usize::from(second % 32)
}
