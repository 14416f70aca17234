//! The rows of a column of bytes or texts, as Arrow lays it out.

ghost use Rattle.std.specs.Prelude.{◌≡◌, ◌<◌, ◌+◌, length, slice_index, MatchResult, Ok, Err};
ghost use Rattle.sd_call.specs.Columns.{numbers, row_between};

use crate::argument::Argument;
use crate::outcome::CallFault;

/// Where the rows of a column begin, and where the last one ends.
#[derive(Clone, Copy)]
pub enum Offsets<'a> {
    Small(&'a [u32]),
    Large(&'a [u64]),
}

/// A column of bytes or texts.
#[derive(Clone, Copy)]
pub struct Column<'a> {
    pub data: &'a [u8],
    pub offsets: Offsets<'a>,
}

/// How many rows there are.
pub fn row_count(column: &Column<'_>) -> usize
    requires { 0 < length (numbers column.now.offsets) }
    ensures { result + 1 ≡ length (numbers column.now.offsets) }
{
    match column.offsets {
        Offsets::Small(numbers) => numbers.len() - 1,
        Offsets::Large(numbers) => numbers.len() - 1,
    }
}

/// The row at this place.
pub fn row_at<'a>(column: &Column<'a>, i: usize) -> Result<&'a [u8], CallFault>
    requires { i + 1 < length (numbers column.now.offsets) }
    ensures { let row = row_between column.now.data.now (slice_index (numbers column.now.offsets) i)
        (slice_index (numbers column.now.offsets) (i + 1)) in
        MatchResult result (λ bytes. row ≡ Ok bytes.now) (λ fault. row ≡ Err fault) }
{
    let (from, to) = ends_of(column.offsets, i);
    row_between(column.data, from, to)
}

// The offset at this place, and the next one.
fn ends_of(offsets: Offsets<'_>, i: usize) -> (usize, usize)
    requires { i + 1 < length (numbers offsets) }
    ensures from { result.0 ≡ slice_index (numbers offsets.entry) i }
    ensures to { result.1 ≡ slice_index (numbers offsets.entry) (i + 1) }
{
    match offsets {
        Offsets::Small(numbers) => (numbers[i] as usize, numbers[i + 1] as usize),
        Offsets::Large(numbers) => (numbers[i] as usize, numbers[i + 1] as usize),
    }
}

#[tactic(auto, unfolding(crate::specs::Columns::row_between))]
fn row_between(bytes: &[u8], from: usize, to: usize) -> Result<&[u8], CallFault>
    ensures { MatchResult result (λ row. row_between bytes.now from to ≡ Ok row.now)
        (λ fault. row_between bytes.now from to ≡ Err fault) }
{
    if from <= to && to <= bytes.len() {
        return Ok(&bytes[from..to]);
    }
    Err(CallFault::Argument(Argument::Offsets, 0))
}
