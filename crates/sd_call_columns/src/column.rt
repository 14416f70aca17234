//! Columns as a caller lays them out.

ghost use Rattle.std.specs.Prelude.{◌≡◌, length, take};
ghost use Rattle.sd_call.specs.Columns.{numbers};
ghost use Rattle.sd_call_columns.specs.Answered.{most_small};

use sd_call::{Column, Offsets};

/// Offsets of 32 bits have a sign in Arrow, so they reach no further.
pub const MOST_SMALL: usize = 0x7FFF_FFFF;

/// A column with offsets of 32 bits: `struct sdtool_column` of the header.
#[repr(C)]
#[derive(Clone, Copy)]
pub struct SmallColumn<'a> {
    pub data: &'a [u8],
    pub offsets: &'a [u32],
}

/// A column with offsets of 64 bits: `struct sdtool_large_column` of the header.
#[repr(C)]
#[derive(Clone, Copy)]
pub struct LargeColumn<'a> {
    pub data: &'a [u8],
    pub offsets: &'a [u64],
}

impl<'a> SmallColumn<'a> {
    /// The column, as far as its offsets can reach.
    pub fn column(&self) -> Column<'a>
        ensures data { result.data.now ≡ take most_small self.now.data.now }
        ensures offsets { numbers result.offsets ≡ self.now.offsets.now }
    {
        Column {
            data: front_of(self.data),
            offsets: Offsets::Small(self.offsets),
        }
    }
}

impl<'a> LargeColumn<'a> {
    /// The column.
    pub fn column(&self) -> Column<'a>
        ensures data { result.data.now ≡ self.now.data.now }
        ensures offsets { numbers result.offsets ≡ self.now.offsets.now }
    {
        Column {
            data: self.data,
            offsets: Offsets::Large(self.offsets),
        }
    }
}

/// How many offsets there are: one more than rows.
pub fn offset_count(column: &Column<'_>) -> usize
    ensures { result ≡ length (numbers column.now.offsets) }
{
    match column.offsets {
        Offsets::Small(numbers) => numbers.len(),
        Offsets::Large(numbers) => numbers.len(),
    }
}

// What offsets of 32 bits can reach.
fn front_of(bytes: &[u8]) -> &[u8]
    ensures { result.now ≡ take most_small bytes.now }
{
    &bytes[..MOST_SMALL.min(bytes.len())]
}
