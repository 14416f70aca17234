//! Bytes that are held back.

ghost use Rattle.std.specs.Prelude.{◌≡◌, ◌+◌, ◌-◌, ◌≤◌, ◌++◌, [], length, take};

use std::marker::Model;

/// The bytes that are held at most.
const CAPACITY: usize = 512;

/// The cells from which a few bytes are appended: always as many are copied, and so without a loop.
pub const FRONT: usize = 16;

/// At most 512 bytes.
#[derive(Drop)]
pub struct Held {
    bytes: [u8; CAPACITY],
    len: usize,
}

impl Model for Held {
    ghost use Rattle.std.specs.Prelude.{◌≤◌, ℕ, List, take};

    ghost Value = { List ℕ };

    ghost view = { λ h. take h.len h.bytes };

    ghost invariant = { λ h. h.len ≤ 512 };
}

impl Held {
    /// Holds nothing.
    pub fn new() -> Held
        ensures { result ≡ [] }
    {
        Held {
            bytes: [0; CAPACITY],
            len: 0,
        }
    }

    /// How many more bytes there is room for.
    pub fn room(&self) -> usize
        ensures { result + length self.now ≡ 512 }
    {
        CAPACITY - self.len
    }

    /// Appends bytes that there is room for.
    #[inline(always)]
    pub fn append(&mut self, text: &[u8])
        requires { length self.old + length text.now ≤ 512 }
        ensures { self.new ≡ self.old ++ text.now }
    {
        let end = self.len + text.len();
        self.bytes[self.len..end].copy_from_slice(text);
        self.len = end;
    }

    /// Appends the first few of the cells.
    #[inline(always)]
    pub fn append_front(&mut self, cells: &[u8], count: usize)
        requires room { length self.old + 16 ≤ 512 }
        requires cells { 16 ≤ length cells.now }
        requires few { count ≤ 16 }
        ensures { self.new ≡ self.old ++ take count cells.now }
    {
        let end = self.len + FRONT;
        copy_cells(cells, &mut self.bytes[self.len..end]);
        self.len += count;
    }

    /// Holds nothing any more.
    pub fn clear(&mut self)
        ensures { self.new ≡ [] }
    {
        self.len = 0;
    }

    /// What is held.
    pub fn as_slice(&self) -> &[u8]
        ensures { result.now ≡ self.now }
    {
        &self.bytes[..self.len]
    }
}

// Copies the first cells, all at once and not in a loop.
#[inline(always)]
fn copy_cells(cells: &[u8], place: &mut [u8])
    requires cells { 16 ≤ length cells.now }
    requires place { length place.old ≡ 16 }
    ensures { place.new ≡ take 16 cells.now }
{
    if let Some(cells) = cells.first_chunk::<FRONT>() {
        if let Some(place) = place.as_mut_array::<FRONT>() {
            *place = *cells;
        }
    }
}
