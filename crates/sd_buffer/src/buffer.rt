//! The buffers that hold the bytes of a descriptor, or the text of a line.

ghost use Rattle.std.specs.Prelude.{◌≡◌, ◌≤◌, ◌<◌, ◌*◌, ◌/◌, ◌%◌, take, drop, ◌++◌, ◌∷◌, ◌+◌, ◌-◌, ◌↔◌, [], length};
ghost use Rattle.std.specs.Prelude.{vec_capacity, Ok, Err, IfOk, OnOk, OnErr, IsErr, MatchResult};
ghost use Rattle.base64.specs.Decode.{decoded_estimate};
ghost use Rattle.sd_text.specs.Limits.{most_base64_text, most_hex_text};
ghost use Rattle.sd_buffer.specs.Text.{IsOneEncoding, base64_spells, hex_spells};
ghost use Rattle.sd_parts.specs.declared.limits.TheConstants.{CAPACITY};

use crate::hex_reader::HexReader;
use crate::{base64_digits, hex_digits};
use base64::decoded_len_estimate;
use base64::engine::general_purpose::STANDARD;
use sd_parts::CAPACITY;
use sd_sink::NoMemory;
use sd_text::MOST_BASE64_TEXT;
use std::alloc::Global;
use std::marker::Model;

/// The buffer has no room.
#[derive(Clone, Copy, Debug, PartialEq, Eq)]
pub struct Full;

/// Why a text spells no bytes.
#[derive(Clone, Copy, Debug, PartialEq, Eq)]
pub enum TextFault {
    /// 2: a character is no hex digit.
    HexDigit,
    /// 3: the number of characters is odd.
    HexOdd,
    /// 4: it is no base64.
    Base64,
}

/// At most `MOST` bytes, in memory that is allocated once.
#[derive(Drop)]
pub struct ByteBuf<const MOST: usize> {
    // Room for `MOST` cells is there from the start. Those that no byte has reached yet are not filled, so that a short
    // run does not pay for them.
    cells: Vec<u8>,
    held: usize,
}

/// Cells are filled so many at a time.
const STEP: usize = 4096;

/// The bytes of a descriptor, at most 131,226.
pub type SdBuf = ByteBuf<CAPACITY>;

/// A line of base64, of at most 174,968 characters.
pub type TextBuf = ByteBuf<MOST_BASE64_TEXT>;

impl<const MOST: usize> Model for ByteBuf<MOST> {
    ghost use Rattle.std.specs.Prelude.{◌≤◌, ℕ, List, length, take, vec_capacity};

    ghost Value = { List ℕ };

    ghost view = { λ b. take b.held b.cells.items };

    ghost invariant = { λ b.
        (b.held ≤ length b.cells.items) × (length b.cells.items ≤ MOST) × (MOST ≤ vec_capacity b.cells) };
}

impl<const MOST: usize> ByteBuf<MOST> {
    /// An empty buffer, with the memory for all that it may hold.
    pub fn new(alloc: Global) -> Result<Self, NoMemory>
        ensures { IfOk result (λ b. b ≡ []) }
    {
        let cells = Vec::with_capacity(alloc, MOST)?;
        Ok(ByteBuf { cells, held: 0 })
    }

    /// Appends a byte. Full exactly where `MOST` bytes are held, and then unchanged.
    pub fn push(&mut self, byte: u8) -> Result<(), Full>
        ensures full { IsErr result ↔ (length self.old ≡ MOST) }
        ensures ok { OnOk result (self.new ≡ self.old ++ byte ∷ []) }
        ensures same { OnErr result (self.new ≡ self.old) }
    {
        if self.held == MOST {
            return Err(Full);
        }
        self.append(&[byte]);
        Ok(())
    }

    /// Appends all of the bytes, or none if there is no room for all.
    ///
    /// ```
    /// let mut text = TextBuf::new(rt.alloc()).expect(&rt, "memory");
    /// assert!(rt; text.extend(b"Zm9v") == Ok(()) && text.push(b'Y') == Ok(()));
    /// assert!(rt; text.bytes() == b"Zm9vY".as_slice());
    /// ```
    pub fn extend(&mut self, bytes: &[u8]) -> Result<(), Full>
        ensures full { IsErr result ↔ (MOST - length self.old < length bytes.now) }
        ensures ok { OnOk result (self.new ≡ self.old ++ bytes.now) }
        ensures same { OnErr result (self.new ≡ self.old) }
    {
        if bytes.len() > MOST - self.held {
            return Err(Full);
        }
        self.append(bytes);
        Ok(())
    }

    // Appends bytes that there is room for. Where their number is known when the program is built, they are then copied
    // at once.
    #[inline(always)]
    pub fn append(&mut self, bytes: &[u8])
        requires { length self.old + length bytes.now ≤ MOST }
        ensures { self.new ≡ self.old ++ bytes.now }
    {
        let end = self.held + bytes.len();
        reach(&mut self.cells, end, MOST);
        write_at(&mut self.cells, self.held, bytes);
        self.held = end;
    }

    // Appends the first of some cells. There is room for all of them, so that they are copied at once.
    #[inline(always)]
    pub fn append_front(&mut self, cells: &[u8], count: usize)
        requires room { length self.old + length cells.now ≤ MOST }
        requires within { count ≤ length cells.now }
        ensures { self.new ≡ self.old ++ take count cells.now }
    {
        reach(&mut self.cells, self.held + cells.len(), MOST);
        write_at(&mut self.cells, self.held, cells);
        self.held += count;
    }

    // Writes bytes over those from an offset on.
    pub fn patch(&mut self, at: usize, bytes: &[u8])
        requires { at + length bytes.now ≤ length self.old }
        ensures { self.new ≡ take at self.old ++ (bytes.now ++ drop (at + length bytes.now) self.old) }
    {
        write_at(&mut self.cells, at, bytes);
    }

    /// Drops the contents.
    pub fn clear(&mut self)
        ensures { self.new ≡ [] }
    {
        self.held = 0;
    }

    /// The contents, at most `MOST` bytes.
    pub fn bytes(&self) -> &[u8]
        ensures value { result.now ≡ self.now }
        ensures bound { length self.now ≤ MOST }
    {
        &self.cells[..self.held]
    }
}

impl SdBuf {
    /// Replaces the contents by the bytes that a hex text of at most 262,452 characters spells. After a
    /// fault the buffer is empty.
    ///
    /// ```
    /// let mut buf = SdBuf::new(rt.alloc()).expect(&rt, "memory");
    /// assert!(rt; buf.from_hex(b"01fF") == Ok(()) && buf.bytes() == b"\x01\xff".as_slice());
    /// assert!(rt; buf.from_hex(b"01f") == Err(TextFault::HexOdd) && buf.bytes().is_empty());
    /// ```
    pub fn from_hex(&mut self, text: &[u8]) -> Result<(), TextFault>
        requires { length text.now ≤ most_hex_text }
        ensures { MatchResult (hex_spells text.now)
            (λ bytes. (result ≡ Ok tt) × (self.new ≡ bytes))
            (λ fault. (result ≡ Err fault) × (self.new ≡ [])) }
    {
        let mut reader = HexReader::new(self);
        reader.feed_all(self, text);
        reader.finish(self)
    }

    // Appends the bytes that pairs of hex digits spell. After a fault the contents are unchanged. A full buffer is a
    // fault too, but a line within its limit has room.
    pub(crate) fn append_hex(&mut self, pairs: &[u8]) -> Result<(), TextFault>
        requires { length pairs.now % 2 ≡ 0 }
        ensures { 2 * length self.old + length pairs.now ≤ 2 * CAPACITY → MatchResult (hex_spells pairs.now)
            (λ bytes. (result ≡ Ok tt) × (self.new ≡ self.old ++ bytes))
            (λ fault. (result ≡ Err fault) × (self.new ≡ self.old)) }
    {
        let count = pairs.len() / 2;
        if count > CAPACITY - self.held {
            return Err(TextFault::HexDigit);
        }
        reach(&mut self.cells, self.held + count, CAPACITY);
        decode_hex(pairs, &mut self.cells, self.held)?;
        self.held += count;
        Ok(())
    }

    /// Replaces the contents by the bytes that a base64 text of at most 174,968 characters spells
    /// (RFC 4648, section 4), with all of its padding and nothing else in it. After a fault the
    /// buffer is empty.
    ///
    /// ```
    /// let mut buf = SdBuf::new(rt.alloc()).expect(&rt, "memory");
    /// assert!(rt; buf.from_base64(b"Zm9vYg==") == Ok(()) && buf.bytes() == b"foob".as_slice());
    /// assert!(rt; buf.from_base64(b"Zm9vYg") == Err(TextFault::Base64));
    /// ```
    pub fn from_base64(&mut self, text: &[u8]) -> Result<(), TextFault>
        requires { length text.now ≤ most_base64_text }
        ensures exact { MatchResult (base64_spells text.now)
            (λ bytes. (result ≡ Ok tt) × (self.new ≡ bytes))
            (λ fault. (result ≡ Err fault) × (self.new ≡ [])) }
        ensures encoding { IsOneEncoding text.now }
    {
        self.clear();
        reach(&mut self.cells, decoded_len_estimate(text.len()), CAPACITY);
        let held = decode_base64(text, &mut self.cells)?;
        self.held = held;
        Ok(())
    }
}

// Sees to it that there are so many cells, of at most as many as there is room for. The test alone is inlined.
#[inline(always)]
fn reach(cells: &mut Vec<u8>, end: usize, most: usize)
    requires within { end ≤ most }
    requires few { length cells.old.items ≤ most }
    requires room { most ≤ vec_capacity cells.old }
    ensures cells { take (length cells.old.items) cells.new.items ≡ cells.old.items }
    ensures reached { end ≤ length cells.new.items }
    ensures longer { length cells.old.items ≤ length cells.new.items }
    ensures few { length cells.new.items ≤ most }
    ensures room { most ≤ vec_capacity cells.new }
{
    if cells.len() < end {
        fill(cells, end, most);
    }
}

// Fills cells up to an end or a few more, which takes no memory, since there is room for them.
#[cold]
#[inline(never)]
fn fill(cells: &mut Vec<u8>, end: usize, most: usize)
    requires more { length cells.old.items < end }
    requires within { end ≤ most }
    requires room { most ≤ vec_capacity cells.old }
    ensures cells { take (length cells.old.items) cells.new.items ≡ cells.old.items }
    ensures reached { end ≤ length cells.new.items }
    ensures few { length cells.new.items ≤ most }
    ensures room { most ≤ vec_capacity cells.new }
{
    let target = end.saturating_add(STEP).min(most);
    let _ = cells.resize(target, 0);
}

// Copies the bytes into the cells from an offset on.
fn write_at(cells: &mut [u8], at: usize, bytes: &[u8])
    requires { at + length bytes.now ≤ length cells.old }
    ensures front { take (at + length bytes.now) cells.new ≡ take at cells.old ++ bytes.now }
    ensures rest { drop (at + length bytes.now) cells.new ≡ drop (at + length bytes.now) cells.old }
{
    cells[at..at + bytes.len()].copy_from_slice(bytes);
}

// Decodes pairs of hex digits into the cells from an offset on. Blocks are decoded at once, and the last one ends with
// the digits. The crate `hex` decodes fewer digits than a block, and all from the first block that has another
// character.
fn decode_hex(pairs: &[u8], cells: &mut [u8], at: usize) -> Result<(), TextFault>
    requires even { length pairs.now % 2 ≡ 0 }
    requires room { at + length pairs.now / 2 ≤ length cells.old }
    ensures value { MatchResult (hex_spells pairs.now)
        (λ bytes. (result ≡ Ok tt) × (take (at + length pairs.now / 2) cells.new ≡ take at cells.old ++ bytes))
        (λ fault. result ≡ Err fault) }
    ensures before { take at cells.new ≡ take at cells.old }
{
    let done = hex_digits::decode_blocks(pairs, &mut cells[at..at + pairs.len() / 2]);
    decode_singly(&pairs[2 * done..], cells, at + done)
}

// The same, digit by digit.
fn decode_singly(pairs: &[u8], cells: &mut [u8], at: usize) -> Result<(), TextFault>
    requires even { length pairs.now % 2 ≡ 0 }
    requires room { at + length pairs.now / 2 ≤ length cells.old }
    ensures value { MatchResult (hex_spells pairs.now)
        (λ bytes. (result ≡ Ok tt) × (take (at + length pairs.now / 2) cells.new ≡ take at cells.old ++ bytes))
        (λ fault. result ≡ Err fault) }
    ensures before { take at cells.new ≡ take at cells.old }
{
    match hex::decode_to_slice(pairs, &mut cells[at..at + pairs.len() / 2]) {
        Ok(()) => Ok(()),
        Err(_) => Err(TextFault::HexDigit),
    }
}

// Decodes to the front of the cells, and says how many bytes there are. Whole blocks are decoded at once. What follows
// them, or the first block that has another character, is decoded by the crate `base64`.
fn decode_base64(text: &[u8], cells: &mut [u8]) -> Result<usize, TextFault>
    requires { decoded_estimate (length text.now) ≤ length cells.old }
    ensures value { MatchResult (base64_spells text.now)
        (λ bytes. (result ≡ Ok (length bytes)) × (take (length bytes) cells.new ≡ bytes))
        (λ fault. result ≡ Err fault) }
    ensures within { IfOk result (λ n. n ≤ length cells.old) }
{
    let groups = base64_digits::decode_blocks(text, cells);
    let rest = decode_rest(&text[4 * groups..], &mut cells[3 * groups..])?;
    Ok(3 * groups + rest)
}

// The same, group by group.
fn decode_rest(text: &[u8], cells: &mut [u8]) -> Result<usize, TextFault>
    requires { decoded_estimate (length text.now) ≤ length cells.old }
    ensures value { MatchResult (base64_spells text.now)
        (λ bytes. (result ≡ Ok (length bytes)) × (take (length bytes) cells.new ≡ bytes))
        (λ fault. result ≡ Err fault) }
    ensures within { IfOk result (λ n. n ≤ length cells.old) }
{
    // There is room for what any text of this length spells.
    match STANDARD.decode_slice_unchecked(text, cells) {
        Ok(count) => Ok(count),
        Err(_) => Err(TextFault::Base64),
    }
}
