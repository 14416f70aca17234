//! Lines and descriptors in which some places get new characters each time.

use crate::numbers::Numbers;
use crate::section::invalid;
use hex::decode_to_slice;
use std::alloc::{AllocError, Global};
use std::io;

// Each symbol as often as 64 allows.
static HEX: [u8; 64] = *b"0123456789abcdef0123456789abcdef0123456789abcdef0123456789abcdef";

static DECIMAL: [u8; 64] = *b"0123456789012345678901234567890123456789012345678901234567890123";

static BASE64: [u8; 64] = *b"ABCDEFGHIJKLMNOPQRSTUVWXYZabcdefghijklmnopqrstuvwxyz0123456789+/";

/// A character that is no digit of any form.
const WRONG: u8 = b'.';

/// A place of a line, and the symbols of which it gets one.
#[derive(Clone, Copy)]
struct Place {
    at: usize,
    symbols: &'static [u8; 64],
}

/// A line, in whose pattern `?` is a hex digit, `%` a decimal digit and `~` a character of base64. One line in 1,024
/// has a wrong character in one of these places.
#[derive(Drop)]
pub struct LinePattern {
    text: Vec<u8>,
    places: Vec<Place>,
}

impl LinePattern {
    pub fn new(alloc: Global, pattern: &[u8]) -> Result<LinePattern, AllocError> {
        let mut text = Vec::new(alloc);
        text.extend_from_slice(pattern)?;
        let mut places = Vec::new(alloc);
        for (at, byte) in pattern.iter().enumerate() {
            if let Some(symbols) = symbols_of(*byte) {
                places.push(Place { at, symbols })?;
            }
        }
        Ok(LinePattern { text, places })
    }

    /// The next line.
    pub fn next(&mut self, numbers: &mut Numbers) -> &[u8] {
        for place in &self.places {
            if let Some(cell) = self.text.get_mut(place.at) {
                *cell = place.symbols[numbers.below_64()];
            }
        }
        if numbers.is_rare() {
            self.spoil(numbers.below_64());
        }
        &self.text
    }

    fn spoil(&mut self, number: usize) {
        let index = number.checked_rem(self.places.len()).unwrap_or(0);
        if let Some(place) = self.places.get(index) {
            if let Some(cell) = self.text.get_mut(place.at) {
                *cell = WRONG;
            }
        }
    }
}

fn symbols_of(mark: u8) -> Option<&'static [u8; 64]> {
    match mark {
        b'?' => Some(&HEX),
        b'%' => Some(&DECIMAL),
        b'~' => Some(&BASE64),
        _ => None,
    }
}

/// A descriptor, whose pattern is hex with `??` for each byte that is new each time.
#[derive(Drop)]
pub struct BytePattern {
    bytes: Vec<u8>,
    places: Vec<usize>,
}

impl BytePattern {
    pub fn new(alloc: Global, pattern: &[u8]) -> io::Result<BytePattern> {
        let mut digits = Vec::new(alloc);
        let mut places = Vec::new(alloc);
        for (at, byte) in pattern.iter().enumerate() {
            if *byte == b'?' {
                digits.push(b'0')?;
                places.push(at / 2)?;
            } else {
                digits.push(*byte)?;
            }
        }
        let mut bytes = vec![in alloc; 0; digits.len() / 2]?;
        match decode_to_slice(digits.as_slice(), &mut bytes) {
            Ok(()) => Ok(BytePattern { bytes, places }),
            Err(_) => Err(invalid()),
        }
    }

    /// Makes the next descriptor.
    pub fn renew(&mut self, numbers: &mut Numbers) {
        for at in &self.places {
            if let Some(cell) = self.bytes.get_mut(*at) {
                *cell = numbers.byte();
            }
        }
    }

    pub fn bytes(&self) -> &[u8] {
        &self.bytes
    }
}
