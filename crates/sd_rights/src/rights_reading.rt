//! Reading access rights (MS-DTYP 2.5.1.1).

ghost use Rattle.std.specs.Prelude.{◌≡◌, ◌≤◌};
ghost use Rattle.sd_rights.specs.Rights.{after_zero, mask_reads, rights_reads, short_rights_reads};

use crate::right_cells::RIGHT_CELLS;
use sd_text::{MOST_FIELD_SIZE, read_names, read_number};

/// The access mask of a text of at most 183 bytes (MS-DTYP 2.5.1.1). No text at all is 0. A text that begins
/// with a decimal digit is a number below 2^32: hex after `0x` or `0X`, octal after any other zero, and else
/// decimal. Any other is a run of names of two letters, in either case and any order, also repeated; each
/// name reads in every kind of ACE. None for a text that is neither. So `CCDC`, `0x3`, `03` and `3` are one mask.
///
/// ```
/// assert!(rt; rights_from_text(b"FR") == Some(0x120089));
/// assert!(rt; rights_from_text(b"RCWD") == Some(READ_CONTROL | WRITE_DAC));
/// assert!(rt; rights_from_text(b"F") == None);
/// ```
#[tactic(auto, unfolding(crate::specs::Rights::rights_reads))]
pub fn rights_from_text(text: &[u8]) -> Option<u32>
    ensures { result ≡ rights_reads text.now }
{
    if text.len() > MOST_FIELD_SIZE {
        return None;
    }
    read_rights(text)
}

#[tactic(auto, unfolding(sd_text::specs::Names::run_of))]
fn read_rights(text: &[u8]) -> Option<u32>
    ensures { result ≡ short_rights_reads text.now }
{
    let Some((first, rest)) = text.split_first() else {
        return Some(0);
    };
    if !char::from(*first).is_digit(10) {
        return read_names(&RIGHT_CELLS, text);
    }
    if *first == b'0' {
        read_after_zero(rest)
    } else {
        read_mask(10, text)
    }
}

// What follows a zero: x and hex digits, octal digits, or nothing.
fn read_after_zero(text: &[u8]) -> Option<u32>
    ensures { result ≡ after_zero text.now }
{
    match text.split_first() {
        None => Some(0),
        Some((b'x' | b'X', digits)) => read_mask(16, digits),
        Some(_) => read_mask(8, text),
    }
}

// The number below 2^32 that one digit or more write.
#[tactic(auto, using(crate::proofs::MaskNumbers::number_is))]
fn read_mask(base: u32, digits: &[u8]) -> Option<u32>
    requires low { 2 ≤ base }
    requires high { base ≤ 16 }
    ensures { result ≡ mask_reads base digits.now }
{
    if digits.is_empty() {
        return None;
    }
    let mask = read_number(base, 1 << 32, digits)?;
    Some(mask as u32)
}
