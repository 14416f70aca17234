//! How far something goes at the front of a text.

ghost use Rattle.std.specs.Prelude.{◌≡◌, ◌≤◌, length, drop, take, false};
ghost use Rattle.sd_sddl_builder.specs.Line.{trim, trim_end};
ghost use Rattle.sd_fault_places.specs.Fields.{blanks_before};
ghost use Rattle.sd_fault_places.specs.Inner.Cutting.{before_byte, before_head, front_head, head_in, trim_start};

use crate::shape::head_of;
use sd_sddl_builder::Head;
use sd_sddl_fields::is_blank;

/// How many bytes are before the first such byte.
pub(crate) fn before_byte(mark: u8, text: &[u8]) -> usize
    ensures value { result ≡ before_byte mark text.now }
    ensures within { result ≤ length text.now }
{
    let mut rest = text;
    while let Some((byte, tail)) = rest.split_first() {
        if *byte == mark {
            return text.len() - rest.len();
        }
        rest = tail;
    }
    text.len()
}

/// The bytes behind as many of them, as far as there are some.
pub(crate) fn behind(text: &[u8], size: usize) -> &[u8]
    ensures { result.now ≡ drop size text.now }
{
    &text[size.min(text.len())..]
}

/// As many bytes at the front, as far as there are some.
pub(crate) fn until(text: &[u8], size: usize) -> &[u8]
    ensures value { result.now ≡ take size text.now }
    ensures within { length result.now ≤ length text.now }
{
    &text[..size.min(text.len())]
}

// The head of a letter, if a colon follows it.
fn head_in(letter: u8, rest: &[u8]) -> Option<Head>
    ensures { result ≡ head_in letter rest.now }
{
    if rest.is_empty() || rest[0] != b':' {
        return None;
    }
    head_of(letter)
}

/// The head at the front of a text.
pub(crate) fn front_head(text: &[u8]) -> Option<Head>
    ensures { result ≡ front_head text.now }
{
    let (letter, rest) = text.split_first()?;
    head_in(*letter, rest)
}

/// How many bytes are before the first head.
pub(crate) fn before_head(text: &[u8]) -> usize
    ensures value { result ≡ before_head false text.now }
    ensures within { result ≤ length text.now }
{
    let mut inside = false;
    let mut rest = text;
    while let Some((byte, tail)) = rest.split_first() {
        if !inside && head_in(*byte, tail).is_some() {
            return text.len() - rest.len();
        }
        inside = if inside { *byte != b')' } else { *byte == b'(' };
        rest = tail;
    }
    text.len()
}

/// A text without the blanks at its ends, and how many of them are before it: of blanks alone none.
pub(crate) fn trim(text: &[u8]) -> (usize, &[u8])
    ensures offset { result.0 ≡ blanks_before text.now }
    ensures text { result.1.now ≡ trim text.now }
    ensures within { result.0 ≤ length text.now }
{
    let rest = trim_start(text);
    if rest.is_empty() {
        return (0, rest);
    }
    (text.len() - rest.len(), trim_end(rest))
}

fn trim_start(text: &[u8]) -> &[u8]
    ensures value { result.now ≡ trim_start text.now }
    ensures within { length result.now ≤ length text.now }
{
    let mut rest = text;
    while let Some((byte, tail)) = rest.split_first() {
        if !is_blank(*byte) {
            return rest;
        }
        rest = tail;
    }
    rest
}

fn trim_end(text: &[u8]) -> &[u8]
    ensures { result.now ≡ trim_end text.now }
{
    let mut rest = text;
    while let Some((byte, front)) = rest.split_last() {
        if !is_blank(*byte) {
            return rest;
        }
        rest = front;
    }
    rest
}
