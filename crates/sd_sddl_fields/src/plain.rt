//! The bytes of a field's text: blanks, and those that end no field.

ghost use Rattle.std.specs.Prelude.{◌≡◌, ◌≤◌, ◌<◌, ◌+◌, length, take, drop, slice_index, true, false};
ghost use Rattle.std.specs.List.{list_all};
ghost use Rattle.sd_sddl_fields.specs.FieldTexts.{is_blank};
ghost use Rattle.sd_sddl_fields.specs.Held.{is_plain_inside, is_plain_text};
ghost use Rattle.sd_sddl_fields.specs.Inner.Blocks.{is_plain_late};

/// The bytes of a text that are looked at together.
const BLOCK: usize = 8;

/// A space or a tab.
pub fn is_blank(byte: u8) -> bool
    ensures { result ≡ is_blank byte }
{
    byte == b' ' || byte == b'\t'
}

/// A byte that only goes onto the text of a field inside parentheses.
pub fn is_plain_inside(byte: u8) -> bool
    ensures { result ≡ is_plain_inside byte }
{
    // Digits, dashes and letters are told by these two tests.
    if byte > b')' {
        return byte != b';';
    }
    !(byte == b'(' || byte == b')' || is_blank(byte))
}

/// How many bytes at the front only go onto the text of a field inside parentheses: all up to the first other one.
#[tactic(auto, using(std::proofs::lemmas::List::Folds::list_all_more))]
#[inline(never)]
pub fn plain_inside(text: &[u8]) -> usize
    ensures within { result ≤ length text.now }
    ensures plain { list_all is_plain_inside (take result text.now) ≡ true }
    ensures ends { result < length text.now → is_plain_inside (slice_index text.now result) ≡ false }
{
    for (i, byte) in text.iter().enumerate() {
        if !is_plain_inside(*byte) {
            return i;
        }
    }
    text.len()
}

/// A byte that goes onto the text of a field outside parentheses, unless it is the letter of a head.
pub fn is_plain_text(byte: u8) -> bool
    ensures { result ≡ is_plain_text byte }
{
    is_plain_inside(byte) && byte != b':'
}

/// How many bytes at the front are no parentheses, colons, semicolons or blanks: all up to the first of these.
#[tactic(auto, using(std::proofs::lemmas::List::Folds::list_all_more))]
pub fn plain_text(text: &[u8]) -> usize
    ensures within { result ≤ length text.now }
    ensures plain { list_all is_plain_text (take result text.now) ≡ true }
    ensures ends { result < length text.now → is_plain_text (slice_index text.now result) ≡ false }
{
    let blocks = plain_blocks(text);
    for place in blocks..text.len() {
        if !is_plain_text(text[place]) {
            return place;
        }
    }
    text.len()
}

// How many bytes at the front stand in whole blocks of such bytes, up to the first block with another byte.
#[inline(always)]
fn plain_blocks(text: &[u8]) -> usize
    ensures within { result ≤ length text.now }
    ensures plain { list_all is_plain_text (take result text.now) ≡ true }
    ensures ends { result + 8 ≤ length text.now → list_all is_plain_late (take 8 (drop result text.now)) ≡ false }
{
    let mut count = 0;
    while text.len() - count >= BLOCK && are_plain(&text[count..count + BLOCK]) {
        count += BLOCK;
    }
    count
}

// Whether no byte is a parenthesis, a colon, a semicolon or a blank, nor any other before `*`. It looks at all bytes
// and at each in the same way, and so at several at a time.
#[inline(always)]
fn are_plain(text: &[u8]) -> bool
    ensures { result ≡ list_all is_plain_late text.now }
{
    let mut other = false;
    for byte in text {
        other |= (*byte < b'*') | (*byte == b':') | (*byte == b';');
    }
    !other
}
