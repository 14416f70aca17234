//! The texts of SIDs (MS-DTYP 2.4.2.1).
ghost use Rattle.std.specs.Prelude.{◌≡◌, false, true, ◌+◌, ◌*◌, ◌<◌, ◌≤◌, ◌^◌, [], ◌∷◌, length, take, drop};
ghost use Rattle.std.specs.Prelude.{slice_index, nat_lt, if◌then◌else◌, IfSome, MatchOption, MatchResult, Option, None};
ghost use Rattle.std.specs.Prelude.{Ok, Err};
ghost use Rattle.std.specs.Char.{is_digit};
ghost use Rattle.std.specs.List.{list_all};
ghost use Rattle.std.specs.Option.{option_copied, option_map};
ghost use Rattle.sd_sid.specs.Sid.{IsSid, SecurityId};
ghost use Rattle.sd_sink.specs.Print.{Prints};
ghost use Rattle.sd_sink.specs.Sink.{Puts};
ghost use Rattle.sd_text.specs.Limits.{most_subs};
ghost use Rattle.sd_text.specs.Cuts.{all_cuts};
ghost use Rattle.sd_sid.specs.Inner.Read.{IsRead};
ghost use Rattle.sd_sid.specs.SidText.{decimals_read, are_letters, are_numbers, are_subs, authority_reads};
ghost use Rattle.sd_sid.specs.SidText.{authority_text, begins_with_s1, decimal_reads, has_form, is_decimal, is_hex};
ghost use Rattle.sd_sid.specs.SidText.{is_sid_byte, numbers_read, or_number_fault, cut_at_dashes, sid_front, sid_reads};
ghost use Rattle.sd_sid.specs.SidText.{sid_text};

use crate::alias::read_letters;
use crate::sid::Sid;
use crate::usual_sid::read_usual;
use sd_sink::{Print, Printer, Sink, SinkFault};
use sd_text::{
    MOST_FIELD_SIZE, MOST_SUBS, print_decimal, print_decimal_behind, print_hex, read_number,
};
use std::str::FromStr;

/// Why a text is no SID.
#[derive(Clone, Copy, Debug, PartialEq, Eq)]
pub enum SidFault {
    /// 22: two letters that name no SID.
    Alias,
    /// 23: the name of a SID in a domain, and no domain with room for one more sub-authority.
    NeedsDomain,
    /// 24: a decimal number of more than 10 digits, or of 2^32 or more.
    Number,
    /// 25: neither two letters nor of the form `S-1-`, authority and sub-authorities.
    SidForm,
}

/// The digits of an authority in hex.
const HEX_DIGITS: usize = 12;

impl Sid {
    /// Puts the text: `S-1-`, the authority, and a dash and a number for each sub-authority. Numbers are
    /// decimal; an authority of 2^32 or more is `0x` and twelve hex digits. As `S-1-5-32-544`.
    ///
    /// ```
    /// let mut sink = TextSink::new(&rt);
    /// let system = Sid::new(5, &[18]).expect(&rt, "a SID");
    /// assert!(rt; system.put_text(&mut sink) == Ok(()) && sink.bytes() == b"S-1-5-18".as_slice());
    /// ```
    pub fn put_text<S: Sink>(&self, sink: &mut S) -> Result<(), SinkFault>
        ensures put { Puts (S.told sink.old) (S.told sink.new) (sid_text self.now) result }
        // The text reads back, and has letters, digits and dashes alone.
        ensures back { (domain : Option SecurityId) → sid_reads (sid_text self.now) domain ≡ Ok self.now }
        ensures plain { list_all is_sid_byte (sid_text self.now) ≡ true }
        ensures short { length (sid_text self.now) ≤ 18 + 11 * length self.now.subs }
    {
        let mut out = Printer::new(sink);
        self.print_text(&mut out);
        out.finish()
    }

    /// Prints the text, as `put_text` puts it.
    pub fn print_text<P: Print>(&self, out: &mut P)
        ensures put { Prints (P.told out.old) (P.told out.new) (sid_text self.now) }
        ensures limits { IsSid self.now }
    {
        out.put(b"S-1-");
        print_authority(self.authority(), out);
        for sub in self.subs() {
            print_decimal_behind(b'-', *sub, out);
        }
    }

    /// The SID of a text. Two letters are an alias, in either case, some of them under the domain, which
    /// counts as none where it has 15 sub-authorities. Any other text is `S-1-`, the authority in decimal or
    /// as `0x` and twelve hex digits, and at most 15 times a dash and a decimal number: at most 183 bytes,
    /// letters in either case, and numbers of at most ten digits below 2^32. The form is looked at before
    /// the numbers. So `BA`, `ba` and `S-1-5-32-544` are one SID.
    ///
    /// ```
    /// assert!(rt; Sid::from_text(b"BA", None).ok() == Sid::new(5, &[32, 544]));
    /// ```
    #[tactic(auto, unfolding(crate::specs::SidText::sid_reads))]
    #[inline(always)]
    pub fn from_text(text: &[u8], domain: Option<&Sid>) -> Result<Sid, SidFault>
        ensures exact { result ≡ sid_reads text.now (option_copied domain.entry) }
    {
        let mut sid = Sid::blank();
        match read_text(text, domain, &mut sid) {
            Ok(()) => Ok(sid),
            Err(fault) => Err(fault),
        }
    }

    /// Reads the SID at the front of a text, as `from_text` does, into one that is blank, and returns the text's
    /// length. For `S-1-5-32-544)` that is the SID of `BA`, and 12.
    #[inline(always)]
    pub fn read_front(
        text: &[u8],
        domain: Option<&Sid>,
        sid: &mut Sid,
    ) -> (Result<(), SidFault>, usize)
        requires { sid.old.subs ≡ [] }
        ensures exact { MatchResult result.0
            (λ _. sid_reads (sid_front text.now) (option_copied domain.entry) ≡ Ok sid.new)
            (λ fault. sid_reads (sid_front text.now) (option_copied domain.entry) ≡ Err fault) }
        ensures size { result.1 ≡ length (sid_front text.now) }
        // What was read, and where the rest begins.
        ensures front { take result.1 text.now ≡ sid_front text.now }
        ensures within { result.1 ≤ length text.now }
    {
        read_front(text, domain, sid)
    }
}

/// Reads a SID as `from_text` does, without a domain.
impl FromStr for Sid {
    type Err = SidFault;

    ghost from_str_gives = { λ text result. result ≡ sid_reads text None };

    fn from_str(text: &str) -> Result<Sid, SidFault> {
        Sid::from_text(text.as_bytes(), None)
    }
}

// Reads the SID of a text into one that is blank. The SID is written where it stays, since it is large.
#[inline(never)]
#[tactic(auto, unfolding(crate::specs::SidText::sid_reads))]
fn read_text(text: &[u8], domain: Option<&Sid>, sid: &mut Sid) -> Result<(), SidFault>
    requires { sid.old.subs ≡ [] }
    ensures { IsRead (sid_reads text.now (option_copied domain.entry)) result sid.new }
{
    if are_letters(text) {
        return read_letters(text[0], text[1], domain, sid);
    }
    if read_usual(text, sid) == Some(text.len()) {
        return Ok(());
    }
    read_any(text, sid)
}

// The same for what stands at the front of a text, and its length.
#[inline(never)]
#[tactic(auto, unfolding(crate::specs::SidText::sid_reads))]
fn read_front(text: &[u8], domain: Option<&Sid>, sid: &mut Sid) -> (Result<(), SidFault>, usize)
    requires { sid.old.subs ≡ [] }
    ensures read { IsRead (sid_reads (sid_front text.now) (option_copied domain.entry)) result.0 sid.new }
    ensures front { take result.1 text.now ≡ sid_front text.now }
    ensures within { result.1 ≤ length text.now }
    ensures size { result.1 ≡ length (sid_front text.now) }
{
    if front_is_letters(text) {
        return (read_letters(text[0], text[1], domain, sid), 2);
    }
    if let Some(size) = read_usual(text, sid) {
        return (Ok(()), size);
    }
    let size = front_size(text);
    (read_any(&text[..size], sid), size)
}

fn front_size(text: &[u8]) -> usize
    ensures front { take result text.now ≡ sid_front text.now }
    ensures within { result ≤ length text.now }
{
    for (i, byte) in text.iter().enumerate() {
        if !is_sid_byte(*byte) {
            return i;
        }
    }
    text.len()
}

pub(crate) fn is_sid_byte(byte: u8) -> bool
    ensures { result ≡ is_sid_byte byte }
{
    // Most texts end before a byte that the first test finds.
    b'-' <= byte && (byte == b'-' || byte.is_ascii_alphanumeric())
}

fn begins_as_sid(text: &[u8]) -> bool
    ensures { result ≡ nat_lt 0 (length (sid_front text.now)) }
{
    match text.first() {
        Some(byte) => is_sid_byte(*byte),
        None => false,
    }
}

// Whether two letters are at the front.
fn front_is_letters(text: &[u8]) -> bool
    ensures letters { result ≡ are_letters (sid_front text.now) }
    ensures two { result ≡ true → sid_front text.now ≡ slice_index text.now 0 ∷ slice_index text.now 1 ∷ [] }
    ensures long { result ≡ true → 2 ≤ length text.now }
{
    if text.len() < 2 || !text[0].is_ascii_alphabetic() || !text[1].is_ascii_alphabetic() {
        return false;
    }
    !begins_as_sid(&text[2..])
}

// Reads the SID of a text that is not an alias. Not inlined: it is rare and needs much stack.
#[inline(never)]
fn read_any(text: &[u8], sid: &mut Sid) -> Result<(), SidFault>
    ensures { IsRead (if has_form text.now then or_number_fault (numbers_read (cut_at_dashes (drop 4 text.now)))
        else Err SidFault.SidForm) result sid.new }
{
    if !has_form(text) {
        return Err(SidFault::SidForm);
    }
    match read_numbers(&text[4..]) {
        Some(read) => {
            *sid = read;
            Ok(())
        }
        None => Err(SidFault::Number),
    }
}

/// Prints an authority as the text of a SID has it: decimal below 2^32, and else twelve hex digits.
pub fn print_authority<P: Print>(authority: u64, out: &mut P)
    ensures { Prints (P.told out.old) (P.told out.new) (authority_text authority) }
{
    if authority < 1 << 32 {
        return print_decimal(authority as u32, out);
    }
    out.put(b"0x");
    print_hex(HEX_DIGITS, authority, out);
}

fn are_letters(text: &[u8]) -> bool
    ensures { result ≡ are_letters text.now }
{
    text.len() == 2 && text[0].is_ascii_alphabetic() && text[1].is_ascii_alphabetic()
}

#[tactic(auto, unfolding(crate::specs::SidText::has_form))]
fn has_form(text: &[u8]) -> bool
    ensures value { result ≡ has_form text.now }
    ensures long { result ≡ true → 4 ≤ length text.now }
{
    if text.len() > MOST_FIELD_SIZE || !begins_with_s1(text) {
        return false;
    }
    are_numbers(&text[4..])
}

pub(crate) fn begins_with_s1(text: &[u8]) -> bool
    ensures value { result ≡ begins_with_s1 text.now }
    ensures long { result ≡ true → 4 ≤ length text.now }
{
    if text.len() < 4 {
        return false;
    }
    (text[0] == b'S' || text[0] == b's') && text[1] == b'-' && text[2] == b'1' && text[3] == b'-'
}

// Whether an authority and then at most 15 numbers are between the dashes.
fn are_numbers(text: &[u8]) -> bool
    ensures { result ≡ are_numbers (cut_at_dashes text.now) }
{
    let (first, rest) = cut(text);
    if !is_hex(first) && !is_decimal(first) {
        return false;
    }
    match rest {
        None => true,
        Some(rest) => are_subs(rest),
    }
}

fn are_subs(text: &[u8]) -> bool
    ensures { result ≡ are_subs 0 (all_cuts (cut_at_dashes text.now)) }
{
    let mut rest = text;
    let mut count = 0;
    loop {
        let (piece, after) = cut(rest);
        if count == MOST_SUBS || !is_decimal(piece) {
            return false;
        }
        count += 1;
        match after {
            None => return true,
            Some(after) => rest = after,
        }
    }
}

// What comes before the first dash, and what follows it.
fn cut(text: &[u8]) -> (&[u8], Option<&[u8]>)
    ensures cut { MatchOption result.1 (cut_at_dashes text.now ≡ record { first = result.0.now; others = [] })
        (λ rest. cut_at_dashes text.now ≡ record { first = result.0.now; others = all_cuts (cut_at_dashes rest.now) }) }
    ensures shorter { MatchOption result.1 (0 ≤ 0) (λ rest. length rest.now < length text.now) }
{
    for (i, byte) in text.iter().enumerate() {
        if *byte == b'-' {
            return (&text[..i], Some(&text[i + 1..]));
        }
    }
    (text, None)
}

fn is_decimal(text: &[u8]) -> bool
    ensures { result ≡ is_decimal text.now }
{
    !text.is_empty() && are_digits(10, text)
}

fn is_hex(text: &[u8]) -> bool
    ensures { result ≡ is_hex text.now }
{
    if text.len() != 2 + HEX_DIGITS {
        return false;
    }
    text[0] == b'0' && text[1].to_ascii_lowercase() == b'x' && are_digits(16, &text[2..])
}

fn are_digits(base: u32, text: &[u8]) -> bool
    requires low { 2 ≤ base }
    requires high { base ≤ 16 }
    ensures { result ≡ list_all (λ b. is_digit b base) text.now }
{
    text.iter().all(|byte| char::from(*byte).is_digit(base))
}

#[tactic(auto, unfolding(crate::specs::SidText::numbers_read))]
fn read_numbers(text: &[u8]) -> Option<Sid>
    requires { length (cut_at_dashes text.now).others ≤ most_subs }
    ensures { result ≡ numbers_read (cut_at_dashes text.now) }
{
    let (first, rest) = cut(text);
    let authority = read_authority(first)?;
    let mut subs = [0; MOST_SUBS];
    let count = match rest {
        None => 0,
        Some(rest) => read_subs(rest, &mut subs)?,
    };
    Sid::new(authority, &subs[..count])
}

fn read_authority(text: &[u8]) -> Option<u64>
    ensures value { result ≡ authority_reads text.now }
    ensures limit { IfSome result (λ n. n < 2 ^ 48) }
{
    if is_hex(text) {
        return read_number(16, 1 << 48, &text[2..]);
    }
    read_decimal(text)
}

// Writes the numbers to the front of the array, and says how many there are.
fn read_subs(text: &[u8], subs: &mut [u32; MOST_SUBS]) -> Option<usize>
    requires { length (all_cuts (cut_at_dashes text.now)) ≤ most_subs }
    ensures count { IfSome result (λ n. n ≤ most_subs) }
    ensures numbers { option_map (λ n. take n subs.new) result ≡ decimals_read (all_cuts (cut_at_dashes text.now)) }
{
    let mut rest = text;
    let mut count = 0;
    loop {
        let (piece, after) = cut(rest);
        subs[count] = read_decimal(piece)? as u32;
        count += 1;
        match after {
            None => return Some(count),
            Some(after) => rest = after,
        }
    }
}

fn read_decimal(text: &[u8]) -> Option<u64>
    ensures value { result ≡ decimal_reads text.now }
    ensures limit { IfSome result (λ n. n < 2 ^ 32) }
{
    if text.len() > 10 {
        return None;
    }
    read_number(10, 1 << 32, text)
}
