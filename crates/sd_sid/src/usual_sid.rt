//! The usual text of a SID, with decimal numbers alone, read in one pass from the front of a longer text.

ghost use Rattle.std.specs.Prelude.{◌≡◌, ◌≤◌, ◌<◌, ◌+◌, ◌++◌, [], List, ℕ, codes, length, drop, true, false};
ghost use Rattle.std.specs.Prelude.{IfSome, MatchOption, Some};
ghost use Rattle.std.specs.Option.{option_map};
ghost use Rattle.sd_text.specs.Cuts.{all_cuts};
ghost use Rattle.sd_sid.specs.Inner.Read.{HasBegun};
ghost use Rattle.sd_sid.specs.SidText.{decimals_read, are_numbers, are_subs, decimal_reads, has_form, is_decimal};
ghost use Rattle.sd_sid.specs.SidText.{numbers_read, cut_at_dashes, sid_front};

use crate::sid::Sid;
use crate::sid_text::{begins_with_s1, is_sid_byte};
use sd_text::{MOST_FIELD_SIZE, MOST_SUBS, front_decimal};

/// The authority of Windows itself, and the first sub-authority of a domain's SIDs: `S-1-5-21`.
pub(crate) const NT: u32 = 5;

pub(crate) const DOMAIN: u32 = 21;

/// Reads a SID in its usual form, with all numbers decimal and below 2^32, and returns its length. `None` means only
/// that the general reader must decide.
#[inline(always)]
pub(crate) fn read_usual(text: &[u8], sid: &mut Sid) -> Option<usize>
    requires none { sid.old.subs ≡ [] }
    ensures size { IfSome result (λ n. n ≡ length (sid_front text.now)) }
    ensures form { IfSome result (λ _. has_form (sid_front text.now) ≡ true) }
    ensures numbers { IfSome result (λ _. numbers_read (cut_at_dashes (drop 4 (sid_front text.now))) ≡ Some sid.new) }
{
    if !begins_with_s1(text) {
        return None;
    }
    let size = usual_numbers(&text[4..], sid)?;
    if size > MOST_FIELD_SIZE - 4 {
        return None;
    }
    Some(size + 4)
}

// The same for what follows `S-1-`.
#[inline(always)]
fn usual_numbers(text: &[u8], sid: &mut Sid) -> Option<usize>
    requires none { sid.old.subs ≡ [] }
    ensures size { IfSome result (λ n. n ≡ length (sid_front text.now)) }
    ensures form { IfSome result (λ _. are_numbers (cut_at_dashes (sid_front text.now)) ≡ true) }
    ensures numbers { IfSome result (λ _. numbers_read (cut_at_dashes (sid_front text.now)) ≡ Some sid.new) }
{
    let after = first_numbers(text, sid)?;
    let rest = usual_subs(after, sid)?;
    Some(text.len() - rest.len())
}

// The authority, and the first sub-authority too where it is that of a domain. Returns what follows.
#[inline(always)]
#[tactic(auto, unfolding(crate::specs::SidText::numbers_read))]
fn first_numbers<'a>(text: &'a [u8], sid: &mut Sid) -> Option<&'a [u8]>
    requires none { sid.old.subs ≡ [] }
    ensures { IfSome result (λ after. HasBegun text.now after.now sid.new) }
{
    // Most SIDs are of a domain.
    if begins_with_domain(text) {
        sid.set_authority(NT);
        sid.push(DOMAIN);
        return Some(&text[4..]);
    }
    let (authority, after) = front_number(text)?;
    sid.set_authority(authority);
    Some(after)
}

#[inline(always)]
fn begins_with_domain(text: &[u8]) -> bool
    ensures { result ≡ true → text.now ≡ codes "5-21-" ++ drop 5 text.now }
{
    if text.len() < 5 {
        return false;
    }
    text[0] == b'5' && text[1] == b'-' && text[2] == b'2' && text[3] == b'1' && text[4] == b'-'
}

// Appends the numbers after dashes to a SID that has one at most, and returns what follows them.
#[inline(always)]
fn usual_subs<'a>(text: &'a [u8], sid: &mut Sid) -> Option<&'a [u8]>
    requires few { length sid.old.subs ≤ 1 }
    requires ends { (cut_at_dashes (sid_front text.now)).first ≡ [] }
    ensures form { IfSome result
        (λ _. are_subs (length sid.old.subs) (cut_at_dashes (sid_front text.now)).others ≡ true) }
    ensures numbers { IfSome result (λ _. option_map (λ ns. sid.old.subs ++ ns)
        (decimals_read (cut_at_dashes (sid_front text.now)).others) ≡ Some sid.new.subs) }
    ensures size { IfSome result (λ r. length (sid_front text.now) + length r.now ≡ length text.now) }
    ensures authority { sid.new.authority ≡ sid.old.authority }
{
    let mut rest = text;
    while let Some(next) = behind_dash(rest) {
        if sid.subs().len() == MOST_SUBS {
            return None;
        }
        let (number, after) = front_number(next)?;
        sid.push(number);
        rest = after;
    }
    Some(rest)
}

// What follows the dash at the front. None if nothing of a SID is there.
#[inline(always)]
fn behind_dash(text: &[u8]) -> Option<&[u8]>
    requires ends { (cut_at_dashes (sid_front text.now)).first ≡ [] }
    ensures cut { MatchOption result (sid_front text.now ≡ []) (λ next. cut_at_dashes (sid_front text.now)
        ≡ record { first = []; others = all_cuts (cut_at_dashes (sid_front next.now)) }) }
    ensures size { IfSome result (λ next. length (sid_front text.now) + length next.now
        ≡ length (sid_front next.now) + length text.now) }
{
    match text.split_first() {
        Some((b'-', next)) => Some(next),
        _ => None,
    }
}

// The number at the front and the text after its digits. That text starts with a dash or with a byte that no SID has.
#[inline(always)]
fn front_number(text: &[u8]) -> Option<(u32, &[u8])>
    ensures number { IfSome result (λ r. (first : List ℕ) × (is_decimal first ≡ true) × (decimal_reads first ≡ Some r.0)
        × (cut_at_dashes (sid_front text.now)
        ≡ record { first = first; others = (cut_at_dashes (sid_front r.1.now)).others })) }
    ensures ends { IfSome result (λ r. (cut_at_dashes (sid_front r.1.now)).first ≡ []) }
    ensures size { IfSome result (λ r. length (sid_front text.now) + length r.1.now
        ≡ length (sid_front r.1.now) + length text.now) }
{
    let (number, count) = front_decimal(text);
    let after = &text[count..];
    if count == 0 || number >= 1 << 32 || !ends_number(after) {
        return None;
    }
    Some((number as u32, after))
}

// Whether a dash is at the front, or what is of no SID.
#[inline(always)]
fn ends_number(text: &[u8]) -> bool
    ensures ends { result ≡ true → (cut_at_dashes (sid_front text.now)).first ≡ [] }
    ensures goes { result ≡ false → (cut_at_dashes (sid_front text.now)).first ≡ [] → ⊥ }
{
    match text.split_first() {
        Some((byte, _)) => *byte == b'-' || !is_sid_byte(*byte),
        None => true,
    }
}
