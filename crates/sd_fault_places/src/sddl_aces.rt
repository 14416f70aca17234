//! The ACEs of a part, and their fields.

ghost use Rattle.std.specs.Prelude.{◌≡◌, ◌≤◌, ◌<◌, ◌+◌, ◌*◌, ◌^◌, length, [], ◌∷◌};
ghost use Rattle.std.specs.Prelude.{IfSome, None, Some, MatchOption};
ghost use Rattle.std.specs.Option.{is_some, option_map, option_copied};
ghost use Rattle.sd_ace.specs.Ace.{guid_size, sid_offset};
ghost use Rattle.sd_sid.specs.SidText.{sid_reads};
ghost use Rattle.sd_fault_places.specs.Fields.{fields_in_ace, fields_in_aces, kind_in};
ghost use Rattle.sd_fault_places.specs.SddlPlaces.{cut_number, first_faulty, object_in, passing, read_size, size_in};
ghost use Rattle.sd_fault_places.specs.Inner.Cutting.{aces_at, first_ace};

use crate::cutting::{before_byte, behind, until};
use crate::fields::{name_of, place, slot_fault};
use crate::place::FaultPlace;
use sd_ace::{FRONT_SIZE, GUID_SIZE, OBJECT_FRONT_SIZE};
use sd_kinds::AceKind;
use sd_parts::{ACL_HEADER_SIZE, MOST_ACL_SIZE, Part};
use sd_sddl_builder::{AceField, SddlFault, Slot, next_field};
use sd_sddl_fields::object_from_text;
use sd_sid::Sid;

/// An ACE: its number in its part, from 0, where its first parenthesis is, and the text between its parentheses.
#[derive(Clone, Copy)]
pub(crate) struct PlacedAce<'a> {
    pub number: u32,
    pub at: usize,
    pub text: &'a [u8],
    ghost small: { at + length text.now < 2 ^ 33 },
}

/// The ACEs that are left of a part: the number of the first one, and the text from some place on.
#[derive(Clone, Copy)]
pub(crate) struct TextAces<'a> {
    number: u32,
    at: usize,
    text: &'a [u8],
    ghost small: { at + 2 * length text.now < 2 ^ 33 },
    ghost few: { number + length text.now < 2 ^ 32 },
}

impl<'a> TextAces<'a> {
    // The first ACE, and those behind it.
    fn split_first(self) -> Option<(PlacedAce<'a>, TextAces<'a>)>
        ensures value { MatchOption result (aces_at self.entry.number self.entry.at self.entry.text.now ≡ [])
            (λ r. aces_at self.entry.number self.entry.at self.entry.text.now
            ≡ (record { number = r.0.number; at = r.0.at; text = r.0.text.now })
            ∷ aces_at r.1.number r.1.at r.1.text.now) }
        ensures shorter { IfSome result (λ r. length r.1.text.now < length self.entry.text.now) }
    {
        let Some((before, text)) = first_ace(self.text) else {
            return None;
        };
        let ace = PlacedAce {
            number: self.number,
            at: self.at + before,
            text,
        };
        let size = before + (text.len() + 2);
        let left = TextAces {
            number: self.number + 1,
            at: self.at + size,
            text: behind(self.text, size),
        };
        Some((ace, left))
    }
}

/// The bytes before the first ACE, and its text.
pub(crate) fn first_ace(body: &[u8]) -> Option<(usize, &[u8])>
    ensures value { MatchOption result (first_ace body.now ≡ None)
        (λ r. first_ace body.now ≡ Some (r.0, r.1.now)) }
    ensures some { is_some result ≡ is_some (first_ace body.now) }
    ensures within { IfSome result (λ r. r.0 + (length r.1.now + 1) ≤ length body.now) }
{
    let before = before_byte(b'(', body);
    let (_, rest) = behind(body, before).split_first()?;
    let text = until(rest, before_byte(b')', rest));
    Some((before, text))
}

/// The ACEs of a part.
pub(crate) fn aces_of(at: usize, body: &[u8]) -> TextAces<'_>
    requires small { at + length body.now < 2 ^ 32 }
    ensures { aces_at result.number result.at result.text.now ≡ aces_at 0 at body.now }
{
    TextAces {
        number: 0,
        at,
        text: body,
    }
}

/// The first field with a fault among those of the ACEs of a part.
pub(crate) fn aces_fault(
    part: Part,
    aces: TextAces<'_>,
    domain: Option<&Sid>,
) -> Option<(SddlFault, FaultPlace)>
    ensures { result ≡ first_faulty (option_copied domain.entry)
        (fields_in_aces part (aces_at aces.entry.number aces.entry.at aces.entry.text.now)) }
{
    let mut left = aces;
    while let Some((ace, others)) = left.split_first() {
        if let Some(found) = ace_fault(part, ace, domain) {
            return Some(found);
        }
        left = others;
    }
    None
}

// The first field with a fault of an ACE.
fn ace_fault(
    part: Part,
    ace: PlacedAce<'_>,
    domain: Option<&Sid>,
) -> Option<(SddlFault, FaultPlace)>
    ensures { result ≡ first_faulty (option_copied domain.entry)
        (fields_in_ace part (record { number = ace.entry.number; at = ace.entry.at; text = ace.entry.text.now })) }
{
    let mut rest = ace.text;
    let kind = kind_in(until(rest, before_byte(b';', rest)));
    let mut field = AceField::Kind;
    let mut at = ace.at + 1;
    'fields: loop {
        let size = before_byte(b';', rest);
        let cut = until(rest, size);
        if let Some(fault) = slot_fault(Slot::Ace(field), kind, cut, domain) {
            return Some((
                fault,
                place(
                    Some(part),
                    Some(ace.number),
                    Some(name_of(field)),
                    at,
                    cut.len(),
                ),
            ));
        }
        let (_, tail) = behind(rest, size).split_first()?;
        at += cut.len() + 1;
        rest = tail;
        field = next_field(field);
    }
}

#[tactic(auto, unfolding(sd_sddl_fields::specs::FieldTexts::kind_reads))]
fn kind_in(text: &[u8]) -> AceKind
    ensures { result ≡ kind_in text.now }
{
    AceKind::from_text(text).unwrap_or(AceKind::Allow)
}

/// The ACE with which an ACL passes the largest size.
pub(crate) fn passing<'a>(aces: TextAces<'a>, domain: Option<&Sid>) -> Option<PlacedAce<'a>>
    ensures value { option_map (λ a. record { number = a.number; at = a.at; text = a.text.now }) result
        ≡ passing (option_copied domain.entry) 8 (aces_at aces.entry.number aces.entry.at aces.entry.text.now) }
{
    let mut total = ACL_HEADER_SIZE;
    let mut left = aces;
    while let Some((ace, others)) = left.split_first() {
        total += size_in(ace.text, domain);
        if total > MOST_ACL_SIZE {
            return Some(ace);
        }
        left = others;
    }
    None
}

// The size of an ACE whose fields read.
fn size_in(text: &[u8], domain: Option<&Sid>) -> usize
    ensures value { result ≡ size_in (option_copied domain.entry) text.now }
    ensures small { result ≤ 200 }
{
    let kind = kind_in(cut_number(0, text));
    sid_offset(kind, cut_number(3, text), cut_number(4, text))
        + sid_size(cut_number(5, text), domain)
}

fn sid_offset(kind: AceKind, object: &[u8], inherited: &[u8]) -> usize
    ensures value { result ≡ sid_offset kind (object_in kind object.now) (object_in kind inherited.now) }
    ensures small { result ≤ 44 }
{
    if !kind.is_object() {
        return FRONT_SIZE;
    }
    OBJECT_FRONT_SIZE + guid_size(kind, object) + guid_size(kind, inherited)
}

fn guid_size(kind: AceKind, text: &[u8]) -> usize
    ensures value { result ≡ guid_size (object_in kind text.now) }
    ensures small { result ≤ 16 }
{
    match object_from_text(kind, text) {
        Some(Some(_)) => GUID_SIZE,
        _ => 0,
    }
}

fn sid_size(text: &[u8], domain: Option<&Sid>) -> usize
    ensures value { result ≡ read_size (sid_reads text.now (option_copied domain.entry)) }
    ensures small { result ≤ 68 }
{
    match Sid::from_text(text, domain) {
        Ok(sid) => sid.size(),
        Err(_) => 0,
    }
}

// A field of an ACE, from 0.
fn cut_number(number: usize, text: &[u8]) -> &[u8]
    ensures { result.now ≡ cut_number number text.now }
{
    let mut rest = text;
    for _ in 0..number {
        rest = behind(behind(rest, before_byte(b';', rest)), 1);
    }
    until(rest, before_byte(b';', rest))
}
