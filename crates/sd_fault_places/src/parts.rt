//! The parts of a shaped text.

ghost use Rattle.std.specs.Prelude.{◌≡◌, ◌<◌, ◌+◌, ◌^◌, length, take, false, true, [], ◌∷◌, None, Some};
ghost use Rattle.std.specs.Prelude.{IfSome, MatchOption};
ghost use Rattle.std.specs.Option.{option_copied};
ghost use Rattle.std.specs.Str.{byte as char};
ghost use Rattle.sd_parts.specs.Parts.{each_part};
ghost use Rattle.sd_sddl_builder.specs.Line.{is_paired, part_of_head, pieces_from};
ghost use Rattle.sd_fault_places.specs.Fields.{fields_in, fields_in_body, front_field};
ghost use Rattle.sd_fault_places.specs.SddlPlaces.{first_faulty, first_large, large_in, second_head};
ghost use Rattle.sd_fault_places.specs.Inner.Cutting.{before_byte, parts_from};

use crate::cutting::{before_byte, before_head, behind, front_head, trim, until};
use crate::fields::{field_of, place, slot_fault};
use crate::place::FaultPlace;
use crate::sddl_aces::{aces_fault, aces_of, first_ace, passing};
use sd_kinds::AceKind;
use sd_parts::{Part, Parts};
use sd_sddl_builder::{Head, SddlFault, Slot};
use sd_sid::Sid;

/// A part of a text: its head, the place of that, and the text behind its colon.
#[derive(Clone, Copy)]
struct TextPart<'a> {
    head: Head,
    at: usize,
    body: &'a [u8],
    ghost small: { at + 2 + length body.now < 2 ^ 32 },
}

/// The parts that are left of a text, and the place of the first one.
#[derive(Clone, Copy)]
pub(crate) struct TextParts<'a> {
    pub at: usize,
    pub text: &'a [u8],
    ghost small: { at + length text.now < 2 ^ 32 },
    ghost paired: { is_paired false text.now ≡ true },
}

impl<'a> TextParts<'a> {
    // The first part, and those behind it.
    fn split_first(self) -> Option<(TextPart<'a>, TextParts<'a>)>
        ensures value { MatchOption result (parts_from self.entry.at self.entry.text.now ≡ [])
            (λ r. parts_from self.entry.at self.entry.text.now
            ≡ (record { head = r.0.head; at = r.0.at; body = (pieces_from false r.0.body.now).after })
            ∷ parts_from r.1.at r.1.text.now) }
        ensures shorter { IfSome result (λ r. length r.1.text.now < length self.entry.text.now) }
    {
        let Some(head) = front_head(self.text) else {
            return None;
        };
        let after = behind(self.text, 2);
        let size = before_head(after);
        let part = TextPart {
            head,
            at: self.at,
            body: until(after, size),
        };
        let left = TextParts {
            at: self.at + (size + 2),
            text: behind(after, size),
        };
        Some((part, left))
    }
}

/// The first head whose letter an earlier head has.
pub(crate) fn second_head(parts: TextParts<'_>) -> Option<FaultPlace>
    ensures { result ≡ second_head (each_part false) (parts_from parts.entry.at parts.entry.text.now) }
{
    let mut seen = Parts::each(false);
    let mut left = parts;
    while let Some((part, others)) = left.split_first() {
        let name = Part::from(part.head);
        if seen.get(name) {
            return Some(place(Some(name), None, None, part.at, 2));
        }
        seen.set(name, true);
        left = others;
    }
    None
}

/// The first field with a fault.
pub(crate) fn first_faulty(
    parts: TextParts<'_>,
    domain: Option<&Sid>,
) -> Option<(SddlFault, FaultPlace)>
    ensures { result
        ≡ first_faulty (option_copied domain.entry) (fields_in (parts_from parts.entry.at parts.entry.text.now)) }
{
    let mut left = parts;
    while let Some((part, others)) = left.split_first() {
        if let Some(found) = body_fault(part, domain) {
            return Some(found);
        }
        left = others;
    }
    None
}

/// The ACE with which an ACL is too large, of the first such ACL.
pub(crate) fn first_large(
    parts: TextParts<'_>,
    domain: Option<&Sid>,
) -> Option<(SddlFault, FaultPlace)>
    ensures { result ≡ first_large (option_copied domain.entry) (parts_from parts.entry.at parts.entry.text.now) }
{
    let mut left = parts;
    while let Some((part, others)) = left.split_first() {
        if let Some(found) = large_in(part, domain) {
            return Some(found);
        }
        left = others;
    }
    None
}

fn large_in(part: TextPart<'_>, domain: Option<&Sid>) -> Option<(SddlFault, FaultPlace)>
    ensures { result ≡ large_in (option_copied domain.entry) (part.entry.at + 2)
        (pieces_from false part.entry.body.now).after part.entry.head }
{
    match part.head {
        Head::Sid(_) => None,
        Head::Acl(which) => {
            let ace = passing(aces_of(part.at + 2, part.body), domain)?;
            let place = place(
                Some(Part::from(which)),
                Some(ace.number),
                None,
                ace.at,
                ace.text.len() + 2,
            );
            Some((SddlFault::AclTooLarge(which), place))
        }
    }
}

// The first field with a fault of a part.
fn body_fault(part: TextPart<'_>, domain: Option<&Sid>) -> Option<(SddlFault, FaultPlace)>
    ensures { result ≡ first_faulty (option_copied domain.entry)
        (fields_in_body part.entry.head (part.entry.at + 2) (pieces_from false part.entry.body.now).after) }
{
    match part.head {
        Head::Sid(sid) => front_fault(part, Slot::Sid(sid), domain),
        Head::Acl(which) => {
            let slot = Slot::AclFlags(which, first_ace(part.body).is_some());
            if let Some(found) = front_fault(part, slot, domain) {
                return Some(found);
            }
            aces_fault(Part::from(which), aces_of(part.at + 2, part.body), domain)
        }
    }
}

// The fault of what stands in a part before its ACEs.
fn front_fault(
    part: TextPart<'_>,
    slot: Slot,
    domain: Option<&Sid>,
) -> Option<(SddlFault, FaultPlace)>
    ensures { result ≡ first_faulty (option_copied domain.entry)
        (front_field (part_of_head part.entry.head) slot (part.entry.at + 2)
        (take (before_byte (char "(") part.entry.body.now) part.entry.body.now) ∷ []) }
{
    let (blanks, text) = trim(until(part.body, before_byte(b'(', part.body)));
    let fault = slot_fault(slot, AceKind::Allow, text, domain)?;
    let name = Part::from(part.head);
    let at = part.at + 2 + blanks;
    Some((
        fault,
        place(Some(name), None, Some(field_of(slot)), at, text.len()),
    ))
}
