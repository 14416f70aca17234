//! The faults of fields.

ghost use Rattle.std.specs.Prelude.{◌≡◌, false, if◌then◌else◌, None, Some};
ghost use Rattle.std.specs.Option.{option_copied};
ghost use Rattle.std.specs.Result.{result_err};
ghost use Rattle.std.specs.List.{list_any};
ghost use Rattle.sd_sddl_fields.specs.FieldTexts.{front_reads, is_blank};
ghost use Rattle.sd_fault_places.specs.Inner.Faults.{flags_fault};
ghost use Rattle.sd_sid.specs.SidText.{sid_reads};
ghost use Rattle.sd_sddl_builder.specs.Meaning.{is_unreadable, sid_or_fault};
ghost use Rattle.sd_fault_places.specs.Fields.{ace_field_fault, field_of, name_of, place, slot_fault};

use crate::place::{ByteRange, FaultPlace, Field};
use sd_kinds::{AceKind, flags_from_text};
use sd_parts::Part;
use sd_rights::rights_from_text;
use sd_sddl_builder::{AceField, SddlFault, Slot, fault_of};
use sd_sddl_fields::{front_from_text, is_blank, object_from_text};
use sd_sid::Sid;
use sd_text::MOST_FIELD_SIZE;

/// The fault of a field of an ACE of this kind.
pub(crate) fn slot_fault(
    slot: Slot,
    kind: AceKind,
    text: &[u8],
    domain: Option<&Sid>,
) -> Option<SddlFault>
    ensures { result ≡ slot_fault (option_copied domain.entry) kind slot text.now }
{
    if is_unreadable(text) {
        return Some(fault_of(slot));
    }
    match slot {
        Slot::Sid(_) => sid_fault(text, domain),
        Slot::AclFlags(_, has_aces) => flags_fault(has_aces, text),
        Slot::Ace(field) => ace_field_fault(field, kind, text, domain),
    }
}

fn is_unreadable(text: &[u8]) -> bool
    ensures { result ≡ is_unreadable text.now }
{
    has_blank(text) || text.len() > MOST_FIELD_SIZE
}

fn has_blank(text: &[u8]) -> bool
    ensures { result ≡ list_any is_blank text.now }
{
    let mut rest = text;
    while let Some((byte, tail)) = rest.split_first() {
        if is_blank(*byte) {
            return true;
        }
        rest = tail;
    }
    false
}

fn sid_fault(text: &[u8], domain: Option<&Sid>) -> Option<SddlFault>
    ensures { result ≡ result_err (sid_or_fault (sid_reads text.now (option_copied domain.entry))) }
{
    match Sid::from_text(text, domain) {
        Ok(_) => None,
        Err(fault) => Some(SddlFault::Sid(fault)),
    }
}

fn flags_fault(has_aces: bool, text: &[u8]) -> Option<SddlFault>
    ensures { result ≡ flags_fault has_aces (front_reads text.now) }
{
    match front_from_text(text) {
        Some(front) if !(front.null && has_aces) => None,
        _ => Some(SddlFault::Flags),
    }
}

#[tactic(auto, unfolding(sd_sddl_fields::specs::FieldTexts::kind_reads))]
fn ace_field_fault(
    field: AceField,
    kind: AceKind,
    text: &[u8],
    domain: Option<&Sid>,
) -> Option<SddlFault>
    requires { is_unreadable text.now ≡ false }
    ensures { result ≡ ace_field_fault (option_copied domain.entry) kind field text.now }
{
    match field {
        AceField::Kind => unless(AceKind::from_text(text).is_some(), SddlFault::Kind),
        AceField::Flags => unless(flags_from_text(text).is_some(), SddlFault::Flags),
        AceField::Rights => unless(rights_from_text(text).is_some(), SddlFault::Rights),
        AceField::Object | AceField::Inherited => {
            unless(object_from_text(kind, text).is_some(), SddlFault::Guid)
        }
        AceField::Sid => sid_fault(text, domain),
    }
}

fn unless(reads: bool, fault: SddlFault) -> Option<SddlFault>
    ensures { result ≡ (if reads then None else Some fault) }
{
    if reads { None } else { Some(fault) }
}

/// The field that a slot has.
pub(crate) fn field_of(slot: Slot) -> Field
    ensures { result ≡ field_of slot }
{
    match slot {
        Slot::Sid(_) => Field::Sid,
        Slot::AclFlags(_, _) => Field::Flags,
        Slot::Ace(field) => name_of(field),
    }
}

pub(crate) fn name_of(field: AceField) -> Field
    ensures { result ≡ name_of field }
{
    match field {
        AceField::Kind => Field::Kind,
        AceField::Flags => Field::Flags,
        AceField::Rights => Field::Rights,
        AceField::Object => Field::ObjectType,
        AceField::Inherited => Field::InheritedObjectType,
        AceField::Sid => Field::Sid,
    }
}

pub(crate) fn place(
    part: Option<Part>,
    ace: Option<u32>,
    field: Option<Field>,
    offset: usize,
    size: usize,
) -> FaultPlace
    ensures { result ≡ place part ace field offset size }
{
    FaultPlace {
        part,
        ace,
        field,
        range: ByteRange { offset, size },
    }
}
