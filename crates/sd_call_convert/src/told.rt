//! What is told of the place of a fault.

ghost use Rattle.std.specs.Prelude.{◌≡◌, ◌<◌, ◌^◌, length};
ghost use Rattle.std.specs.Option.{option_copied};
ghost use Rattle.sd_faults.specs.declared.line_fault.LineFault.TheVariants as line;
ghost use Rattle.sd_call_convert.specs.PlaceTold.{field_number, no_place, place_told, sddl_place_told, told, told_at};
ghost use Rattle.sd_fault_places.specs.SddlPlaces.{place_of_sddl_fault};

use sd_call::{Place, domain_in};
use sd_fault_places::{FaultPlace, Field, place_of_fault, place_of_sddl_fault};
use sd_faults::{LineFault, part_number};
use sd_parts::CAPACITY;
use sd_sid::Sid;
use sd_text::MOST_SDDL_TEXT;

/// What an ACE's number is where there is none.
pub(crate) const NO_ACE: u32 = 0xffff_ffff;

/// Where the fault of a descriptor or of a text is: `struct sdtool_fault_place` of the header.
#[repr(C)]
#[derive(Clone, Copy)]
pub struct PlaceTold {
    /// The number of the fault, or 0 if there is none that has a place.
    pub fault: u32,
    /// The part that it is in, or 0.
    pub part: u32,
    /// The number of the ACE that it is in, from 0, or 0xffffffff.
    pub ace: u32,
    /// The field that it is in, or 0.
    pub field: u32,
    /// The bytes that it is in.
    pub place: Place,
}

/// Where the fault of a descriptor is.
pub fn place_told(bytes: &[u8]) -> PlaceTold
    ensures { result ≡ place_told bytes.now }
{
    if bytes.len() > CAPACITY {
        return no_place();
    }
    match place_of_fault(bytes) {
        None => no_place(),
        Some((fault, place)) => told_at(LineFault::Sd(fault), &place),
    }
}

/// Where the fault of a text of SDDL is.
pub fn sddl_place_told(text: &[u8], domain: &[u8]) -> PlaceTold
    ensures { result ≡ sddl_place_told text.now domain.now }
{
    if text.len() > MOST_SDDL_TEXT {
        return no_place();
    }
    match domain_in(domain) {
        Ok(domain) => told_under(text, domain.as_ref()),
        Err(_) => no_place(),
    }
}

fn told_under(text: &[u8], domain: Option<&Sid>) -> PlaceTold
    requires small { length text.now < 2 ^ 32 }
    ensures { result ≡ told line.Sddl (place_of_sddl_fault text.now (option_copied domain.entry)) }
{
    match place_of_sddl_fault(text, domain) {
        None => no_place(),
        Some((fault, place)) => told_at(LineFault::Sddl(fault), &place),
    }
}

fn no_place() -> PlaceTold
    ensures { result ≡ no_place }
{
    PlaceTold {
        fault: 0,
        part: 0,
        ace: NO_ACE,
        field: 0,
        place: Place { offset: 0, size: 0 },
    }
}

fn told_at(fault: LineFault, place: &FaultPlace) -> PlaceTold
    ensures { result ≡ told_at fault place.now }
{
    PlaceTold {
        fault: fault.number(),
        part: part_number(place.part),
        ace: place.ace.unwrap_or(NO_ACE),
        field: field_number(place.field),
        place: Place {
            offset: place.range.offset,
            size: place.range.size,
        },
    }
}

fn field_number(field: Option<Field>) -> u32
    ensures { result ≡ field_number field }
{
    match field {
        None => 0,
        Some(Field::Kind) => 1,
        Some(Field::Flags) => 2,
        Some(Field::Rights) => 3,
        Some(Field::ObjectType) => 4,
        Some(Field::InheritedObjectType) => 5,
        Some(Field::Sid) => 6,
        Some(Field::Size) => 7,
    }
}
