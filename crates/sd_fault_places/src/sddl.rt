//! The place of the first fault of a text.

ghost use Rattle.std.specs.Prelude.{◌≡◌, ◌<◌, ◌^◌, ◌==◌, ◌&&◌, length, false, true, IfSome};
ghost use Rattle.std.specs.Option.{option_copied, option_map};
ghost use Rattle.std.specs.Result.{result_err};
ghost use Rattle.std.specs.Prelude.{if◌then◌else◌, None, Some};
ghost use Rattle.sd_sddl_builder.specs.Line.{is_paired, is_shaped};
ghost use Rattle.sd_sddl_builder.specs.Meaning.{means};
ghost use Rattle.sd_fault_places.specs.Fields.{parts_in};
ghost use Rattle.sd_fault_places.specs.SddlPlaces.{character_of, character_size, place_at, place_in_parts};
ghost use Rattle.sd_fault_places.specs.Inner.Cutting.{parts_from};
ghost use Rattle.sd_fault_places.specs.Shape.{IsReach, is_ended};
ghost use Rattle.sd_fault_places.specs.SddlPlaces.{IsAtFirst, place_of_sddl_fault, place_of_shape};

use crate::cutting::{before_head, behind, until};
use crate::fields::{name_of, place};
use crate::parts::{TextParts, first_faulty, first_large, second_head};
use crate::place::{FaultPlace, Field};
use crate::shape::{Front, Stand, is_ended, walk};
use sd_parts::Part;
use sd_sddl_builder::SddlFault;
use sd_sid::Sid;

/// The first fault (20 to 30) of a text of SDDL under a domain, as `read_sddl` of `sd_sddl_reader` finds it, and where
/// it is (MS-DTYP 2.5.1): its part, its ACE from 0, its field, and a range of bytes of the text. None if the text
/// means a descriptor. The text has less than 2^32 bytes. It is read a second time, and no memory is taken.
pub fn place_of_sddl_fault(text: &[u8], domain: Option<&Sid>) -> Option<(SddlFault, FaultPlace)>
    requires small { length text.now < 2 ^ 32 }
    ensures exact { result ≡ place_of_sddl_fault text.now (option_copied domain.entry) }
    // There is a place exactly if there is a fault, and it is that fault's.
    ensures fault { option_map (λ r. r.0) result ≡ result_err (means text.now (option_copied domain.entry)) }
    // Of a text that is not shaped it begins behind the most bytes that some shaped text begins with.
    ensures shape { is_shaped text.now ≡ false → IfSome result (λ r. IsReach r.1.range.offset text.now) }
    // A fault of a field is at the first field that has one.
    ensures first { IfSome result (IsAtFirst text.now (option_copied domain.entry)) }
{
    match shape_fault(text) {
        Some(place) => Some((SddlFault::Shape, place)),
        None => place_in_parts(text, domain),
    }
}

// Where the shape of a text that has none ends.
fn shape_fault(text: &[u8]) -> Option<FaultPlace>
    requires small { length text.now < 2 ^ 32 }
    ensures { result ≡ (if is_shaped text.now then None else Some (place_of_shape text.now)) }
{
    let (reach, front) = walk(text);
    if is_whole(reach, front, text) {
        return None;
    }
    Some(place_at(front.stand, reach, character_size(behind(text, reach))))
}

fn is_whole(reach: usize, front: Front, text: &[u8]) -> bool
    ensures { result ≡ ((reach == length text.now) && is_ended front) }
{
    if reach != text.len() {
        return false;
    }
    is_ended(front)
}

// The parts of a text, from its first head on.
fn parts_of(text: &[u8]) -> TextParts<'_>
    requires small { length text.now < 2 ^ 32 }
    requires paired { is_paired false text.now ≡ true }
    ensures { parts_from result.at result.text.now ≡ parts_in text.now }
{
    let at = before_head(text);
    TextParts {
        at,
        text: behind(text, at),
    }
}

fn place_in_parts(text: &[u8], domain: Option<&Sid>) -> Option<(SddlFault, FaultPlace)>
    requires small { length text.now < 2 ^ 32 }
    requires paired { is_paired false text.now ≡ true }
    ensures { result ≡ place_in_parts (option_copied domain.entry) (parts_in text.now) }
{
    let parts = parts_of(text);
    if let Some(place) = second_head(parts) {
        return Some((SddlFault::PartTwice, place));
    }
    if let Some(found) = first_faulty(parts, domain) {
        return Some(found);
    }
    first_large(parts, domain)
}

fn place_at(stand: Stand, offset: usize, size: usize) -> FaultPlace
    ensures { result ≡ place_at stand offset size }
{
    match stand {
        Stand::Before => place(None, None, None, offset, size),
        Stand::Sid(part) => place(Some(Part::from(part)), None, Some(Field::Sid), offset, size),
        Stand::Flags(which) => place(
            Some(Part::from(which)),
            None,
            Some(Field::Flags),
            offset,
            size,
        ),
        Stand::Behind(which, _) => place(Some(Part::from(which)), None, None, offset, size),
        Stand::Ace(which, number, field) => place(
            Some(Part::from(which)),
            Some(number),
            Some(name_of(field)),
            offset,
            size,
        ),
    }
}

// The bytes of the character at the front of a text, and one where they are not UTF-8.
fn character_size(text: &[u8]) -> usize
    ensures { result ≡ character_size text.now }
{
    if text.is_empty() {
        return 0;
    }
    if is_character(1, text) {
        return 1;
    }
    if is_character(2, text) {
        return 2;
    }
    if is_character(3, text) {
        return 3;
    }
    if is_character(4, text) {
        return 4;
    }
    1
}

fn is_character(size: usize, text: &[u8]) -> bool
    ensures { result ≡ character_of size text.now }
{
    if size > text.len() {
        return false;
    }
    match str::from_utf8(until(text, size)) {
        Ok(_) => true,
        Err(fault) => fault.valid_up_to() == size,
    }
}
