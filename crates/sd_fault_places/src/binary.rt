//! The place of the first fault of some bytes.

ghost use Rattle.std.specs.Prelude.{◌≡◌, ◌≤◌, ◌<◌, ◌+◌, ◌^◌, None, Some, IfSome, MatchOption, length};
ghost use Rattle.sd_parts.specs.Parts.{get_part};
ghost use Rattle.sd_view.specs.Descriptor.{acl_extent, extents_of, sid_extent};
ghost use Rattle.sd_view.specs.Reading.{acl_shown, fault, shown, sid_shown};
ghost use Rattle.sd_fault_places.specs.Places.{at_ace_header, at_ace_sid, at_extent, at_part_sid, at_sid, counted_sid};
ghost use Rattle.sd_fault_places.specs.Places.{faulty_ace, faulty_ace_at, from_part, in_header, in_part, left_at_fault};
ghost use Rattle.sd_fault_places.specs.Places.{IsInFirst, IsWithin, offset_at, part_at, place_of, place_of_fault};

use crate::binary_aces::{extent_at_front, first_faulty, sid_offset};
use crate::numbers::{behind, byte_at, u16_at, u32_at};
use crate::place::{ByteRange, FaultPlace, Field};
use sd_parts::{
    ACL_HEADER_SIZE, DACL_OFFSET, DACL_PRESENT, GROUP_OFFSET, OWNER_OFFSET, Part, SACL_OFFSET,
    SACL_PRESENT, SID_HEADER_SIZE, has_bit,
};
use sd_sid::Sid;
use sd_view::{Extent, SdFault, read};

/// The bytes of an ACE's type, flags and size.
const ACE_HEADER_SIZE: usize = 4;

/// The first fault of the bytes, as `read` of `sd_view` finds it, and where it is. None if they show a descriptor.
/// Of a header of 20 bytes whose control word has no SELF_RELATIVE, the place is the two bytes from 2 on.
#[tactic(auto, using(crate::proofs::FirstFaults::in_first, crate::proofs::Ranges::within))]
pub fn place_of_fault(bytes: &[u8]) -> Option<(SdFault, FaultPlace)>
    ensures exact { result ≡ place_of_fault bytes.now }
    // There is a place exactly if there is a fault, and it is that fault's.
    ensures fault { MatchOption result (fault bytes.now ≡ None) (λ r. fault bytes.now ≡ Some r.0) }
    // It is in the bytes,
    ensures within { IfSome result (λ r. IsWithin bytes.now r.1) }
    // and in an ACL in the first ACE that has a fault.
    ensures first { IfSome result (λ r. IsInFirst bytes.now r.0 r.1) }
{
    match read(bytes) {
        Ok(_) => None,
        Err(fault) => Some((fault, place_of(bytes, fault))),
    }
}

fn place_of(bytes: &[u8], fault: SdFault) -> FaultPlace
    ensures { result ≡ place_of bytes.now fault }
{
    match fault {
        SdFault::Short => in_header(bytes.len(), 0),
        SdFault::Revision => in_header(0, 1),
        SdFault::NotSelfRelative => in_header(2, 2),
        SdFault::Offset(part) => in_part(part, None, offset_at(part), 4),
        SdFault::Sid(part) => at_sid(part, bytes),
        SdFault::Acl(part) => in_part(part, None, part_at(part, bytes), ACL_HEADER_SIZE),
        SdFault::AceSize(part) => at_ace_header(part, Field::Size, bytes),
        SdFault::AceType(part) => at_ace_header(part, Field::Kind, bytes),
        SdFault::AceFlags(part) => at_ace_header(part, Field::Flags, bytes),
        SdFault::Overlap(_, part) => at_extent(part, extent_of(part, bytes)),
    }
}

fn in_header(offset: usize, size: usize) -> FaultPlace
    ensures { result ≡ in_header offset size }
{
    FaultPlace {
        part: None,
        ace: None,
        field: None,
        range: ByteRange { offset, size },
    }
}

fn in_part(part: Part, field: Option<Field>, offset: usize, size: usize) -> FaultPlace
    ensures { result ≡ in_part part field offset size }
{
    FaultPlace {
        part: Some(part),
        ace: None,
        field,
        range: ByteRange { offset, size },
    }
}

// Where the header has the offset of a part.
fn offset_at(part: Part) -> usize
    ensures value { result ≡ offset_at part }
    ensures small { result ≤ 16 }
{
    match part {
        Part::Owner => OWNER_OFFSET,
        Part::Group => GROUP_OFFSET,
        Part::Sacl => SACL_OFFSET,
        Part::Dacl => DACL_OFFSET,
    }
}

fn part_at(part: Part, bytes: &[u8]) -> usize
    ensures value { result ≡ part_at part bytes.now }
    ensures small { result < 2 ^ 32 }
{
    u32_at(bytes, offset_at(part)) as usize
}

fn from_part(part: Part, bytes: &[u8]) -> &[u8]
    ensures { result.now ≡ from_part part bytes.now }
{
    behind(bytes, part_at(part, bytes))
}

// As many bytes as a SID with this count has, as far as they are there.
fn counted_sid(bytes: &[u8]) -> usize
    ensures value { result ≡ length (counted_sid bytes.now) }
{
    let size = SID_HEADER_SIZE + 4 * usize::from(byte_at(bytes, 1));
    size.min(bytes.len())
}

fn at_sid(part: Part, bytes: &[u8]) -> FaultPlace
    ensures { result ≡ at_sid part bytes.now }
{
    match part {
        Part::Owner | Part::Group => at_part_sid(part, bytes),
        Part::Sacl | Part::Dacl => at_ace_sid(part, bytes),
    }
}

fn at_part_sid(part: Part, bytes: &[u8]) -> FaultPlace
    ensures { result ≡ at_part_sid part bytes.now }
{
    let size = counted_sid(from_part(part, bytes));
    in_part(part, Some(Field::Sid), part_at(part, bytes), size)
}

// The first ACE with a fault: its number, where it begins, and what is left of the ACL from there on.
fn faulty_ace(part: Part, bytes: &[u8]) -> (u32, usize, &[u8])
    ensures number { result.0 ≡ faulty_ace part bytes.now }
    ensures at { result.1 ≡ faulty_ace_at part bytes.now }
    ensures small { result.1 < 2 ^ 33 }
    ensures left { result.2.now ≡ left_at_fault part bytes.now }
{
    let front = from_part(part, bytes);
    let acl = extent_at_front(front);
    let (number, left) = first_faulty(u16_at(front, 4), behind(acl, ACL_HEADER_SIZE));
    (
        number,
        part_at(part, bytes) + acl.len().saturating_sub(left.len()),
        left,
    )
}

fn at_ace_header(part: Part, field: Field, bytes: &[u8]) -> FaultPlace
    ensures { result ≡ at_ace_header part field bytes.now }
{
    let (number, start, left) = faulty_ace(part, bytes);
    FaultPlace {
        part: Some(part),
        ace: Some(number),
        field: Some(field),
        range: ByteRange {
            offset: start,
            size: left.len().min(ACE_HEADER_SIZE),
        },
    }
}

fn at_ace_sid(part: Part, bytes: &[u8]) -> FaultPlace
    ensures { result ≡ at_ace_sid part bytes.now }
{
    let (number, start, left) = faulty_ace(part, bytes);
    let extent = extent_at_front(left);
    let front = sid_offset(extent);
    FaultPlace {
        part: Some(part),
        ace: Some(number),
        field: Some(Field::Sid),
        range: ByteRange {
            offset: start + front,
            size: counted_sid(behind(extent, front)),
        },
    }
}

fn at_extent(part: Part, extent: Extent) -> FaultPlace
    ensures { result ≡ at_extent part extent }
{
    match extent {
        None => in_part(part, None, 0, 0),
        Some((start, end)) => in_part(
            part,
            None,
            start as usize,
            end.saturating_sub(start) as usize,
        ),
    }
}

// Where a part of bytes whose parts have no fault by themselves is.
fn extent_of(part: Part, bytes: &[u8]) -> Extent
    ensures { result ≡ get_part part (extents_of bytes.now (shown bytes.now)) }
{
    let control = u16_at(bytes, 2);
    let offset = u32_at(bytes, offset_at(part));
    match part {
        Part::Owner | Part::Group => sid_extent(bytes, offset),
        Part::Sacl => acl_extent(bytes, has_bit(control, SACL_PRESENT), offset),
        Part::Dacl => acl_extent(bytes, has_bit(control, DACL_PRESENT), offset),
    }
}

#[tactic(auto, unfolding(sd_view::specs::Reading::sid_shown))]
fn sid_extent(bytes: &[u8], offset: u32) -> Extent
    ensures { result ≡ sid_extent offset (sid_shown bytes.now offset) }
{
    if offset == 0 {
        return None;
    }
    let size = Sid::size_at_front(behind(bytes, offset as usize))?;
    Some((u64::from(offset), u64::from(offset) + size as u64))
}

#[tactic(auto, unfolding(sd_view::specs::Reading::acl_shown))]
fn acl_extent(bytes: &[u8], present: bool, offset: u32) -> Extent
    ensures { result ≡ acl_extent bytes.now offset (acl_shown bytes.now present offset) }
{
    if !present || offset == 0 {
        return None;
    }
    let size = u16_at(behind(bytes, offset as usize), 2);
    Some((u64::from(offset), u64::from(offset) + u64::from(size)))
}
