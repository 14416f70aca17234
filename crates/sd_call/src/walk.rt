//! The steps of a walk through an ACL (MS-DTYP 2.4.5), one ACE after the other.

ghost use Rattle.std.specs.Prelude.{◌≡◌, ◌≤◌, ◌<◌, ◌+◌, ◌-◌, ◌^◌, length, drop, true, false, MatchOption};
ghost use Rattle.sd_acl_view.specs.AclReading.{acl_at_front};
ghost use Rattle.sd_acl_view.specs.Bytes.{u16_at as u16_of};
ghost use Rattle.sd_call.specs.Walk.{behind, begins_with_header, front_found, next};

use crate::ace::{AceFound, found};
use crate::place::Place;
use byteorder::{ByteOrder, LittleEndian};
use sd_acl_view::front_ace;
use sd_parts::{ACL_HEADER_SIZE, ACL_REVISION, ACL_REVISION_DS};
use sd_view::{Part, SdFault, fault_in};

/// What comes next in an ACL. A fault is told as one of a DACL, since an ACL by itself is in no part.
#[tactic(auto, unfolding(crate::specs::Walk::next))]
pub fn find_next(acl: &[u8], at: &AceFound) -> Result<Option<AceFound>, SdFault>
    ensures { result ≡ next acl.now at.now }
{
    let Some(extent) = extent_of(acl) else {
        return Err(SdFault::Acl(Part::Dacl));
    };
    if u32::from(u16_at(acl, 4)) <= at.number {
        return Ok(None);
    }
    match found_behind(extent, at) {
        Ok(ace) => Ok(Some(ace)),
        Err(fault) => Err(fault),
    }
}

// The ACE behind the one that the walk is at.
#[tactic(auto, using(crate::proofs::WalkLemmas::same_place))]
fn found_behind(extent: &[u8], at: &AceFound) -> Result<AceFound, SdFault>
    requires few { at.now.number < 2 ^ 16 }
    requires small { length extent.now < 2 ^ 16 }
    ensures { result ≡ front_found (at.now.number + 1) (behind at.now) (drop (behind at.now) extent.now) }
{
    let left = left_behind(extent, at);
    front_found(at.number + 1, extent.len() - left.len(), left)
}

/// The ACE at the front of some bytes that lie at an offset.
#[tactic(auto, unfolding(crate::specs::Walk::front_found))]
pub fn front_found(number: u32, offset: usize, bytes: &[u8]) -> Result<AceFound, SdFault>
    requires { offset < 2 ^ 32 }
    ensures { result ≡ front_found number offset bytes.now }
{
    match front_ace(bytes) {
        Ok((ace, rest)) => Ok(found(
            &ace,
            number,
            Place {
                offset,
                size: bytes.len() - rest.len(),
            },
        )),
        Err(fault) => Err(fault_in(Part::Dacl, fault)),
    }
}

// The bytes of the ACL at the front. None where its header is not there.
#[tactic(auto, unfolding(crate::specs::Walk::begins_with_header))]
fn extent_of(acl: &[u8]) -> Option<&[u8]>
    ensures extent { MatchOption result (begins_with_header acl.now ≡ false)
        (λ extent. (begins_with_header acl.now ≡ true) × (extent.now ≡ acl_at_front acl.now)) }
    ensures room { MatchOption result (0 ≤ 0) (λ extent. (8 ≤ length acl.now) × (length extent.now < 2 ^ 16)) }
{
    if acl.len() < ACL_HEADER_SIZE {
        return None;
    }
    if acl[0] != ACL_REVISION && acl[0] != ACL_REVISION_DS {
        return None;
    }
    let size = usize::from(u16_at(acl, 2));
    if size < ACL_HEADER_SIZE || acl.len() < size {
        return None;
    }
    Some(&acl[..size])
}

// What is left behind the ACE that the walk is at, and nothing where that ends past the ACL.
fn left_behind<'a>(extent: &'a [u8], at: &AceFound) -> &'a [u8]
    ensures { result.now ≡ drop (behind at.now) extent.now }
{
    if at.number == 0 {
        return behind(extent, ACL_HEADER_SIZE);
    }
    behind(behind(extent, at.place.offset), at.place.size)
}

fn behind(bytes: &[u8], offset: usize) -> &[u8]
    ensures { result.now ≡ drop offset bytes.now }
{
    &bytes[offset.min(bytes.len())..]
}

#[tactic(auto, unfolding(sd_acl_view::specs::Bytes::u16_at))]
fn u16_at(bytes: &[u8], offset: usize) -> u16
    requires { offset + 2 ≤ length bytes.now }
    ensures { result ≡ u16_of offset bytes.now }
{
    LittleEndian::read_u16(&bytes[offset..])
}
