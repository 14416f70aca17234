//! The first ACE of an ACL that has a fault (MS-DTYP 2.4.5).

ghost use Rattle.std.specs.Prelude.{◌≡◌, ◌≤◌, ◌<◌, ◌^◌, drop, length};
ghost use Rattle.sd_acl_view.specs.AclReading.{acl_at_front, sid_offset_in};
ghost use Rattle.sd_fault_places.specs.Places.{behind_aces, sound_aces};

use crate::numbers::u16_at;
use sd_acl_view::front_ace;

/// As many bytes as tell where the SID is in an ACE, and a few more.
const FRONT: usize = 16;

/// The bytes that the ACL or the ACE at the front says it has, as far as they are there.
pub(crate) fn extent_at_front(bytes: &[u8]) -> &[u8]
    ensures value { result.now ≡ acl_at_front bytes.now }
    ensures short { length result.now < 2 ^ 16 }
{
    let size = usize::from(u16_at(bytes, 2));
    &bytes[..size.min(bytes.len())]
}

/// How many ACEs, of as many as are counted, are before the first one with a fault, and what is left from there on.
pub(crate) fn first_faulty(count: u16, aces: &[u8]) -> (u32, &[u8])
    ensures number { result.0 ≡ sound_aces count aces.now }
    ensures left { result.1.now ≡ behind_aces (sound_aces count aces.now) aces.now }
{
    let mut left = aces;
    for number in 0..count {
        match front_ace(left) {
            Ok((_, rest)) => left = rest,
            Err(_) => return (u32::from(number), left),
        }
    }
    (u32::from(count), left)
}

/// Where the SID is in an ACE, of whose front bytes may be missing.
#[tactic(auto, using(crate::proofs::SidOffsets::padded_offset))]
pub(crate) fn sid_offset(extent: &[u8]) -> usize
    ensures value { result ≡ sid_offset_in extent.now }
    ensures bound { result ≤ 44 }
{
    let mut front = [0; FRONT];
    let held = extent.len().min(FRONT);
    front[..held].copy_from_slice(&extent[..held]);
    sd_acl_view::sid_offset(&front)
}
