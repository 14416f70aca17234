//! The parts of a new descriptor as the values that they spell.

ghost use Rattle.std.specs.Prelude.{◌≡◌, true, not};
ghost use Rattle.std.specs.List.{position};
ghost use Rattle.sd_call_build.specs.New.{ace_in, guid_in, is_ace, is_wrong_sid, shown_ace, whole_sid};

use crate::new::NewAce;
use sd_ace::{Ace, guid_read};
use sd_kinds::AceKind;
use sd_sid::Sid;
use uuid::Uuid;

/// The first ACE that can't be.
pub fn first_wrong(aces: &[NewAce<'_>]) -> Option<usize>
    ensures { result ≡ position (λ a. not (is_ace a)) aces.now }
{
    aces.iter().position(|ace| !is_ace(ace))
}

fn is_ace(new: &NewAce<'_>) -> bool
    ensures { result ≡ is_ace new.now }
{
    ace_in(new).is_some()
}

/// An ACE that can be.
pub fn shown_ace(new: &NewAce<'_>) -> Ace
    requires { is_ace new.now ≡ true }
    ensures { result ≡ shown_ace new.now }
{
    ace_in(new).unwrap()
}

/// The ACE that is meant. None where its kind is unknown, its flags have 0x20, its SID or a GUID is none, or a kind
/// that is no object kind comes with a GUID.
#[tactic(auto, unfolding(crate::specs::New::ace_in))]
pub fn ace_in(new: &NewAce<'_>) -> Option<Ace>
    ensures { result ≡ ace_in new.now }
{
    let kind = AceKind::from_code(new.kind)?;
    let object = guid_in(new.object_type)?;
    let inherited = guid_in(new.inherited_object_type)?;
    let sid = whole_sid(new.sid)?;
    Ace::new(kind, new.flags, new.mask, object, inherited, sid)
}

// The GUID of an object type, whose bytes are as in an ACE, and none where there are no bytes.
fn guid_in(bytes: &[u8]) -> Option<Option<Uuid>>
    ensures { result ≡ guid_in bytes.now }
{
    if bytes.is_empty() {
        return Some(None);
    }
    match <&[u8; 16]>::try_from(bytes) {
        Ok(bytes) => Some(Some(guid_read(bytes))),
        Err(_) => None,
    }
}

/// Whether there are bytes, and they are no SID.
pub fn is_wrong_sid(bytes: &[u8]) -> bool
    ensures { result ≡ is_wrong_sid bytes.now }
{
    !bytes.is_empty() && whole_sid(bytes).is_none()
}

/// The SID that takes all of the bytes.
pub fn whole_sid(bytes: &[u8]) -> Option<Sid>
    ensures { result ≡ whole_sid bytes.now }
{
    match Sid::read(bytes) {
        Some((sid, size)) if size == bytes.len() => Some(sid),
        _ => None,
    }
}
