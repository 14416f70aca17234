//! The sizes of new ACLs.

ghost use Rattle.std.specs.Prelude.{◌≡◌, ◌≤◌, ◌<◌, ◌^◌, map, None, Some, IfOk, MatchOption, MatchResult};
ghost use Rattle.std.specs.List.{AllPass, list_any};
ghost use Rattle.sd_acl_view.specs.Acl.{acl_size, has_object};
ghost use Rattle.sd_view.specs.Layout.{acl_part_size, sid_part_size};
ghost use Rattle.sd_call_build.specs.New.{AreSmall, acl_shown, is_ace, is_object_ace, large_part, new_descriptor};
ghost use Rattle.sd_call_build.specs.New.{part_sizes, shown_ace};

use crate::new::{LIST, NewAce, NewAcl, NewDescriptor};
use crate::reading::{ace_in, shown_ace, whole_sid};
use sd_parts::{ACL_HEADER_SIZE, MOST_ACL_SIZE, Parts, Which};
use sd_sid::Sid;

/// The size of an ACL of these ACEs. None where it would pass 65,535 bytes.
pub fn acl_size(aces: &[NewAce<'_>]) -> Option<usize>
    requires { AllPass is_ace aces.now }
    ensures { MatchOption result (2 ^ 16 ≤ acl_size (map shown_ace aces.now))
        (λ size. (size ≡ acl_size (map shown_ace aces.now)) × (size < 2 ^ 16)) }
{
    let mut size = ACL_HEADER_SIZE;
    for new in aces {
        let ace = shown_ace(new);
        size += usize::from(ace.size());
        if size > MOST_ACL_SIZE {
            return None;
        }
    }
    Some(size)
}

/// Whether an object ACE is among them.
#[tactic(auto, using(crate::proofs::SizeLemmas::object_among))]
pub fn has_object(aces: &[NewAce<'_>]) -> bool
    ensures { result ≡ has_object (map shown_ace aces.now) }
{
    some_object(aces)
}

fn some_object(aces: &[NewAce<'_>]) -> bool
    ensures { result ≡ list_any is_object_ace aces.now }
{
    aces.iter().any(|new| is_object_ace(new))
}

fn is_object_ace(new: &NewAce<'_>) -> bool
    ensures { result ≡ is_object_ace new.now }
{
    match ace_in(new) {
        Some(ace) => ace.kind().is_object(),
        None => false,
    }
}

/// The sizes of the parts of a new descriptor, or the first ACL that would pass 65,535 bytes.
pub fn part_sizes(new: &NewDescriptor<'_>) -> Result<Parts<u32>, Which>
    requires sacl { AllPass is_ace new.now.sacl.aces.now }
    requires dacl { AllPass is_ace new.now.dacl.aces.now }
    ensures fault { MatchResult result (λ _. large_part (new_descriptor new.now) ≡ None)
        (λ which. large_part (new_descriptor new.now) ≡ Some which) }
    ensures sizes { IfOk result (λ sizes. sizes ≡ part_sizes (new_descriptor new.now)) }
    ensures small { IfOk result (λ sizes. AreSmall sizes) }
{
    let Some(sacl) = acl_part_size(&new.sacl) else {
        return Err(Which::Sacl);
    };
    let Some(dacl) = acl_part_size(&new.dacl) else {
        return Err(Which::Dacl);
    };
    Ok(Parts {
        owner: sid_part_size(&whole_sid(new.owner)),
        group: sid_part_size(&whole_sid(new.group)),
        sacl,
        dacl,
    })
}

// The size of an ACL as it stands in a descriptor. None where it would pass 65,535 bytes.
fn acl_part_size(acl: &NewAcl<'_>) -> Option<u32>
    requires { AllPass is_ace acl.now.aces.now }
    ensures { MatchOption result (2 ^ 16 ≤ acl_part_size (acl_shown acl.now))
        (λ size. (size ≡ acl_part_size (acl_shown acl.now)) × (size < 2 ^ 16)) }
{
    if acl.state < LIST {
        return Some(0);
    }
    match acl_size(acl.aces) {
        Some(size) => Some(size as u32),
        None => None,
    }
}

/// The size of an owner or a group as it stands in a descriptor.
pub fn sid_part_size(sid: &Option<Sid>) -> u32
    ensures size { result ≡ sid_part_size sid.now }
    ensures small { result ≤ 68 }
{
    match sid {
        Some(sid) => sid.size() as u32,
        None => 0,
    }
}
