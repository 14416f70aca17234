//! Whether the bytes of an ACL are its written form.

ghost use Rattle.std.specs.Prelude.{◌≡◌, None, drop, true};
ghost use Rattle.sd_acl_view.specs.Acl.{acl_size, has_object};
ghost use Rattle.sd_acl_view.specs.AclLayout.{acl_bytes, revision_if};
ghost use Rattle.sd_acl_view.specs.AclReading.{aces_fault, acl_of};
ghost use Rattle.sd_acl_view.specs.AclChecks.{IsReadableAcl};
ghost use Rattle.sd_acl_view.specs.Bytes.{u16_at as u16_of};
ghost use Rattle.sd_acl_view.specs.Inner.Written.{all_named_flags};

use crate::ace::has_named_flags;
use crate::acl::Written;
use crate::bytes::u16_at;
use sd_parts::{ACL_HEADER_SIZE, ACL_REVISION, ACL_REVISION_DS};

/// Whether the extent of an ACL is its written form (MS-DTYP 2.4.5): it has no spare bytes, the revision and the zeros
/// of that form, and no object flags but those that are named. `false` means only that the ACL must be written out.
#[inline(always)]
pub fn is_written(extent: &[u8], written: Written) -> bool
    requires extent { IsReadableAcl extent.now }
    requires size { written.size ≡ acl_size (acl_of extent.now) }
    requires object { written.object ≡ has_object (acl_of extent.now) }
    ensures { result ≡ true → acl_bytes (acl_of extent.now) ≡ extent.now }
{
    // The size field is the length of the extent.
    if extent.len() != written.size {
        return false;
    }
    if u16_at(extent, 0) != revision_if(written.object) || u16_at(extent, 6) != 0 {
        return false;
    }
    are_flags_named(extent, written.object)
}

// The revision of an ACL, by whether it has an object ACE.
fn revision_if(object: bool) -> u16
    ensures { result ≡ revision_if object }
{
    u16::from(if object {
        ACL_REVISION_DS
    } else {
        ACL_REVISION
    })
}

// Whether the ACEs of an ACL have no object flags but those that are named.
fn are_flags_named(extent: &[u8], object: bool) -> bool
    requires extent { IsReadableAcl extent.now }
    requires object { object ≡ has_object (acl_of extent.now) }
    ensures { result ≡ all_named_flags (u16_of 4 extent.now) (drop 8 extent.now) }
{
    // Without an object ACE there are no object flags.
    !object || have_named_flags(u16_at(extent, 4), &extent[ACL_HEADER_SIZE..])
}

// Whether the first ACEs of the bytes, as many as the count says, have no object flags but those that are named.
fn have_named_flags(count: u16, bytes: &[u8]) -> bool
    requires { aces_fault count bytes.now ≡ None }
    ensures { result ≡ all_named_flags count bytes.now }
{
    let mut left = bytes;
    for _ in 0..count {
        let (extent, rest) = left.split_at(usize::from(u16_at(left, 2)));
        if !has_named_flags(extent) {
            return false;
        }
        left = rest;
    }
    true
}
