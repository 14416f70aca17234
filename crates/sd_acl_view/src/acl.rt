//! Access control lists read in place.

ghost use Rattle.std.specs.Prelude.{◌≡◌, ◌≤◌, ◌<◌, ◌+◌, ◌^◌, length, take, drop, None, IfOk, IfSome};
ghost use Rattle.std.specs.Iterator.{YieldsFirst, item_count};
ghost use Rattle.sd_acl_view.specs.Acl.{IsAcl, acl_size, has_object};
ghost use Rattle.sd_acl_view.specs.AclLayout.{acl_bytes};
ghost use Rattle.sd_acl_view.specs.AclReading.{ace_fault, ace_of, acl_fault, acl_of, acl_at_front, aces_fault, aces_of};
ghost use Rattle.sd_acl_view.specs.AclChecks.{FailsBy, IsReadableAcl};
ghost use Rattle.sd_acl_view.specs.Bytes.{u16_at as u16_of};

use crate::ace::{AceView, ace_view, check_ace};
use crate::bytes::u16_at;
use crate::fault::AclFault;
use crate::written_acl::is_written;
use sd_parts::{ACL_HEADER_SIZE, ACL_REVISION, ACL_REVISION_DS};
use std::marker::Model;

/// What the header of a written ACL needs besides the count: its size, and whether it has an object ACE.
#[derive(Clone, Copy)]
pub struct Written {
    pub size: usize,
    pub object: bool,
}

// The written form of as many ACEs as are counted.
fn check_aces(count: u16, bytes: &[u8]) -> Result<Written, AclFault>
    ensures fault { FailsBy (aces_fault count bytes.now) result }
    ensures size { IfOk result (λ w. (w.size ≡ acl_size (aces_of count bytes.now)) × (w.size ≤ 8 + length bytes.now)) }
    ensures object { IfOk result (λ w. w.object ≡ has_object (aces_of count bytes.now)) }
{
    let mut left = bytes;
    let mut size = ACL_HEADER_SIZE;
    let mut object = false;
    for _ in 0..count {
        let ace = check_ace(left)?;
        left = &left[ace.taken..];
        size += ace.size;
        object = object || ace.object;
    }
    Ok(Written { size, object })
}

/// The bytes that the ACL at the front takes, and its written form.
#[tactic(auto, unfolding(crate::specs::AclReading::acl_fault))]
pub fn check_acl(bytes: &[u8]) -> Result<(usize, Written), AclFault>
    requires { 8 ≤ length bytes.now }
    ensures fault { FailsBy (acl_fault bytes.now) result }
    ensures taken { IfOk result (λ r. (r.0 ≡ u16_of 2 bytes.now) × (r.0 ≤ length bytes.now) × (8 ≤ r.0)) }
    ensures size { IfOk result (λ r. (r.1.size ≡ acl_size (acl_of (acl_at_front bytes.now))) × (r.1.size ≤ r.0)) }
    ensures object { IfOk result (λ r. r.1.object ≡ has_object (acl_of (acl_at_front bytes.now))) }
{
    if bytes[0] != ACL_REVISION && bytes[0] != ACL_REVISION_DS {
        return Err(AclFault::Acl);
    }
    let n = usize::from(u16_at(bytes, 2));
    if n < ACL_HEADER_SIZE || bytes.len() < n {
        return Err(AclFault::Acl);
    }
    let written = check_aces(u16_at(bytes, 4), &bytes[..n][ACL_HEADER_SIZE..])?;
    Ok((n, written))
}

/// An ACL in the bytes that show it (MS-DTYP 2.4.5).
#[derive(Drop)]
pub struct AclView<'a> {
    extent: &'a [u8],
    written: Written,
}

impl<'a> Model for AclView<'a> {
    ghost use Rattle.std.specs.Prelude.{◌≡◌, List};
    ghost use Rattle.sd_ace.specs.Ace.{AccessControlEntry};
    ghost use Rattle.sd_acl_view.specs.Acl.{acl_size, has_object};
    ghost use Rattle.sd_acl_view.specs.AclReading.{acl_of};
    ghost use Rattle.sd_acl_view.specs.AclChecks.{IsReadableAcl};

    ghost Value = { List AccessControlEntry };

    ghost view = { λ v. acl_of v.extent.now };

    ghost invariant = { λ v. IsReadableAcl v.extent.now × (v.written.size ≡ acl_size (acl_of v.extent.now))
        × (v.written.object ≡ has_object (acl_of v.extent.now)) };
}

/// The view of an extent that was checked.
pub fn acl_view(extent: &[u8], written: Written) -> AclView<'_>
    requires extent { IsReadableAcl extent.now }
    requires size { written.size ≡ acl_size (acl_of extent.now) }
    requires object { written.object ≡ has_object (acl_of extent.now) }
    ensures { result ≡ acl_of extent.now }
{
    AclView { extent, written }
}

impl<'a> AclView<'a> {
    /// The number of its ACEs.
    pub fn count(&self) -> u16
        ensures { result ≡ length self.now }
    {
        u16_at(self.extent, 4)
    }

    /// Its ACEs, in order.
    ///
    /// ```
    /// let mut buf = SdBuf::new(rt.alloc()).expect(&rt, "memory");
    /// assert!(rt; read_sddl(b"D:(A;;FA;;;WD)(A;;FR;;;BU)", None, &mut buf) == Ok(()));
    /// let view = read(buf.bytes()).expect(&rt, "a descriptor");
    /// let count = if let AclPart::List(acl) = view.dacl() { acl.aces().count() } else { 0 };
    /// assert!(rt; count == 2);
    /// ```
    pub fn aces(&self) -> Aces<'a>
        ensures value { result ≡ self.now }
        ensures limits { IsAcl self.now }
        ensures count { length self.now < 2 ^ 16 }
    {
        Aces {
            left: &self.extent[ACL_HEADER_SIZE..],
            count: self.count(),
        }
    }

    /// Its bytes, if they are its written form (MS-DTYP 2.4.5). `None` means only that the ACL must be written out.
    #[inline(always)]
    pub fn written_bytes(&self) -> Option<&'a [u8]>
        ensures { IfSome result (λ bytes. bytes.now ≡ acl_bytes self.now) }
    {
        if is_written(self.extent, self.written) {
            Some(self.extent)
        } else {
            None
        }
    }

    /// What the header of its written form needs besides the count, as the check found it.
    pub fn written(&self) -> Written
        ensures size { (result.size ≡ acl_size self.now) × (acl_size self.now < 2 ^ 16) }
        ensures object { result.object ≡ has_object self.now }
    {
        self.written
    }
}

/// The ACEs of an ACL, in order.
#[derive(Drop)]
pub struct Aces<'a> {
    left: &'a [u8],
    count: u16,
}

impl<'a> Model for Aces<'a> {
    ghost use Rattle.std.specs.Prelude.{◌≡◌, List, None};
    ghost use Rattle.sd_ace.specs.Ace.{AccessControlEntry};
    ghost use Rattle.sd_acl_view.specs.AclReading.{aces_fault, aces_of};

    ghost Value = { List AccessControlEntry };

    ghost view = { λ v. aces_of v.count v.left.now };

    ghost invariant = { λ v. aces_fault v.count v.left.now ≡ None };
}

// The ACE at the front of what is left of an ACL, and what is left after it.
fn split_ace(left: &[u8]) -> (AceView<'_>, &[u8])
    requires { ace_fault left.now ≡ None }
    ensures ace { result.0 ≡ ace_of (take (u16_of 2 left.now) left.now) }
    ensures rest { result.1.now ≡ drop (u16_of 2 left.now) left.now }
{
    let (extent, rest) = left.split_at(usize::from(u16_at(left, 2)));
    (ace_view(extent), rest)
}

/// The ACE at the front of what is left of an ACL (MS-DTYP 2.4.4), and what is left after it; or its first fault.
pub fn front_ace(left: &[u8]) -> Result<(AceView<'_>, &[u8]), AclFault>
    ensures fault { FailsBy (ace_fault left.now) result }
    ensures ace { IfOk result (λ r. r.0 ≡ ace_of (take (u16_of 2 left.now) left.now)) }
    ensures rest { IfOk result (λ r. r.1.now ≡ drop (u16_of 2 left.now) left.now) }
    ensures size { IfOk result (λ r. length r.1.now + u16_of 2 left.now ≡ length left.now) }
{
    match check_ace(left) {
        Ok(_) => Ok(split_ace(left)),
        Err(fault) => Err(fault),
    }
}

impl<'a> Iterator for Aces<'a> {
    type Item = AceView<'a>;

    ghost next_gives = { YieldsFirst (λ aces. aces) };

    ghost remaining = { item_count (λ aces. aces) };

    fn next(&mut self) -> Option<AceView<'a>> {
        if self.count == 0 {
            return None;
        }
        let (ace, left) = split_ace(self.left);
        self.left = left;
        self.count -= 1;
        Some(ace)
    }
}
