//! Access control entries read in place.

ghost use Rattle.std.specs.Prelude.{◌≡◌, ◌≤◌, ◌<◌, ◌+◌, ◌%◌, length, take, drop, Some, IfOk};
ghost use Rattle.uuid.specs.Parts.{swap_fields};
ghost use Rattle.sd_ace.specs.Ace.{IsAce, ace_size, guid_size};
ghost use Rattle.sd_kinds.specs.Kinds.{is_object};
ghost use Rattle.sd_acl_view.specs.Ace.{announces_inherited, announces_object};
ghost use Rattle.sd_ace.specs.AceLayout.{ace_body, ace_bytes, front_size};
ghost use Rattle.sd_acl_view.specs.AclReading.{ace_fault, ace_of, extent_fault, inherited_in, kind_in, object_in};
ghost use Rattle.sd_acl_view.specs.AclReading.{sid_offset_in};
ghost use Rattle.sd_acl_view.specs.AclChecks.{FailsBy};
ghost use Rattle.sd_acl_view.specs.Inner.ReadableAce.{IsReadableAce};
ghost use Rattle.sd_acl_view.specs.Bytes.{u16_at as u16_of};
ghost use Rattle.sd_acl_view.specs.Inner.Written.{named_flags};

use crate::bytes::{u16_at, u32_at};
use crate::fault::AclFault;
use sd_ace::{Ace, FRONT_SIZE, GUID_SIZE, OBJECT_FRONT_SIZE, UNUSED_FLAG, guid_read};
use sd_kinds::AceKind;
use sd_sid::Sid;
use sd_sid_view::SidView;
use std::marker::Model;
use uuid::Uuid;

/// The bytes of the smallest ACE: 8, and a SID without sub-authorities.
const LEAST_SIZE: usize = 16;

/// The object flags that MS-DTYP 2.4.4.3 names.
const NAMED_OBJECT_FLAGS: u32 = 3;

/// What a check finds about the ACE at the front of some bytes: its size there, its written size, and whether it is an
/// object ACE.
#[derive(Clone, Copy)]
pub struct Checked {
    pub taken: usize,
    pub size: usize,
    pub object: bool,
}

#[tactic(auto, unfolding(crate::specs::AclReading::kind_in))]
fn kind_at(extent: &[u8]) -> AceKind
    requires { 16 ≤ length extent.now }
    ensures { result ≡ kind_in extent.now }
{
    AceKind::from_code(extent[0]).unwrap_or(AceKind::Allow)
}

// Whether the extent has the object type's GUID.
#[tactic(auto, unfolding(crate::specs::Ace::announces_object))]
fn has_object(extent: &[u8]) -> bool
    requires { 16 ≤ length extent.now }
    ensures { result ≡ announces_object (kind_in extent.now) extent.now }
{
    kind_at(extent).is_object() && u32_at(extent, 8) % 2 == 1
}

// Whether the extent has the inherited object type's GUID.
#[tactic(auto, unfolding(crate::specs::Ace::announces_inherited))]
fn has_inherited(extent: &[u8]) -> bool
    requires { 16 ≤ length extent.now }
    ensures { result ≡ announces_inherited (kind_in extent.now) extent.now }
{
    kind_at(extent).is_object() && u32_at(extent, 8) / 2 % 2 == 1
}

// The bytes of the object type's GUID in the extent: none where it is absent.
#[tactic(auto, unfolding(crate::specs::AclReading::object_in, crate::specs::AclReading::guid_if))]
fn object_size(extent: &[u8]) -> usize
    requires { 16 ≤ length extent.now }
    ensures { result ≡ guid_size (object_in extent.now) }
{
    if has_object(extent) { GUID_SIZE } else { 0 }
}

// The bytes of the inherited object type's GUID.
#[tactic(auto, unfolding(crate::specs::AclReading::inherited_in, crate::specs::AclReading::guid_if))]
fn inherited_size(extent: &[u8]) -> usize
    requires { 16 ≤ length extent.now }
    ensures { result ≡ guid_size (inherited_in extent.now) }
{
    if has_inherited(extent) { GUID_SIZE } else { 0 }
}

/// Where the SID is in the extent of an ACE.
#[tactic(auto, unfolding(crate::specs::AclReading::sid_offset_in))]
pub fn sid_offset(extent: &[u8]) -> usize
    requires { 16 ≤ length extent.now }
    ensures value { result ≡ sid_offset_in extent.now }
    ensures bound { result ≤ 44 }
{
    if !kind_at(extent).is_object() {
        return FRONT_SIZE;
    }
    OBJECT_FRONT_SIZE + object_size(extent) + inherited_size(extent)
}

// The written size of the ACE in the extent.
#[tactic(auto, unfolding(crate::specs::AclReading::extent_fault))]
fn check_extent(extent: &[u8]) -> Result<usize, AclFault>
    requires { 16 ≤ length extent.now }
    ensures fault { FailsBy (extent_fault extent.now) result }
    ensures size { IfOk result (λ n. (n ≡ ace_size (ace_of extent.now)) × (n ≤ length extent.now)) }
{
    if AceKind::from_code(extent[0]).is_none() {
        return Err(AclFault::AceType);
    }
    if extent[1] / UNUSED_FLAG % 2 == 1 {
        return Err(AclFault::AceFlags);
    }
    let front = sid_offset(extent);
    if extent.len() < front + 8 {
        return Err(AclFault::AceSize);
    }
    let Some(size) = Sid::size_at_front(&extent[front..]) else {
        return Err(AclFault::Sid);
    };
    Ok(front + size)
}

// The ACE at the front of what is left of an ACL.
#[tactic(auto, unfolding(crate::specs::AclReading::ace_fault))]
pub(crate) fn check_ace(left: &[u8]) -> Result<Checked, AclFault>
    ensures fault { FailsBy (ace_fault left.now) result }
    ensures taken { IfOk result (λ c. (c.taken ≡ u16_of 2 left.now) × (c.taken ≤ length left.now)) }
    ensures size { IfOk result
        (λ c. (c.size ≡ ace_size (ace_of (take (u16_of 2 left.now) left.now))) × (c.size ≤ c.taken)) }
    ensures object { IfOk result (λ c. c.object ≡ is_object (kind_in (take (u16_of 2 left.now) left.now))) }
{
    if left.len() < LEAST_SIZE {
        return Err(AclFault::AceSize);
    }
    let n = usize::from(u16_at(left, 2));
    if n < LEAST_SIZE || left.len() < n || n % 4 != 0 {
        return Err(AclFault::AceSize);
    }
    let extent = &left[..n];
    let size = check_extent(extent)?;
    Ok(Checked {
        taken: n,
        size,
        object: kind_at(extent).is_object(),
    })
}

// Whether the extent has no object flags but those that MS-DTYP 2.4.4.3 names.
pub(crate) fn has_named_flags(extent: &[u8]) -> bool
    requires { 16 ≤ length extent.now }
    ensures { result ≡ named_flags extent.now }
{
    !kind_at(extent).is_object() || u32_at(extent, 8) <= NAMED_OBJECT_FLAGS
}

/// An ACE in the bytes that show it (MS-DTYP 2.4.4).
#[derive(Drop)]
pub struct AceView<'a> {
    extent: &'a [u8],
}

impl<'a> Model for AceView<'a> {
    ghost use Rattle.sd_ace.specs.Ace.{AccessControlEntry};
    ghost use Rattle.sd_acl_view.specs.AclReading.{ace_of};
    ghost use Rattle.sd_acl_view.specs.Inner.ReadableAce.{IsReadableAce};

    ghost Value = { AccessControlEntry };

    ghost view = { λ v. ace_of v.extent.now };

    ghost invariant = { λ v. IsReadableAce v.extent.now };
}

// The view of an extent that was checked.
pub(crate) fn ace_view(extent: &[u8]) -> AceView<'_>
    requires { IsReadableAce extent.now }
    ensures { result ≡ ace_of extent.now }
{
    AceView { extent }
}

impl<'a> AceView<'a> {
    /// What it does.
    pub fn kind(&self) -> AceKind
        ensures value { result ≡ self.now.kind }
        ensures limits { IsAce self.now }
    {
        kind_at(self.extent)
    }

    /// Its flags (MS-DTYP 2.4.4.1). Bit 0x20 is clear.
    pub fn flags(&self) -> u8
        ensures { result ≡ self.now.flags }
    {
        self.extent[1]
    }

    /// The access mask (MS-DTYP 2.4.3).
    ///
    /// ```
    /// let mut buf = SdBuf::new(rt.alloc()).expect(&rt, "memory");
    /// assert!(rt; read_sddl(b"D:(A;;FA;;;WD)", None, &mut buf) == Ok(()));
    /// let view = read(buf.bytes()).expect(&rt, "a descriptor");
    /// let first = match view.dacl() {
    ///     AclPart::List(acl) => acl.aces().next().map(|ace| ace.mask()),
    ///     AclPart::Absent | AclPart::Null => None,
    /// };
    /// assert!(rt; first == Some(0x1f01ff));
    /// ```
    pub fn mask(&self) -> u32
        ensures { result ≡ self.now.mask }
    {
        u32_at(self.extent, 4)
    }

    /// The GUID of the object type, if there is one: in object kinds alone.
    #[tactic(auto, unfolding(crate::specs::AclReading::object_in, crate::specs::AclReading::guid_if))]
    pub fn object(&self) -> Option<Uuid>
        ensures { result ≡ self.now.object }
    {
        if !has_object(self.extent) {
            return None;
        }
        guid_at(self.extent, OBJECT_FRONT_SIZE)
    }

    /// The GUID of the inherited object type, if there is one: in object kinds alone.
    #[tactic(auto, unfolding(crate::specs::AclReading::inherited_in, crate::specs::AclReading::guid_if))]
    pub fn inherited(&self) -> Option<Uuid>
        ensures { result ≡ self.now.inherited }
    {
        if !has_inherited(self.extent) {
            return None;
        }
        guid_at(self.extent, OBJECT_FRONT_SIZE + object_size(self.extent))
    }

    /// The SID of the trustee.
    pub fn sid(&self) -> Sid
        ensures { result ≡ self.now.sid }
    {
        self.sid_in_place().sid()
    }

    /// The SID of the trustee, read in place.
    pub fn sid_in_place(&self) -> SidView<'a>
        ensures { result ≡ self.now.sid }
    {
        SidView::at_front(&self.extent[sid_offset(self.extent)..])
    }

    /// How many sub-authorities the SID has.
    pub fn sub_count(&self) -> usize
        ensures { result ≡ length self.now.sid.subs }
    {
        usize::from(self.extent[sid_offset(self.extent) + 1])
    }

    /// The written size in bytes, without what follows the SID: at most 112.
    pub fn size(&self) -> u16
        ensures value { result ≡ ace_size self.now }
        ensures most { ace_size self.now ≤ 112 }
        // As many bytes as its written form has.
        ensures written { length (ace_bytes self.now) ≡ ace_size self.now }
    {
        (self.front_size() + self.body().len()) as u16
    }

    /// The ACE by value.
    pub fn ace(&self) -> Ace
        ensures { result ≡ self.now }
    {
        // What is shown is an ACE, so its parts make one.
        Ace::new(
            self.kind(),
            self.flags(),
            self.mask(),
            self.object(),
            self.inherited(),
            self.sid(),
        )
        .unwrap()
    }

    // The bytes before the GUIDs.
    pub(crate) fn front_size(&self) -> usize
        ensures { result ≡ front_size self.now.kind }
    {
        if kind_at(self.extent).is_object() {
            OBJECT_FRONT_SIZE
        } else {
            FRONT_SIZE
        }
    }

    /// The bytes of the GUIDs and of the SID.
    pub fn body(&self) -> &'a [u8]
        ensures value { result.now ≡ ace_body self.now }
        ensures size { front_size self.now.kind + length result.now ≡ ace_size self.now }
        ensures short { length result.now ≤ 100 }
    {
        let front = sid_offset(self.extent);
        let count = usize::from(self.extent[front + 1]);
        &self.extent[self.front_size()..front + 8 + 4 * count]
    }
}

// The GUID at an offset (MS-DTYP 2.3.4.2).
fn guid_at(bytes: &[u8], offset: usize) -> Option<Uuid>
    requires { offset + 16 ≤ length bytes.now }
    ensures { result ≡ Some (swap_fields (take 16 (drop offset bytes.now))) }
{
    let mut guid = [0; GUID_SIZE];
    guid.copy_from_slice(&bytes[offset..offset + GUID_SIZE]);
    Some(guid_read(&guid))
}
