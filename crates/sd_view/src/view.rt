//! Descriptors read in place.

ghost use Rattle.std.specs.Prelude.{◌≡◌, ◌≤◌, ◌<◌, ◌+◌, ◌*◌, ℕ, List, length, Ok, Err, IfOk, IfSome, OnOk, MatchResult};
ghost use Rattle.sd_parts.specs.Control.{AreControlBits};
ghost use Rattle.sd_view.specs.Descriptor.{Descriptor, Shows, IsAclPart, IsDescriptor, acl_extent, extents_of};
ghost use Rattle.sd_view.specs.Descriptor.{sid_extent};
ghost use Rattle.sd_view.specs.Layout.{layout, sid_part, size};
ghost use Rattle.sd_view.specs.WrittenForm.{AclIsWritten, IsWrittenForm};
ghost use Rattle.sd_acl_view.specs.AclChecks.{FailsBy};
ghost use Rattle.sd_view.specs.Inner.Found.{shown_written, written_of};
ghost use Rattle.sd_view.specs.Reading.{acl_part_fault, acl_shown, fault, header_fault, overlap_fault, overlaps_fault};
ghost use Rattle.sd_view.specs.Reading.{parts_fault, reading, share_a_byte as share_of, shown, sid_fault, sid_shown};
ghost use Rattle.sd_view.specs.Inner.Readable.{IsAclAt, IsSidAt};
ghost use Rattle.sd_parts.specs.declared.limits.TheConstants.{HEADER_SIZE, MOST_SID_SIZE};

use crate::acl_part::AclPart;
use crate::fault::{SdFault, fault_in};
use crate::laid_out::is_laid_out;
use sd_acl_view::{Written, acl_view, check_acl, u16_at, u32_at};
use sd_parts::{
    ACL_REVISION_DS, DACL_OFFSET, DACL_PRESENT, GROUP_OFFSET, HEADER_SIZE, OWNER_OFFSET, Part,
    Parts, SACL_OFFSET, SACL_PRESENT, SELF_RELATIVE, has_bit,
};
use sd_sid::Sid;
use sd_sid_view::SidView;
use std::marker::Model;

/// What is kept of an ACL that is not there.
const NOTHING: Written = Written {
    size: 0,
    object: false,
};

/// A descriptor in the bytes that show it.
#[derive(Drop)]
pub struct SdView<'a> {
    bytes: &'a [u8],
    // What the check of the ACLs found, so that they are not walked again for it.
    acls: Acls,
}

impl<'a> Model for SdView<'a> {
    ghost use Rattle.std.specs.Prelude.{◌≡◌};
    ghost use Rattle.sd_view.specs.Descriptor.{Descriptor};
    ghost use Rattle.sd_view.specs.Inner.Found.{shown_written};
    ghost use Rattle.sd_view.specs.Reading.{shown};
    ghost use Rattle.sd_view.specs.Inner.Readable.{Readable};

    ghost Value = { Descriptor };

    ghost view = { λ v. shown v.bytes.now };

    ghost invariant = { λ v. Readable v.bytes.now × (v.acls ≡ shown_written (shown v.bytes.now)) };
}

/// What the check found for the written form of the two ACLs.
#[derive(Clone, Copy)]
pub struct Acls {
    pub sacl: Written,
    pub dacl: Written,
}

/// Where a part is, if there is one: its first byte, and the first one after it.
pub type Extent = Option<(u64, u64)>;

/// The descriptor that the bytes show (MS-DTYP 2.4.6), or the first fault of the bytes.
///
/// ```
/// let bytes = *b"\x01\0\x04\x80\0\0\0\0\0\0\0\0\0\0\0\0\0\0\0\0";
/// assert!(rt; read(&bytes).map(|view| view.control()) == Ok(0x8004));
/// assert!(rt; read(&bytes[..19]).err() == Some(SdFault::Short));
/// ```
pub fn read(bytes: &[u8]) -> Result<SdView<'_>, SdFault>
    // What is read is shown.
    ensures found { IfOk result (λ d. Shows bytes.now d) }
    // What is shown is read, and nothing else is shown.
    ensures only { (d : Descriptor) → Shows bytes.now d → result ≡ Ok d }
    // Which fault it is.
    ensures fault { MatchResult result (λ _. fault bytes.now ≡ None) (λ f. fault bytes.now ≡ Some f) }
    // The same as a function of the bytes.
    ensures exact { result ≡ reading bytes.now }
    ensures limits { IfOk result IsDescriptor }
    // Its written layout has no more bytes than these,
    ensures no_longer { IfOk result (λ d. size d ≤ length bytes.now) }
    // and at most 20 + 2 * 68 + 2 * 65,532: a header, two SIDs and two ACLs, whose sizes are multiples of four.
    ensures most { IfOk result (λ d. size d ≤ 131220) }
{
    let (_, acls) = check(bytes)?;
    Ok(SdView { bytes, acls })
}

/// The descriptor that the bytes show, as `read` reads it, and where its parts are.
pub fn read_extents(bytes: &[u8]) -> Result<(SdView<'_>, Parts<Extent>), SdFault>
    ensures view { MatchResult result (λ r. reading bytes.now ≡ Ok r.0) (λ f. reading bytes.now ≡ Err f) }
    ensures extents { IfOk result (λ r. r.1 ≡ extents_of bytes.now r.0) }
    ensures shows { IfOk result (λ r. Shows bytes.now r.0) }
    ensures limits { IfOk result (λ r. IsDescriptor r.0) }
{
    match check(bytes) {
        Ok((extents, acls)) => Ok((SdView { bytes, acls }, extents)),
        Err(fault) => Err(fault),
    }
}

/// The descriptor that bytes in their written form show (MS-DTYP 2.4.6). Nothing is checked, and of each ACL only the
/// header is read.
///
/// ```
/// let mut buf = SdBuf::new(rt.alloc()).expect(&rt, "memory");
/// assert!(rt; read_sddl(b"G:SY", None, &mut buf) == Ok(()));
/// assert!(rt; view_written(buf.bytes()).group() == Sid::new(5, &[18]));
/// ```
pub fn view_written(bytes: &[u8]) -> SdView<'_>
    requires { IsWrittenForm bytes.now }
    ensures found { Shows bytes.now result }
    ensures only { (d : Descriptor) → Shows bytes.now d → result ≡ d }
    // What `read` gives.
    ensures exact { reading bytes.now ≡ Ok result }
    ensures limits { IsDescriptor result }
    // There are no spare bytes.
    ensures whole { length bytes.now ≡ size result }
{
    let control = u16_at(bytes, 2);
    let has_sacl = has_bit(control, SACL_PRESENT);
    let sacl = written_at(bytes, has_sacl, u32_at(bytes, SACL_OFFSET));
    let has_dacl = has_bit(control, DACL_PRESENT);
    let dacl = written_at(bytes, has_dacl, u32_at(bytes, DACL_OFFSET));
    let acls = Acls { sacl, dacl };
    SdView { bytes, acls }
}

// What the header of an ACL in its written form says, where an ACL is meant.
#[tactic(auto, unfolding(crate::specs::Reading::acl_shown))]
fn written_at(bytes: &[u8], present: bool, offset: u32) -> Written
    requires extent { IsAclAt bytes.now present offset }
    requires written { AclIsWritten bytes.now offset (acl_shown bytes.now present offset) }
    requires limits { IsAclPart present (acl_shown bytes.now present offset) }
    ensures { result ≡ written_of (acl_shown bytes.now present offset) }
{
    if !present || offset == 0 {
        return NOTHING;
    }
    let acl = &bytes[offset as usize..];
    Written {
        size: usize::from(u16_at(acl, 2)),
        object: acl[0] == ACL_REVISION_DS,
    }
}

// The first fault of the bytes, or where their parts are and what it found for the written form of the ACLs. Inlined,
// since most callers want no extents.
#[inline(always)]
#[tactic(auto, unfolding(crate::specs::Reading::fault))]
fn check(bytes: &[u8]) -> Result<(Parts<Extent>, Acls), SdFault>
    ensures fault { FailsBy (fault bytes.now) result }
    ensures extents { IfOk result (λ r. r.0 ≡ extents_of bytes.now (shown bytes.now)) }
    ensures acls { IfOk result (λ r. r.1 ≡ shown_written (shown bytes.now)) }
{
    check_header(bytes)?;
    let (extents, acls) = check_parts(bytes)?;
    check_overlaps(&extents)?;
    Ok((extents, acls))
}

// The first fault of the header.
#[tactic(auto, unfolding(crate::specs::Reading::header_fault))]
fn check_header(bytes: &[u8]) -> Result<(), SdFault>
    ensures fault { FailsBy (header_fault bytes.now) result }
    ensures room { OnOk result (HEADER_SIZE ≤ length bytes.now) }
{
    if bytes.len() < HEADER_SIZE {
        return Err(SdFault::Short);
    }
    if bytes[0] != 1 {
        return Err(SdFault::Revision);
    }
    if !has_bit(u16_at(bytes, 2), SELF_RELATIVE) {
        return Err(SdFault::NotSelfRelative);
    }
    Ok(())
}

// The first fault of the parts, or where they are and what the written form of the ACLs needs.
#[tactic(auto, unfolding(crate::specs::Reading::parts_fault))]
fn check_parts(bytes: &[u8]) -> Result<(Parts<Extent>, Acls), SdFault>
    requires { HEADER_SIZE ≤ length bytes.now }
    ensures fault { FailsBy (parts_fault bytes.now) result }
    ensures extents { IfOk result (λ r. r.0 ≡ extents_of bytes.now (shown bytes.now)) }
    ensures acls { IfOk result (λ r. r.1 ≡ shown_written (shown bytes.now)) }
{
    let control = u16_at(bytes, 2);
    let owner = check_sid(Part::Owner, bytes, u32_at(bytes, OWNER_OFFSET))?;
    let group = check_sid(Part::Group, bytes, u32_at(bytes, GROUP_OFFSET))?;
    let has_sacl = has_bit(control, SACL_PRESENT);
    let (sacl, sacl_written) = check_acl_part(
        Part::Sacl,
        bytes,
        has_sacl,
        u32_at(bytes, SACL_OFFSET),
    )?;
    let has_dacl = has_bit(control, DACL_PRESENT);
    let (dacl, dacl_written) = check_acl_part(
        Part::Dacl,
        bytes,
        has_dacl,
        u32_at(bytes, DACL_OFFSET),
    )?;
    let extents = Parts {
        owner,
        group,
        sacl,
        dacl,
    };
    let acls = Acls {
        sacl: sacl_written,
        dacl: dacl_written,
    };
    Ok((extents, acls))
}

// The extent of the SID at an offset, where one is meant.
#[tactic(auto, unfolding(crate::specs::Reading::sid_fault, crate::specs::Reading::sid_shown))]
fn check_sid(part: Part, bytes: &[u8], offset: u32) -> Result<Extent, SdFault>
    ensures { MatchResult result
        (λ extent. (sid_fault part bytes.now offset ≡ None) × (extent ≡ sid_extent offset (sid_shown bytes.now offset)))
        (λ f. sid_fault part bytes.now offset ≡ Some f) }
{
    if offset == 0 {
        return Ok(None);
    }
    let start = offset as usize;
    if start < HEADER_SIZE || bytes.len() < start + 8 {
        return Err(SdFault::Offset(part));
    }
    let Some(size) = Sid::size_at_front(&bytes[start..]) else {
        return Err(SdFault::Sid(part));
    };
    Ok(Some((u64::from(offset), u64::from(offset) + size as u64)))
}

// The extent of the ACL at an offset, where one is meant, and what its written form needs.
#[tactic(auto, unfolding(crate::specs::Reading::acl_part_fault, crate::specs::Reading::acl_shown))]
fn check_acl_part(
    part: Part,
    bytes: &[u8],
    present: bool,
    offset: u32,
) -> Result<(Extent, Written), SdFault>
    ensures fault { FailsBy (acl_part_fault part bytes.now present offset) result }
    ensures extent { IfOk result (λ r. r.0 ≡ acl_extent bytes.now offset (acl_shown bytes.now present offset)) }
    ensures written { IfOk result (λ r. r.1 ≡ written_of (acl_shown bytes.now present offset)) }
{
    if !present || offset == 0 {
        return Ok((None, NOTHING));
    }
    let start = offset as usize;
    if start < HEADER_SIZE || start + 8 > bytes.len() {
        return Err(SdFault::Offset(part));
    }
    match check_acl(&bytes[start..]) {
        Ok((size, written)) => Ok((
            Some((u64::from(offset), u64::from(offset) + size as u64)),
            written,
        )),
        Err(fault) => Err(fault_in(part, fault)),
    }
}

// The first pair of parts that shares a byte.
#[tactic(auto, unfolding(crate::specs::Reading::overlaps_fault))]
fn check_overlaps(extents: &Parts<Extent>) -> Result<(), SdFault>
    ensures { FailsBy (overlaps_fault extents.now) result }
{
    check_apart(Part::Owner, Part::Group, extents)?;
    check_apart(Part::Owner, Part::Sacl, extents)?;
    check_apart(Part::Owner, Part::Dacl, extents)?;
    check_apart(Part::Group, Part::Sacl, extents)?;
    check_apart(Part::Group, Part::Dacl, extents)?;
    check_apart(Part::Sacl, Part::Dacl, extents)
}

#[tactic(auto, unfolding(crate::specs::Reading::overlap_fault))]
fn check_apart(p: Part, q: Part, extents: &Parts<Extent>) -> Result<(), SdFault>
    ensures { FailsBy (overlap_fault p q extents.now) result }
{
    if share_a_byte(extents.get(p), extents.get(q)) {
        return Err(SdFault::Overlap(p, q));
    }
    Ok(())
}

// Whether two extents share a byte.
fn share_a_byte(a: Extent, b: Extent) -> bool
    ensures { result ≡ share_of a b }
{
    match (a, b) {
        (Some(a), Some(b)) => b.0 < a.1 && a.0 < b.1,
        _ => false,
    }
}

impl<'a> SdView<'a> {
    /// The control word.
    pub fn control(&self) -> u16
        ensures value { result ≡ self.now.control }
        ensures limits { IsDescriptor self.now }
        // What the constants of its bits are.
        ensures bits { AreControlBits }
    {
        u16_at(self.bytes, 2)
    }

    /// The resource manager byte.
    pub fn rm(&self) -> u8
        ensures { result ≡ self.now.rm }
    {
        self.bytes[1]
    }

    /// The SID of the owner, if there is one.
    ///
    /// ```
    /// let mut buf = SdBuf::new(rt.alloc()).expect(&rt, "memory");
    /// assert!(rt; read_sddl(b"O:BA", None, &mut buf) == Ok(()));
    /// let view = read(buf.bytes()).expect(&rt, "a descriptor");
    /// assert!(rt; view.owner() == Sid::new(5, &[32, 544]));
    /// ```
    pub fn owner(&self) -> Option<Sid>
        ensures { result ≡ self.now.owner }
    {
        Some(self.owner_in_place()?.sid())
    }

    /// The SID of the primary group, if there is one.
    pub fn group(&self) -> Option<Sid>
        ensures { result ≡ self.now.group }
    {
        Some(self.group_in_place()?.sid())
    }

    /// The SID of the owner, read in place.
    pub fn owner_in_place(&self) -> Option<SidView<'a>>
        ensures { result ≡ self.now.owner }
    {
        sid_in(self.bytes, u32_at(self.bytes, OWNER_OFFSET))
    }

    /// The SID of the primary group, read in place.
    pub fn group_in_place(&self) -> Option<SidView<'a>>
        ensures { result ≡ self.now.group }
    {
        sid_in(self.bytes, u32_at(self.bytes, GROUP_OFFSET))
    }

    /// The system ACL: what is audited, and the mandatory label.
    pub fn sacl(&self) -> AclPart<'a>
        ensures { result ≡ self.now.sacl }
    {
        let present = has_bit(self.control(), SACL_PRESENT);
        acl_in(
            self.bytes,
            present,
            u32_at(self.bytes, SACL_OFFSET),
            self.acls.sacl,
        )
    }

    /// The discretionary ACL: who is allowed what.
    ///
    /// ```
    /// let mut buf = SdBuf::new(rt.alloc()).expect(&rt, "memory");
    /// assert!(rt; read_sddl(b"D:NO_ACCESS_CONTROL", None, &mut buf) == Ok(()));
    /// let view = read(buf.bytes()).expect(&rt, "a descriptor");
    /// assert!(rt; matches!(view.dacl(), AclPart::Null));
    /// ```
    pub fn dacl(&self) -> AclPart<'a>
        ensures { result ≡ self.now.dacl }
    {
        let present = has_bit(self.control(), DACL_PRESENT);
        acl_in(
            self.bytes,
            present,
            u32_at(self.bytes, DACL_OFFSET),
            self.acls.dacl,
        )
    }

    /// The size of the written layout in bytes, at most 131,220.
    pub fn size(&self) -> u32
        ensures value { result ≡ size self.now }
        ensures most { size self.now ≤ 131220 }
        // As many bytes as the layout has.
        ensures written { length (layout self.now) ≡ size self.now }
        // No bytes that show the descriptor are fewer.
        ensures least { (bytes : List ℕ) → Shows bytes self.now → size self.now ≤ length bytes }
    {
        let sids = self.owner_bytes().len() + self.group_bytes().len();
        (HEADER_SIZE + sids + self.acls.sacl.size + self.acls.dacl.size) as u32
    }

    /// The owner's bytes, and none where there is no owner.
    pub fn owner_bytes(&self) -> &'a [u8]
        ensures value { result.now ≡ sid_part self.now.owner }
        ensures short { length result.now ≤ MOST_SID_SIZE }
        ensures limits { IsDescriptor self.now }
    {
        sid_bytes_at(self.bytes, u32_at(self.bytes, OWNER_OFFSET))
    }

    /// The group's bytes, and none where there is no group.
    pub fn group_bytes(&self) -> &'a [u8]
        ensures value { result.now ≡ sid_part self.now.group }
        ensures short { length result.now ≤ MOST_SID_SIZE }
    {
        sid_bytes_at(self.bytes, u32_at(self.bytes, GROUP_OFFSET))
    }

    /// The bytes that are read, if they are the written layout (MS-DTYP 2.4.6). `None` means only that the layout must
    /// be written out.
    ///
    /// ```
    /// let bytes = *b"\x01\0\0\x80\0\0\0\0\0\0\0\0\0\0\0\0\0\0\0\0 and more";
    /// let header = read(&bytes[..20]).expect(&rt, "a descriptor");
    /// assert!(rt; header.laid_out().is_some());
    /// let more = read(&bytes).expect(&rt, "a descriptor");
    /// assert!(rt; more.laid_out().is_none());
    /// ```
    #[inline(always)]
    pub fn laid_out(&self) -> Option<&'a [u8]>
        ensures value { IfSome result (λ bytes. bytes.now ≡ layout self.now) }
        ensures limits { IsDescriptor self.now }
    {
        if is_laid_out(self.bytes, self.acls) {
            Some(self.bytes)
        } else {
            None
        }
    }
}

// The SID at an offset that was checked.
#[tactic(auto, unfolding(crate::specs::Reading::sid_shown))]
fn sid_in(bytes: &[u8], offset: u32) -> Option<SidView<'_>>
    requires { IsSidAt bytes.now offset }
    ensures { result ≡ sid_shown bytes.now offset }
{
    if offset == 0 {
        return None;
    }
    Some(SidView::at_front(&bytes[offset as usize..]))
}

// The bytes of the SID at an offset that was checked.
#[inline(always)]
pub(crate) fn sid_bytes_at(bytes: &[u8], offset: u32) -> &[u8]
    requires { IsSidAt bytes.now offset }
    ensures value { result.now ≡ sid_part (sid_shown bytes.now offset) }
    ensures short { length result.now ≤ MOST_SID_SIZE }
{
    if offset == 0 {
        return &[];
    }
    let rest = &bytes[offset as usize..];
    &rest[..8 + 4 * usize::from(rest[1])]
}

// The ACL at an offset that was checked.
#[tactic(auto, unfolding(crate::specs::Reading::acl_shown))]
fn acl_in(bytes: &[u8], present: bool, offset: u32, written: Written) -> AclPart<'_>
    requires extent { IsAclAt bytes.now present offset }
    requires written { written ≡ written_of (acl_shown bytes.now present offset) }
    ensures { result ≡ acl_shown bytes.now present offset }
{
    if !present {
        return AclPart::Absent;
    }
    if offset == 0 {
        return AclPart::Null;
    }
    let rest = &bytes[offset as usize..];
    let size = usize::from(u16_at(rest, 2));
    AclPart::List(acl_view(&rest[..size], written))
}
