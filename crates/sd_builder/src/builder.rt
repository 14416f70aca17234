//! Descriptors built part by part in a buffer.

ghost use Rattle.std.specs.Prelude.{◌≡◌, ◌≤◌, ◌+◌, ◌^◌, ◌++◌, ◌↔◌, length, None, IsErr, OnOk, OnErr};
ghost use Rattle.sd_ace.specs.Ace.{AccessControlEntry, IsAce, ace_size};
ghost use Rattle.sd_ace.specs.AceHead.{plain_ace};
ghost use Rattle.sd_ace.specs.AceLayout.{ace_bytes};
ghost use Rattle.sd_kinds.specs.Kinds.{is_object};
ghost use Rattle.sd_parts.specs.declared.limits.TheConstants.{CAPACITY};
ghost use Rattle.sd_builder.specs.Builds.{Builds};
ghost use Rattle.sd_builder.specs.Inner.Building.{placed};
ghost use Rattle.sd_builder.specs.Trustee.{IsTrustee, trustee_sid};
ghost use Rattle.sd_view.specs.Descriptor.{Shows};
ghost use Rattle.sd_view.specs.WrittenForm.{IsWrittenForm};
ghost use Rattle.sd_builder.specs.Draft.{CanBegin, Draft, IsOpen, begun, built, built_bytes, ended, nothing_given};
ghost use Rattle.sd_builder.specs.Draft.{open_size, sid_for, with_ace, with_acl, with_group, with_owner};
ghost use Rattle.sd_builder.specs.Draft.{with_owner_or_group};
ghost use Rattle.sd_view.specs.declared.acl_part.AclPart.TheVariants as acl;

use crate::acl_layout::acl_header;
use crate::append::{append_ace, append_parts, append_sid_at, plain_size};
use crate::changed::{ChangedAce, append_changed};
use crate::trustee::Trustee;
use sd_ace::{Ace, AceHead, AceParts};
use sd_buffer::SdBuf;
use sd_parts::{
    ACL_HEADER_SIZE, HEADER_SIZE, MOST_ACL_SIZE, Part, Parts, SidPart, Which, control_of, header,
};
use sd_sid::Sid;

/// The ACL would pass 65,535 bytes.
#[derive(Clone, Copy, Debug, PartialEq, Eq)]
pub struct AclTooLarge;

/// A descriptor that is built in a buffer beside it (MS-DTYP 2.4.6): owner, group and the two ACLs, each at most once
/// and in any order, and then `finish`. Each call takes the buffer as the builder's last call left it. The parts stand
/// in the buffer in the order of the calls, without gaps.
///
/// ```
/// let everyone = Sid::new(1, &[0]).expect(&rt, "a SID");
/// let mut buf = SdBuf::new(rt.alloc()).expect(&rt, "memory");
/// let mut builder = Builder::new(&mut buf);
/// builder.owner(&mut buf, &everyone);
/// builder.begin_acl(&mut buf, Which::Dacl);
/// builder.end_acl(&mut buf);
/// builder.finish(&mut buf, 0, 0);
/// let mut same = SdBuf::new(rt.alloc()).expect(&rt, "memory");
/// let text = b"01000480140000000000000000000000200000000101000000000001000000000200080000000000";
/// assert!(rt; same.from_hex(text) == Ok(()) && buf.bytes() == same.bytes());
/// ```
#[derive(Drop)]
pub struct Builder {
    // The offsets of the parts that were given, and 0 for an ACL that is null.
    offsets: Parts<Option<u32>>,
    open: Option<OpenAcl>,
}

/// An ACL that is being built, at the end of the buffer.
#[derive(Clone, Copy)]
pub struct OpenAcl {
    which: Which,
    start: u32,
    // The number of its ACEs, and whether an object ACE is among them.
    count: u16,
    object: bool,
}

impl Builder {
    /// Clears the buffer, and begins a descriptor in it.
    pub fn new(buf: &mut SdBuf) -> Builder
        ensures value { Builds result buf.new nothing_given }
    {
        buf.clear();
        // Room for the header, which `finish` writes.
        buf.append(&[0; HEADER_SIZE]);
        Builder {
            offsets: Parts::each(None),
            open: None,
        }
    }

    /// Appends the SID of the owner (MS-DTYP 2.4.2).
    pub fn owner(&mut self, buf: &mut SdBuf, sid: &Sid)
        requires { (t : Draft) × Builds self.old buf.old t × (t.parts.owner ≡ None) × (t.parts.«open» ≡ None) }
        ensures value { (t : Draft) → Builds self.old buf.old t → Builds self.new buf.new (with_owner sid.now t) }
    {
        self.sid(buf, SidPart::Owner, Trustee::Sid(sid));
    }

    /// Appends the SID of the primary group (MS-DTYP 2.4.2).
    pub fn group(&mut self, buf: &mut SdBuf, sid: &Sid)
        requires { (t : Draft) × Builds self.old buf.old t × (t.parts.group ≡ None) × (t.parts.«open» ≡ None) }
        ensures value { (t : Draft) → Builds self.old buf.old t → Builds self.new buf.new (with_group sid.now t) }
    {
        self.sid(buf, SidPart::Group, Trustee::Sid(sid));
    }

    /// Appends the SID of the owner or of the primary group, as `owner` and `group` do.
    #[inline(always)]
    pub fn sid(&mut self, buf: &mut SdBuf, part: SidPart, trustee: Trustee<'_>)
        requires trustee { IsTrustee trustee }
        requires held { (t : Draft) × Builds self.old buf.old t × (sid_for part t.parts ≡ None)
            × (t.parts.«open» ≡ None) }
        ensures value { (t : Draft) → Builds self.old buf.old t
            → Builds self.new buf.new (with_owner_or_group part (trustee_sid trustee.entry) t) }
    {
        let offset = append_sid_at(buf, trustee);
        self.keep(part.into(), offset);
    }

    /// Begins an ACL (MS-DTYP 2.4.5), to which `ace` appends, until `end_acl`.
    pub fn begin_acl(&mut self, buf: &mut SdBuf, which: Which)
        requires { (t : Draft) × Builds self.old buf.old t × CanBegin which t.parts }
        ensures value { (t : Draft) → Builds self.old buf.old t
            → Builds self.new buf.new (record t { parts = begun which t.parts }) }
    {
        self.open = Some(OpenAcl {
            which,
            start: buf.bytes().len() as u32,
            count: 0,
            object: false,
        });
        // Room for the header, which `end_acl` writes.
        buf.append(&[0; ACL_HEADER_SIZE]);
    }

    /// Appends an ACE (MS-DTYP 2.4.4) to the ACL that is open. AclTooLarge exactly where the ACL would pass 65,535
    /// bytes, and then nothing is changed.
    #[inline(always)]
    pub fn ace(&mut self, buf: &mut SdBuf, ace: &Ace) -> Result<(), AclTooLarge>
        requires { (t : Draft) × Builds self.old buf.old t × IsOpen t.parts }
        ensures full { (t : Draft) → Builds self.old buf.old t
            → (IsErr result ↔ (2 ^ 16 ≤ open_size t.parts + ace_size ace.now)) }
        ensures ok { (t : Draft) → Builds self.old buf.old t
            → OnOk result (Builds self.new buf.new (record t { parts = with_ace ace.now t.parts })) }
        ensures same { OnErr result ((self.new ≡ self.old) × (buf.new ≡ buf.old)) }
    {
        self.ace_of(buf, &ace.parts())
    }

    /// Appends an ACE whose parts stand elsewhere, as `ace` appends one.
    // Never inlined: a derivation does not call it, and a line that is read from SDDL takes 69 instructions less so.
    #[inline(never)]
    pub fn ace_of(&mut self, buf: &mut SdBuf, ace: &AceParts<'_>) -> Result<(), AclTooLarge>
        requires { (t : Draft) × Builds self.old buf.old t × IsOpen t.parts }
        ensures full { (t : Draft) → Builds self.old buf.old t
            → (IsErr result ↔ (2 ^ 16 ≤ open_size t.parts + ace_size ace.now)) }
        ensures ok { (t : Draft) → Builds self.old buf.old t
            → OnOk result (Builds self.new buf.new (record t { parts = with_ace ace.now t.parts })) }
        ensures same { OnErr result ((self.new ≡ self.old) × (buf.new ≡ buf.old)) }
    {
        self.count_ace(buf, ace.size(), ace.kind().is_object())?;
        append_parts(buf, ace);
        Ok(())
    }

    /// Appends an ACE without object types, as `ace` appends one.
    #[inline(always)]
    pub fn plain_ace(
        &mut self,
        buf: &mut SdBuf,
        head: AceHead,
        trustee: Trustee<'_>,
    ) -> Result<(), AclTooLarge>
        requires trustee { IsTrustee trustee }
        requires held { (t : Draft) × Builds self.old buf.old t × IsOpen t.parts }
        ensures full { (t : Draft) → Builds self.old buf.old t → (IsErr result
            ↔ (2 ^ 16 ≤ open_size t.parts + ace_size (plain_ace head (trustee_sid trustee.entry)))) }
        ensures ok { (t : Draft) → Builds self.old buf.old t
            → OnOk result (Builds self.new buf.new
            (record t { parts = with_ace (plain_ace head (trustee_sid trustee.entry)) t.parts })) }
        ensures same { OnErr result ((self.new ≡ self.old) × (buf.new ≡ buf.old)) }
    {
        self.count_ace(buf, plain_size(head, trustee), false)?;
        append_ace(buf, head, trustee);
        Ok(())
    }

    /// Appends an ACE that is another one with changes, as `ace` appends the ACE that it is.
    #[inline(always)]
    pub fn changed_ace(&mut self, buf: &mut SdBuf, ace: &ChangedAce<'_>) -> Result<(), AclTooLarge>
        requires { (t : Draft) × Builds self.old buf.old t × IsOpen t.parts }
        ensures full { (t : Draft) → Builds self.old buf.old t
            → (IsErr result ↔ (2 ^ 16 ≤ open_size t.parts + ace_size ace.now)) }
        ensures ok { (t : Draft) → Builds self.old buf.old t
            → OnOk result (Builds self.new buf.new (record t { parts = with_ace ace.now t.parts })) }
        ensures same { OnErr result ((self.new ≡ self.old) × (buf.new ≡ buf.old)) }
    {
        self.count_ace(buf, ace.size(), ace.kind().is_object())?;
        append_changed(buf, ace);
        Ok(())
    }

    // Counts an ACE whose bytes the caller appends next, if the ACL that is open has room for it.
    #[inline(always)]
    fn count_ace(&mut self, buf: &SdBuf, size: u16, object: bool) -> Result<(), AclTooLarge>
        requires { (t : Draft) × Builds self.old buf.now t × IsOpen t.parts }
        ensures full { (t : Draft) → Builds self.old buf.now t → (IsErr result ↔ (2 ^ 16 ≤ open_size t.parts + size)) }
        ensures room { OnOk result (length buf.now + size ≤ CAPACITY) }
        // The size of an ACE is a multiple of four, so an ACL has at most 65,532 bytes.
        ensures spare { (a : AccessControlEntry) → size ≡ ace_size a
            → OnOk result (length buf.now + 4 + size ≤ CAPACITY) }
        ensures ok { (t : Draft) (a : AccessControlEntry) → Builds self.old buf.now t
            → IsAce a → size ≡ ace_size a → object ≡ is_object a.kind
            → OnOk result (Builds self.new (buf.now ++ ace_bytes a) (record t { parts = with_ace a t.parts })) }
        ensures same { OnErr result (self.new ≡ self.old) }
    {
        let open = self.open.unwrap();
        let acl_size = buf.bytes().len() - open.start as usize + usize::from(size);
        if acl_size > MOST_ACL_SIZE {
            return Err(AclTooLarge);
        }
        // In place: a new `Some` would write all of its fields.
        if let Some(acl) = &mut self.open {
            acl.count += 1;
            acl.object |= object;
        }
        Ok(())
    }

    /// Ends the ACL that is open, and writes its header (MS-DTYP 2.4.5): revision 4 if an object ACE is in it,
    /// else 2.
    pub fn end_acl(&mut self, buf: &mut SdBuf)
        requires { (t : Draft) × Builds self.old buf.old t × IsOpen t.parts }
        ensures value { (t : Draft) → Builds self.old buf.old t → Builds self.new buf.new (ended t) }
    {
        let open = self.open.unwrap();
        let start = open.start as usize;
        let size = (buf.bytes().len() - start) as u16;
        buf.patch(start, &acl_header(open.object, size, open.count));
        self.open = None;
        self.keep(open.which.into(), open.start);
    }

    /// An ACL that is present and null (MS-DTYP 2.4.6): its offset is 0.
    pub fn null_acl(&mut self, buf: &mut SdBuf, which: Which)
        requires { (t : Draft) × Builds self.old buf.old t × CanBegin which t.parts }
        ensures value { (t : Draft) → Builds self.old buf.old t
            → Builds self.new buf.new (record t { parts = with_acl which acl.Null t.parts }) }
    {
        self.keep(which.into(), 0);
    }

    // Keeps the offset of a part that was given.
    fn keep(&mut self, part: Part, offset: u32)
        ensures { self.new ≡ placed part offset self.old }
    {
        self.offsets.set(part, Some(offset));
    }

    /// Writes the header (MS-DTYP 2.4.6). Of the flags the bits 0x8000, 0x10 and 0x4 don't count: the first is set, and
    /// the others say which ACLs are present.
    pub fn finish(&self, buf: &mut SdBuf, flags: u16, rm: u8)
        requires { (t : Draft) × Builds self.now buf.old t × (t.parts.«open» ≡ None) }
        // The header, and the parts in the order of the calls.
        ensures exact { (t : Draft) → Builds self.now buf.old t → buf.new ≡ built_bytes flags rm t }
        ensures shows { (t : Draft) → Builds self.now buf.old t → Shows buf.new (built flags rm t.parts) }
        // Without gaps, and each part in its one written form: what `view_written` requires.
        ensures form { IsWrittenForm buf.new }
    {
        let kept = &self.offsets;
        let control = control_of(flags, kept.sacl.is_some(), kept.dacl.is_some());
        let offsets = Parts {
            owner: kept.owner.unwrap_or(0),
            group: kept.group.unwrap_or(0),
            sacl: kept.sacl.unwrap_or(0),
            dacl: kept.dacl.unwrap_or(0),
        };
        buf.patch(0, &header(rm, control, offsets));
    }
}
