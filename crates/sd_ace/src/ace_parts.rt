//! ACEs whose parts stand elsewhere (MS-DTYP 2.4.4).

ghost use Rattle.std.specs.Prelude.{◌≡◌, ◌<◌, ◌≤◌, ◌/◌, ◌%◌, IfSome, length};
ghost use Rattle.std.specs.List.{All};
ghost use Rattle.sd_ace.specs.Ace.{GuidsFit, IsAce, IsGuid, ace_size, guid_size as size_of_guid};
ghost use Rattle.sd_kinds.specs.Kinds.{is_object};

use crate::ace_front::{FRONT_SIZE, OBJECT_FRONT_SIZE};
use sd_kinds::AceKind;
use sd_sid::Sid;
use std::marker::Model;
use uuid::Uuid;

/// What an ACE has before its SID (MS-DTYP 2.4.4).
#[derive(Clone, Copy)]
pub struct AceFields {
    pub kind: AceKind,
    pub flags: u8,
    pub mask: u32,
    pub object: Option<Uuid>,
    pub inherited: Option<Uuid>,
}

/// An access control entry (MS-DTYP 2.4.4) of which GUIDs and SID stand elsewhere, so that they are not copied before
/// they are written.
#[derive(Drop)]
pub struct AceParts<'a> {
    pub(crate) kind: AceKind,
    pub(crate) flags: u8,
    pub(crate) mask: u32,
    pub(crate) object: &'a Option<Uuid>,
    pub(crate) inherited: &'a Option<Uuid>,
    pub(crate) sid: &'a Sid,
}

impl<'a> Model for AceParts<'a> {
    ghost use Rattle.std.specs.Prelude.{◌≡◌, ◌<◌, ◌/◌, ◌%◌, ◌^◌};
    ghost use Rattle.sd_ace.specs.Ace.{AccessControlEntry, GuidsFit};
    ghost use Rattle.sd_kinds.specs.Kinds.{is_object};

    ghost Value = { AccessControlEntry };

    ghost view = { λ a. record {
      kind = a.kind;
      flags = a.flags;
      mask = a.mask;
      object = a.object.now;
      inherited = a.inherited.now;
      sid = a.sid.now;
    } };

    ghost invariant = { λ a. (a.flags < 256) × (a.flags / 0x20 % 2 ≡ 0) × (a.mask < 2 ^ 32)
        × GuidsFit (is_object a.kind) a.object.now a.inherited.now };
}

impl<'a> AceParts<'a> {
    /// The ACE of these fields for a trustee.
    #[inline(always)]
    pub fn new(fields: &'a AceFields, sid: &'a Sid) -> AceParts<'a>
        requires clear { fields.now.flags / 0x20 % 2 ≡ 0 }
        requires fit { GuidsFit (is_object fields.now.kind) fields.now.object fields.now.inherited }
        ensures { result ≡ record {
          kind = fields.now.kind;
          flags = fields.now.flags;
          mask = fields.now.mask;
          object = fields.now.object;
          inherited = fields.now.inherited;
          sid = sid.now;
        } }
    {
        // Read, so that the limits of their types are known.
        let (flags, mask) = (fields.flags, fields.mask);
        AceParts {
            kind: fields.kind,
            flags,
            mask,
            object: &fields.object,
            inherited: &fields.inherited,
            sid,
        }
    }

    /// The size in bytes, as that of an `Ace`.
    pub fn size(&self) -> u16
        ensures value { result ≡ ace_size self.now }
        ensures aligned { result % 4 ≡ 0 }
        ensures least { 16 ≤ result }
        ensures most { result ≤ 112 }
        ensures limits { IsAce self.now }
    {
        let sid_size = self.sid.size() as u16;
        if !self.kind.is_object() {
            return FRONT_SIZE as u16 + sid_size;
        }
        let guids_size = guid_size(*self.object) + guid_size(*self.inherited);
        OBJECT_FRONT_SIZE as u16 + guids_size + sid_size
    }

    /// What it does.
    #[inline(always)]
    pub fn kind(&self) -> AceKind
        ensures { result ≡ self.now.kind }
    {
        self.kind
    }

    /// The flags, without 0x20.
    #[inline(always)]
    pub fn flags(&self) -> u8
        ensures { result ≡ self.now.flags }
    {
        self.flags
    }

    /// The access mask.
    #[inline(always)]
    pub fn mask(&self) -> u32
        ensures { result ≡ self.now.mask }
    {
        self.mask
    }

    /// The object type.
    #[inline(always)]
    pub fn object(&self) -> &'a Option<Uuid>
        ensures { result.now ≡ self.now.object }
    {
        self.object
    }

    /// The inherited object type.
    #[inline(always)]
    pub fn inherited(&self) -> &'a Option<Uuid>
        ensures { result.now ≡ self.now.inherited }
    {
        self.inherited
    }

    /// The trustee.
    #[inline(always)]
    pub fn trustee(&self) -> &'a Sid
        ensures { result.now ≡ self.now.sid }
    {
        self.sid
    }
}

// The bytes of a GUID that may be there.
fn guid_size(guid: Option<Uuid>) -> u16
    ensures value { result ≡ size_of_guid guid }
    ensures limits { IfSome guid IsGuid }
{
    match guid {
        None => 0,
        Some(guid) => byte_count(guid.as_bytes().as_slice()) as u16,
    }
}

// How many bytes there are. A slice shows that each is below 256; an array does not.
fn byte_count(bytes: &[u8]) -> usize
    ensures value { result ≡ length bytes.now }
    ensures bytes { All (λ b. b < 256) bytes.now }
{
    bytes.len()
}
