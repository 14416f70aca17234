//! Access control entries (MS-DTYP 2.4.4).

ghost use Rattle.std.specs.Prelude.{◌≡◌, ◌≤◌, ◌↔◌, ◌/◌, ◌%◌, IsSome, IfSome, true};
ghost use Rattle.sd_ace.specs.Ace.{GuidsFit, IsAce, ace_size};
ghost use Rattle.sd_kinds.specs.Kinds.{is_object};

use crate::ace_parts::AceParts;
use sd_kinds::AceKind;
use sd_sid::Sid;
use std::marker::Model;
use uuid::Uuid;

/// The flag that MS-DTYP 2.4.4.1 does not name, and that no ACE has here.
pub const UNUSED_FLAG: u8 = 0x20;

/// An access control entry (MS-DTYP 2.4.4).
#[derive(Clone, Copy, Debug, PartialEq, Eq)]
pub struct Ace {
    kind: AceKind,
    flags: u8,
    mask: u32,
    object: Option<Uuid>,
    inherited: Option<Uuid>,
    sid: Sid,
}

impl Model for Ace {
    ghost use Rattle.std.specs.Prelude.{◌≡◌, ◌<◌, ◌/◌, ◌%◌, ◌^◌};
    ghost use Rattle.sd_ace.specs.Ace.{AccessControlEntry, GuidsFit};
    ghost use Rattle.sd_kinds.specs.Kinds.{is_object};

    ghost Value = { AccessControlEntry };

    ghost view = { λ a. record {
      kind = a.kind;
      flags = a.flags;
      mask = a.mask;
      object = a.object;
      inherited = a.inherited;
      sid = a.sid;
    } };

    ghost invariant = { λ a. (a.flags < 256) × (a.flags / 0x20 % 2 ≡ 0) × (a.mask < 2 ^ 32)
        × GuidsFit (is_object a.kind) a.object a.inherited };

    ghost inverse = { λ a. record {
      kind = a.kind;
      flags = a.flags;
      mask = a.mask;
      object = a.object;
      inherited = a.inherited;
      sid = a.sid;
    } };
}

impl Ace {
    /// The ACE of these parts. None where the flags have 0x20, or where a kind that is no object kind
    /// comes with a GUID.
    ///
    /// ```
    /// let everyone = Sid::new(1, &[0]).expect(&rt, "a SID");
    /// let ace = Ace::new(AceKind::Allow, 0, 0x1f01ff, None, None, everyone).expect(&rt, "an ACE");
    /// assert!(rt; ace.size() == 20 && ace.mask() == 0x1f01ff);
    /// assert!(rt; Ace::new(AceKind::Allow, UNUSED_FLAG, 1, None, None, everyone) == None);
    /// ```
    pub fn new(
        kind: AceKind,
        flags: u8,
        mask: u32,
        object: Option<Uuid>,
        inherited: Option<Uuid>,
        sid: Sid,
    ) -> Option<Ace>
        ensures found { IsSome result ↔ ((flags / 0x20 % 2 ≡ 0) × GuidsFit (is_object kind) object inherited) }
        ensures value { IfSome result (λ a. a
            ≡ record { kind = kind; flags = flags; mask = mask; object = object; inherited = inherited; sid = sid }) }
    {
        if flags & UNUSED_FLAG != 0 || !guids_fit(kind, &object, &inherited) {
            return None;
        }
        Some(Ace {
            kind,
            flags,
            mask,
            object,
            inherited,
            sid,
        })
    }

    /// The size in bytes (MS-DTYP 2.4.4.2 and 2.4.4.3): a multiple of 4, at least 16 and at most 112.
    pub fn size(&self) -> u16
        ensures value { result ≡ ace_size self.now }
        ensures aligned { result % 4 ≡ 0 }
        ensures least { 16 ≤ result }
        ensures most { result ≤ 112 }
        ensures limits { IsAce self.now }
    {
        self.parts().size()
    }

    /// Its parts, by reference.
    #[inline(always)]
    pub fn parts(&self) -> AceParts<'_>
        ensures { result ≡ self.now }
    {
        AceParts {
            kind: self.kind,
            flags: self.flags,
            mask: self.mask,
            object: &self.object,
            inherited: &self.inherited,
            sid: &self.sid,
        }
    }

    /// What it does.
    pub fn kind(&self) -> AceKind
        ensures { result ≡ self.now.kind }
    {
        self.kind
    }

    /// The flags of inheritance and audit (MS-DTYP 2.4.4.1), without 0x20.
    pub fn flags(&self) -> u8
        ensures { result ≡ self.now.flags }
    {
        self.flags
    }

    /// The access mask (MS-DTYP 2.4.3).
    pub fn mask(&self) -> u32
        ensures { result ≡ self.now.mask }
    {
        self.mask
    }

    /// The object type: what part of an object it speaks of (MS-DTYP 2.4.4.3).
    pub fn object(&self) -> Option<Uuid>
        ensures { result ≡ self.now.object }
    {
        self.object
    }

    /// The inherited object type: which kind of object inherits it (MS-DTYP 2.4.4.3).
    pub fn inherited(&self) -> Option<Uuid>
        ensures { result ≡ self.now.inherited }
    {
        self.inherited
    }

    /// The trustee.
    pub fn sid(&self) -> Sid
        ensures { result ≡ self.now.sid }
    {
        self.sid
    }

    /// The trustee, by reference.
    pub fn trustee(&self) -> &Sid
        ensures { result.now ≡ self.now.sid }
    {
        &self.sid
    }
}

// Whether only object kinds have GUIDs.
fn guids_fit(kind: AceKind, object: &Option<Uuid>, inherited: &Option<Uuid>) -> bool
    ensures { (result ≡ true) ↔ GuidsFit (is_object kind) object.now inherited.now }
{
    kind.is_object() || object.is_none() && inherited.is_none()
}
