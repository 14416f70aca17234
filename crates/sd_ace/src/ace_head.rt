//! What an ACE without object types has before its SID.

ghost use Rattle.std.specs.Prelude.{◌≡◌, ◌/◌, ◌%◌, ◌∷◌, ◌++◌, true, MatchOption};
ghost use Rattle.byteorder.specs.Endian.{little_bytes};
ghost use Rattle.sd_ace.specs.AceHead.{IsPlainHead, plain_ace};
ghost use Rattle.sd_kinds.specs.Kinds.{is_object, kind_code};

use crate::ace_front::FRONT_SIZE;
use crate::ace_parts::AceParts;
use sd_kinds::AceKind;
use std::marker::Model;

/// Kind, flags and mask of an ACE without object types (MS-DTYP 2.4.4.2). The kind is no object kind, and the flags
/// have no 0x20.
#[derive(Clone, Copy)]
pub struct AceHead {
    kind: AceKind,
    flags: u8,
    mask: u32,
}

impl Model for AceHead {
    ghost use Rattle.sd_ace.specs.AceHead.{IsPlainHead, PlainHead};

    ghost Value = { PlainHead };

    ghost view = { λ h. record { kind = h.kind; flags = h.flags; mask = h.mask } };

    ghost invariant = { λ h. IsPlainHead (record { kind = h.kind; flags = h.flags; mask = h.mask }) };

    ghost inverse = { λ h. record { kind = h.kind; flags = h.flags; mask = h.mask } };
}

impl AceHead {
    /// That of an ACE of this kind, with flags without 0x20. None where the kind is an object kind.
    #[inline(always)]
    pub fn new(kind: AceKind, flags: u8, mask: u32) -> Option<AceHead>
        requires { flags / 0x20 % 2 ≡ 0 }
        ensures { MatchOption result (is_object kind ≡ true)
            (λ h. h ≡ record { kind = kind; flags = flags; mask = mask }) }
    {
        if kind.is_object() {
            return None;
        }
        Some(AceHead { kind, flags, mask })
    }

    /// That of an ACE whose parts stand elsewhere.
    #[inline(always)]
    pub fn of_parts(ace: &AceParts<'_>) -> Option<AceHead>
        ensures { MatchOption result (is_object ace.now.kind ≡ true) (λ h. plain_ace h ace.now.sid ≡ ace.now) }
    {
        AceHead::new(ace.kind, ace.flags, ace.mask)
    }

    /// What it does.
    #[inline(always)]
    pub fn kind(self) -> AceKind
        ensures value { result ≡ self.kind }
        ensures limits { IsPlainHead self }
    {
        self.kind
    }

    /// The flags of inheritance and audit (MS-DTYP 2.4.4.1), without 0x20.
    #[inline(always)]
    pub fn flags(self) -> u8
        ensures { result ≡ self.flags }
    {
        self.flags
    }

    /// The access mask (MS-DTYP 2.4.3).
    #[inline(always)]
    pub fn mask(self) -> u32
        ensures { result ≡ self.mask }
    {
        self.mask
    }

    /// How many bytes an ACE has before its SID.
    #[inline(always)]
    pub fn size(self) -> u16
        ensures value { result ≡ 8 }
        ensures limits { IsPlainHead self }
    {
        FRONT_SIZE as u16
    }

    /// The bytes of an ACE of this size before its SID: type, flags, size and mask.
    #[inline(always)]
    pub fn bytes(self, size: u16) -> [u8; FRONT_SIZE]
        ensures { result ≡ kind_code self.kind ∷ self.flags ∷ little_bytes 2 size ++ little_bytes 4 self.mask }
    {
        let s = size.to_le_bytes();
        let m = self.mask.to_le_bytes();
        [
            self.kind.code(),
            self.flags,
            s[0],
            s[1],
            m[0],
            m[1],
            m[2],
            m[3],
        ]
    }
}
