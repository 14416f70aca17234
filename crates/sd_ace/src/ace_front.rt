//! What stands in an ACE before its GUIDs and its SID, as it is written.

ghost use Rattle.std.specs.Prelude.{◌≡◌, ◌+◌, [], ◌∷◌, ◌++◌, length, take, if◌then◌else◌};
ghost use Rattle.byteorder.specs.Endian.{little_bytes};
ghost use Rattle.sd_kinds.specs.Kinds.{is_object, kind_code};
ghost use Rattle.sd_ace.specs.AceLayout.{ace_front};

use crate::ace::Ace;
use crate::ace_parts::AceParts;
use byteorder::{ByteOrder, LittleEndian};
use sd_kinds::AceKind;
use std::marker::Model;

/// The bytes of an ACE before its SID, or before the object flags: type, flags, size and mask.
pub const FRONT_SIZE: usize = 8;

/// The bytes before the GUIDs in object kinds: the object flags are there too.
pub const OBJECT_FRONT_SIZE: usize = 12;

/// Type, flags, size and mask of an ACE, and in object kinds the object flags (MS-DTYP 2.4.4): the first of its cells.
#[derive(Drop)]
pub struct AceFront {
    cells: [u8; OBJECT_FRONT_SIZE],
    len: usize,
}

impl Model for AceFront {
    ghost use Rattle.std.specs.Prelude.{◌≤◌, ℕ, List, take};

    ghost Value = { List ℕ };

    ghost view = { λ f. take f.len f.cells };

    ghost invariant = { λ f. f.len ≤ 12 };
}

impl AceFront {
    /// That of an ACE.
    #[inline(always)]
    pub fn of_ace(ace: &Ace) -> AceFront
        ensures { result ≡ ace_front ace.now }
    {
        AceFront::of_parts(&ace.parts())
    }

    /// That of an ACE whose parts stand elsewhere.
    #[inline(always)]
    pub fn of_parts(ace: &AceParts<'_>) -> AceFront
        ensures { result ≡ ace_front ace.now }
    {
        let present = object_flags(ace.object().is_some(), ace.inherited().is_some());
        AceFront::of_fields(ace.kind(), ace.flags(), ace.size(), ace.mask(), present)
    }

    /// That of an ACE of this kind, with these flags, this size and mask, and these object flags where its kind has
    /// them.
    #[inline(always)]
    pub fn of_fields(kind: AceKind, flags: u8, size: u16, mask: u32, present: u32) -> AceFront
        ensures { result ≡ kind_code kind ∷ flags ∷ little_bytes 2 size
            ++ (little_bytes 4 mask ++ (if is_object kind then little_bytes 4 present else [])) }
    {
        let mut cells = [0; OBJECT_FRONT_SIZE];
        cells[0] = kind.code();
        cells[1] = flags;
        LittleEndian::write_u16(&mut cells[2..], size);
        LittleEndian::write_u32(&mut cells[4..], mask);
        LittleEndian::write_u32(&mut cells[8..], present);
        let len = if kind.is_object() {
            OBJECT_FRONT_SIZE
        } else {
            FRONT_SIZE
        };
        AceFront { cells, len }
    }

    /// How many bytes there are.
    #[inline(always)]
    pub fn len(&self) -> usize
        ensures { result ≡ length self.now }
    {
        self.len
    }

    /// As many cells as the longest of these has, so that they can be copied at once. The bytes are the first of them.
    #[inline(always)]
    pub fn cells(&self) -> &[u8; OBJECT_FRONT_SIZE]
        ensures { take (length self.now) result.now ≡ self.now }
    {
        &self.cells
    }

    /// The bytes.
    pub fn as_slice(&self) -> &[u8]
        ensures { result.now ≡ self.now }
    {
        &self.cells[..self.len]
    }
}

/// Which GUIDs are present (MS-DTYP 2.4.4.3), as an ACE of an object kind says it.
#[inline(always)]
pub fn object_flags(object: bool, inherited: bool) -> u32
    ensures { result ≡ (if object then 1 else 0) + (if inherited then 2 else 0) }
{
    u32::from(object) + 2 * u32::from(inherited)
}
