//! The header of a descriptor (MS-DTYP 2.4.6).

ghost use Rattle.std.specs.Prelude.{◌≡◌};
ghost use Rattle.sd_parts.specs.Header.{header_bytes};

use crate::limits::HEADER_SIZE;
use crate::part::Parts;

/// Where the header has the offset of the owner.
pub const OWNER_OFFSET: usize = 4;

/// Where the header has the offset of the group.
pub const GROUP_OFFSET: usize = 8;

/// Where the header has the offset of the SACL.
pub const SACL_OFFSET: usize = 12;

/// Where the header has the offset of the DACL.
pub const DACL_OFFSET: usize = 16;

/// A header with this resource manager byte, this control word and these offsets of the parts.
#[tactic(auto, unfolding(crate::specs::Header::header_bytes))]
pub fn header(rm: u8, control: u16, offsets: Parts<u32>) -> [u8; HEADER_SIZE]
    ensures { result ≡ header_bytes rm control offsets }
{
    let c = control.to_le_bytes();
    let o = offsets.owner.to_le_bytes();
    let g = offsets.group.to_le_bytes();
    let s = offsets.sacl.to_le_bytes();
    let d = offsets.dacl.to_le_bytes();
    [
        1, rm, c[0], c[1], o[0], o[1], o[2], o[3], g[0], g[1], g[2], g[3], s[0], s[1], s[2], s[3],
        d[0], d[1], d[2], d[3],
    ]
}
