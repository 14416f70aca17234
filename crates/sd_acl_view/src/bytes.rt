//! Numbers at offsets, low byte first.

ghost use Rattle.std.specs.Prelude.{◌≡◌, ◌≤◌, ◌+◌, length};
ghost use Rattle.sd_acl_view.specs.Bytes.{u16_at as u16_of, u32_at as u32_of};

use byteorder::{ByteOrder, LittleEndian};

/// The number of two bytes.
#[tactic(auto, unfolding(crate::specs::Bytes::u16_at))]
pub fn u16_at(bytes: &[u8], offset: usize) -> u16
    requires { offset + 2 ≤ length bytes.now }
    ensures { result ≡ u16_of offset bytes.now }
{
    LittleEndian::read_u16(&bytes[offset..])
}

/// The number of four bytes.
#[tactic(auto, unfolding(crate::specs::Bytes::u32_at))]
pub fn u32_at(bytes: &[u8], offset: usize) -> u32
    requires { offset + 4 ≤ length bytes.now }
    ensures { result ≡ u32_of offset bytes.now }
{
    LittleEndian::read_u32(&bytes[offset..])
}
