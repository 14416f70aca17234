//! Numbers of bytes that may end before them: bytes that are missing are 0.

ghost use Rattle.std.specs.Prelude.{◌≡◌, ◌<◌, ◌+◌, ◌^◌, drop, slice_index};
ghost use Rattle.sd_acl_view.specs.Bytes.{u16_at as u16_of, u32_at as u32_of};

/// The byte at an index.
pub(crate) fn byte_at(bytes: &[u8], index: usize) -> u8
    ensures { result ≡ slice_index bytes.now index }
{
    if index < bytes.len() { bytes[index] } else { 0 }
}

/// The bytes from an offset on.
pub(crate) fn behind(bytes: &[u8], offset: usize) -> &[u8]
    ensures { result.now ≡ drop offset bytes.now }
{
    &bytes[offset.min(bytes.len())..]
}

/// The number of two bytes, low byte first.
#[tactic(auto, unfolding(sd_acl_view::specs::Bytes::u16_at))]
pub(crate) fn u16_at(bytes: &[u8], offset: usize) -> u16
    ensures { result ≡ u16_of offset bytes.now }
{
    let number = behind(bytes, offset);
    u16::from(byte_at(number, 0)) + 256 * u16::from(byte_at(number, 1))
}

/// The number of four bytes, low byte first.
#[tactic(auto, unfolding(sd_acl_view::specs::Bytes::u32_at))]
pub(crate) fn u32_at(bytes: &[u8], offset: usize) -> u32
    ensures { result ≡ u32_of offset bytes.now }
{
    let number = behind(bytes, offset);
    let low = u32::from(byte_at(number, 0)) + 256 * u32::from(byte_at(number, 1));
    let high = u32::from(byte_at(number, 2)) + 256 * u32::from(byte_at(number, 3));
    low + 65_536 * high
}
