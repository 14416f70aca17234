//! Bytes of the caller.

/// Some bytes of the caller: `struct sdtool_bytes` of the header.
#[repr(C)]
#[derive(Clone, Copy)]
pub struct Bytes<'a> {
    pub bytes: &'a [u8],
}
