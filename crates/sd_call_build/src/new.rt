//! What a descriptor is built from.

/// An ACE of an ACL that is built: `struct sdtool_new_ace` of the header.
#[repr(C)]
#[derive(Clone, Copy)]
pub struct NewAce<'a> {
    /// The SID of the trustee in binary.
    pub sid: &'a [u8],
    /// The GUID of the object type, or nothing.
    pub object_type: &'a [u8],
    /// The GUID of the inherited object type, or nothing.
    pub inherited_object_type: &'a [u8],
    /// The access mask.
    pub mask: u32,
    /// The type byte (MS-DTYP 2.4.4.1).
    pub kind: u8,
    /// The flags of inheritance and audit, without 0x20.
    pub flags: u8,
}

/// The state of an ACL that is a list.
pub const LIST: u32 = 2;

/// An ACL that is built: `struct sdtool_new_acl` of the header.
#[repr(C)]
#[derive(Clone, Copy)]
pub struct NewAcl<'a> {
    pub aces: &'a [NewAce<'a>],
    /// 0 if it is absent, 1 if it is null, and 2 if it is a list.
    pub state: u32,
}

/// What a descriptor is built from: `struct sdtool_new_descriptor` of the header.
#[repr(C)]
#[derive(Clone, Copy)]
pub struct NewDescriptor<'a> {
    /// The SID of the owner in binary, or nothing.
    pub owner: &'a [u8],
    /// The SID of the primary group in binary, or nothing.
    pub group: &'a [u8],
    pub sacl: NewAcl<'a>,
    pub dacl: NewAcl<'a>,
    /// The control word, of which the bits 0x8000, 0x10 and 0x4 don't count.
    pub control: u16,
    pub resource_manager: u8,
}
