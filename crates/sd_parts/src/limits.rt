//! The sizes of the parts of a descriptor, and how large they may be.

/// The bytes of a descriptor's header (MS-DTYP 2.4.6): revision, resource manager byte, control word and four offsets.
pub const HEADER_SIZE: usize = 20;

/// The bytes of a SID without sub-authorities (MS-DTYP 2.4.2.2): revision, count and identifier authority.
pub const SID_HEADER_SIZE: usize = 8;

/// The bytes of the largest SID, which has 15 sub-authorities.
pub const MOST_SID_SIZE: usize = 68;

/// The bytes of an ACL without ACEs (MS-DTYP 2.4.5): revision, size and count.
pub const ACL_HEADER_SIZE: usize = 8;

/// The most bytes of an ACL, since its size has 16 bits.
pub const MOST_ACL_SIZE: usize = 65_535;

/// The revisions of ACLs (MS-DTYP 2.4.5): the second one may have object ACEs.
pub const ACL_REVISION: u8 = 2;

pub const ACL_REVISION_DS: u8 = 4;

/// The bytes of a descriptor that is held at most, 131,226: the header, two SIDs and two ACLs.
pub const CAPACITY: usize = HEADER_SIZE + 2 * MOST_SID_SIZE + 2 * MOST_ACL_SIZE;
