//! Places of faults.

use sd_parts::Part;

/// A field of an ACE or of a part.
#[derive(Clone, Copy, Debug, PartialEq, Eq)]
pub enum Field {
    /// The type of an ACE.
    Kind,
    /// The flags of an ACE, or of an ACL before its ACEs.
    Flags,
    /// The access mask.
    Rights,
    ObjectType,
    InheritedObjectType,
    /// The SID of an ACE, or an owner or a group.
    Sid,
    /// The size of an ACE.
    Size,
}

/// Some bytes of an input that follow each other.
#[derive(Clone, Copy, Debug, PartialEq, Eq)]
pub struct ByteRange {
    /// The first of them, from 0.
    pub offset: usize,
    /// How many there are.
    pub size: usize,
}

/// Where a fault is.
#[derive(Clone, Copy, Debug, PartialEq, Eq)]
pub struct FaultPlace {
    /// None if it is outside of all parts.
    pub part: Option<Part>,
    /// The number of the ACE in its ACL, from 0.
    pub ace: Option<u32>,
    pub field: Option<Field>,
    pub range: ByteRange,
}
