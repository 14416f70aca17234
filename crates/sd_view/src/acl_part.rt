//! What a descriptor has of an ACL.

use sd_acl_view::AclView;

/// An ACL of a descriptor (MS-DTYP 2.4.6).
#[derive(Drop)]
pub enum AclPart<'a> {
    /// Its present bit is clear.
    Absent,
    /// It is present with the offset 0.
    Null,
    List(AclView<'a>),
}
