//! Why bytes show no ACL.

/// Why bytes begin with no ACL or no ACE: the first condition that holds, ACE by ACE. The numbers are those of
/// `SdFault`.
#[derive(Clone, Copy, Debug, PartialEq, Eq)]
pub enum AclFault {
    /// 10: the ACL's revision is neither 2 nor 4, its size is below 8, or it passes the bytes.
    Acl,
    /// 11: fewer than 16 bytes of the ACL are left for an ACE, its size is below 16, no multiple of 4 or
    /// more than what is left, or it ends before the first 8 bytes of its SID.
    AceSize,
    /// 12: an ACE of another type.
    AceType,
    /// 13: an ACE with flag 0x20.
    AceFlags,
    /// 9: there is no SID: another revision than 1, a count over 15, or the ACE ends too soon.
    Sid,
}
