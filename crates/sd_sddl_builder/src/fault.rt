//! Why a line is no descriptor.

use sd_parts::Which;
use sd_sid::SidFault;

/// Why a line is no descriptor: the first condition that holds. 20 and 21 are looked at first; then 22 to 29, field by
/// field from the left; then 30.
#[derive(Clone, Copy, Debug, PartialEq, Eq)]
pub enum SddlFault {
    /// 20: the line is not in the shape of SDDL: its parentheses, its heads, or the number of fields of an ACE.
    Shape,
    /// 21: two parts have the same letter.
    PartTwice,
    /// 22 to 25: an owner, a group or the SID of an ACE does not read.
    Sid(SidFault),
    /// 26: the flags of an ACL or of an ACE do not read.
    Flags,
    /// 27: an access mask does not read.
    Rights,
    /// 28: an object type is no GUID, or the kind of ACE has none.
    Guid,
    /// 29: there is no such kind of ACE.
    Kind,
    /// 30: the ACL would pass 65,535 bytes.
    AclTooLarge(Which),
}
