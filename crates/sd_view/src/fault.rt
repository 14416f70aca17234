//! Why bytes show no descriptor.

ghost use Rattle.std.specs.Prelude.{◌≡◌};
ghost use Rattle.sd_view.specs.Reading.{fault_in};

use sd_acl_view::AclFault;
use sd_parts::Part;

/// Why bytes show no descriptor: the first condition that holds. 5, 6 and 7 are looked at first; then 8
/// to 13, part by part in the order of `Part`, and within an ACL ACE by ACE; then 14.
#[derive(Clone, Copy, Debug, PartialEq, Eq)]
pub enum SdFault {
    /// 5: fewer than 20 bytes.
    Short,
    /// 6: the header's revision is not 1.
    Revision,
    /// 7: bit 0x8000 of the control word is clear.
    NotSelfRelative,
    /// 8: the part's offset is below 20, or less than 8 bytes follow it.
    Offset(Part),
    /// 9: there is no SID: another revision than 1, a count over 15, or the bytes or the ACE end
    /// too soon.
    Sid(Part),
    /// 10: the ACL's revision is neither 2 nor 4, its size is below 8, or it passes the bytes.
    Acl(Part),
    /// 11: fewer than 16 bytes of the ACL are left for an ACE, its size is below 16, no multiple of 4 or
    /// more than what is left, or it ends before the first 8 bytes of its SID.
    AceSize(Part),
    /// 12: an ACE of another type.
    AceType(Part),
    /// 13: an ACE with flag 0x20.
    AceFlags(Part),
    /// 14: the two parts share a byte.
    Overlap(Part, Part),
}

/// An ACL's fault, in a part.
pub fn fault_in(part: Part, fault: AclFault) -> SdFault
    ensures { result ≡ fault_in part fault }
{
    match fault {
        AclFault::Acl => SdFault::Acl(part),
        AclFault::AceSize => SdFault::AceSize(part),
        AclFault::AceType => SdFault::AceType(part),
        AclFault::AceFlags => SdFault::AceFlags(part),
        AclFault::Sid => SdFault::Sid(part),
    }
}
