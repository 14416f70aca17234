//! The flags of inheritance (MS-DTYP 2.4.4.1).

ghost use Rattle.std.specs.Prelude.{◌≡◌, ◌<◌, ◌≤◌, ◌+◌, ◌/◌, ◌%◌, false};
ghost use Rattle.sd_text.specs.Bits.{has_bit};
ghost use Rattle.sd_kinds.specs.declared.flags.TheConstants.{INHERIT_ONLY};
ghost use Rattle.sd_inherit.specs.Copies.{audit_flags, copied_flags, onward_flags};

use sd_kinds::{FAILED_ACCESS, INHERIT_ONLY, INHERITED, ONWARD, SUCCESSFUL_ACCESS};

/// The flags that say which access is audited.
const AUDIT: u8 = SUCCESSFUL_ACCESS | FAILED_ACCESS;

/// The flags with which an ACE goes on from a container.
pub fn onward_flags(flags: u8) -> u8
    ensures value { result ≡ onward_flags flags }
    ensures most { result ≤ 3 }
{
    flags & ONWARD
}

/// The flags that say which access is audited, and no other.
pub fn audit_flags(flags: u8) -> u8
    ensures value { result ≡ audit_flags flags }
    ensures clear { result / 0x20 % 2 ≡ 0 }
{
    flags & AUDIT
}

/// The flags, and that the ACE is for what is made below alone.
pub fn inherit_only_flags(flags: u8) -> u8
    requires { has_bit INHERIT_ONLY flags ≡ false }
    ensures value { result ≡ flags + INHERIT_ONLY }
    ensures clear { flags / 0x20 % 2 ≡ 0 → result / 0x20 % 2 ≡ 0 }
{
    flags + INHERIT_ONLY
}

/// The flags of a copy: the audit flags as they were, that it is inherited, and those that are added.
pub fn copied_flags(flags: u8, added: u8) -> u8
    requires { added < 16 }
    ensures { result ≡ copied_flags flags added }
{
    audit_flags(flags) + INHERITED + added
}
