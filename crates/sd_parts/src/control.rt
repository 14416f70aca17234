//! The control word of a descriptor (MS-DTYP 2.4.6).

ghost use Rattle.std.specs.Prelude.{◌≡◌, ◌<◌, ◌+◌, ◌^◌, ℕ, false};
ghost use Rattle.sd_text.specs.Bits.{bit_of, has_bit};
ghost use Rattle.sd_parts.specs.Control.{AreListedBits, acl_flags, all_flags, bit_if, flag_bits, no_flags, other_acl};
ghost use Rattle.sd_parts.specs.Control.{control_of};

use crate::part::Which;

/// OD: the owner came from a default.
pub const OWNER_DEFAULTED: u16 = 0x1;

/// GD: the primary group came from a default.
pub const GROUP_DEFAULTED: u16 = 0x2;

/// DP: there is a DACL, which may be null.
pub const DACL_PRESENT: u16 = 0x4;

/// DD: the DACL came from a default.
pub const DACL_DEFAULTED: u16 = 0x8;

/// SP: there is a SACL, which may be null.
pub const SACL_PRESENT: u16 = 0x10;

/// SD: the SACL came from a default.
pub const SACL_DEFAULTED: u16 = 0x20;

/// DC: automatic inheritance is required of the DACL.
pub const DACL_AUTO_INHERIT_REQUIRED: u16 = 0x100;

/// SC: automatic inheritance is required of the SACL.
pub const SACL_AUTO_INHERIT_REQUIRED: u16 = 0x200;

/// DI: the DACL was made by automatic inheritance.
pub const DACL_AUTO_INHERITED: u16 = 0x400;

/// SI: the SACL was made by automatic inheritance.
pub const SACL_AUTO_INHERITED: u16 = 0x800;

/// PD: the DACL is protected from inheritance.
pub const DACL_PROTECTED: u16 = 0x1000;

/// PS: the SACL is protected from inheritance.
pub const SACL_PROTECTED: u16 = 0x2000;

/// RM: the resource manager byte counts.
pub const RM_CONTROL_VALID: u16 = 0x4000;

/// SR: the descriptor is self-relative.
pub const SELF_RELATIVE: u16 = 0x8000;

/// A bit of the control word, and its name of two letters.
#[derive(Clone, Copy)]
pub struct ControlBit {
    pub first: u8,
    pub second: u8,
    pub bit: u16,
}

impl ControlBit {
    /// Whether it is set in a control word.
    ///
    /// ```
    /// let set = CONTROL_BITS.iter().filter(|bit| bit.is_set(0x8014)).count();
    /// assert!(rt; set == 3);
    /// ```
    pub fn is_set(&self, control: u16) -> bool
        requires { 0 < self.now.bit }
        ensures value { result ≡ has_bit self.now.bit control }
        // The bits that have names are those of the standard, each with its letters.
        ensures table { AreListedBits CONTROL_BITS }
    {
        has_bit(control, self.bit)
    }
}

// So that a row is one line.
macro_rules! bit {
    ($first:literal, $second:literal, $bit:ident) => {
        ControlBit {
            first: $first,
            second: $second,
            bit: $bit,
        }
    };
}

/// The bits of the control word that have names, in rising order. 0x40 and 0x80 are kept and have none.
pub const CONTROL_BITS: [ControlBit; 14] = [
    bit!(b'O', b'D', OWNER_DEFAULTED),
    bit!(b'G', b'D', GROUP_DEFAULTED),
    bit!(b'D', b'P', DACL_PRESENT),
    bit!(b'D', b'D', DACL_DEFAULTED),
    bit!(b'S', b'P', SACL_PRESENT),
    bit!(b'S', b'D', SACL_DEFAULTED),
    bit!(b'D', b'C', DACL_AUTO_INHERIT_REQUIRED),
    bit!(b'S', b'C', SACL_AUTO_INHERIT_REQUIRED),
    bit!(b'D', b'I', DACL_AUTO_INHERITED),
    bit!(b'S', b'I', SACL_AUTO_INHERITED),
    bit!(b'P', b'D', DACL_PROTECTED),
    bit!(b'P', b'S', SACL_PROTECTED),
    bit!(b'R', b'M', RM_CONTROL_VALID),
    bit!(b'S', b'R', SELF_RELATIVE),
];

/// The flags of one of the two ACLs, which are in the control word (MS-DTYP 2.4.6): P, AR and AI in SDDL.
#[derive(Clone, Copy, Debug, PartialEq, Eq)]
pub struct AclFlags {
    pub protected: bool,
    pub auto_inherit_required: bool,
    pub auto_inherited: bool,
}

impl AclFlags {
    /// The flags of an ACL in a control word.
    ///
    /// ```
    /// assert!(rt; AclFlags::of(Which::Dacl, 0x9004).protected);
    /// assert!(rt; !AclFlags::of(Which::Sacl, 0x9004).protected);
    /// ```
    pub fn of(which: Which, control: u16) -> AclFlags
        ensures { result ≡ acl_flags which control }
    {
        match which {
            Which::Sacl => AclFlags {
                protected: has_bit(control, SACL_PROTECTED),
                auto_inherit_required: has_bit(control, SACL_AUTO_INHERIT_REQUIRED),
                auto_inherited: has_bit(control, SACL_AUTO_INHERITED),
            },
            Which::Dacl => AclFlags {
                protected: has_bit(control, DACL_PROTECTED),
                auto_inherit_required: has_bit(control, DACL_AUTO_INHERIT_REQUIRED),
                auto_inherited: has_bit(control, DACL_AUTO_INHERITED),
            },
        }
    }

    /// The bits of the control word that the flags of an ACL are.
    pub fn bits(self, which: Which) -> u16
        ensures value { result ≡ flag_bits which self }
        // Beside any other bits of a control word they are read back,
        ensures back { (others : ℕ) → acl_flags which others ≡ no_flags
            → acl_flags which (others + flag_bits which self) ≡ self }
        // the flags of the other ACL are as they were,
        ensures apart { (others : ℕ) → acl_flags which others ≡ no_flags
            → acl_flags (other_acl which) (others + flag_bits which self) ≡ acl_flags (other_acl which) others }
        // and so is each bit that is no flag of this ACL.
        ensures same { (others bit : ℕ) → acl_flags which others ≡ no_flags
            → has_bit (2 ^ bit) (flag_bits which all_flags) ≡ false
            → has_bit (2 ^ bit) (others + flag_bits which self) ≡ has_bit (2 ^ bit) others }
    {
        match which {
            Which::Sacl => {
                bit_if(self.protected, SACL_PROTECTED)
                    + bit_if(self.auto_inherit_required, SACL_AUTO_INHERIT_REQUIRED)
                    + bit_if(self.auto_inherited, SACL_AUTO_INHERITED)
            }
            Which::Dacl => {
                bit_if(self.protected, DACL_PROTECTED)
                    + bit_if(self.auto_inherit_required, DACL_AUTO_INHERIT_REQUIRED)
                    + bit_if(self.auto_inherited, DACL_AUTO_INHERITED)
            }
        }
    }
}

/// Whether a control word has a bit, given by its mask (MS-DTYP 2.4.6).
#[inline(always)]
pub fn has_bit(control: u16, bit: u16) -> bool
    requires { 0 < bit }
    ensures { result ≡ has_bit bit control }
{
    control / bit % 2 == 1
}

fn bit_if(present: bool, bit: u16) -> u16
    ensures { result ≡ bit_if present bit }
{
    if present { bit } else { 0 }
}

// A bit of a word, by its mask.
#[inline(always)]
fn bit_of(bit: u16, word: u16) -> u16
    requires { 0 < bit }
    ensures { result ≡ bit_of bit word }
{
    word / bit % 2 * bit
}

/// The control word: the flags without SR, SP and DP, and then SR and the present bits of the ACLs that are there.
pub fn control_of(flags: u16, sacl: bool, dacl: bool) -> u16
    ensures { result ≡ control_of flags sacl dacl }
{
    let other = flags
        - bit_of(SELF_RELATIVE, flags)
        - bit_of(SACL_PRESENT, flags)
        - bit_of(DACL_PRESENT, flags);
    other + SELF_RELATIVE + bit_if(sacl, SACL_PRESENT) + bit_if(dacl, DACL_PRESENT)
}
