//! Access rights by name (MS-DTYP 2.4.3), each as a mask of one bit.

ghost use Rattle.std.specs.Prelude.{◌≡◌, ◌<◌};
ghost use Rattle.sd_text.specs.Bits.{has_bit};

/// To delete the object.
pub const DELETE: u32 = 0x1_0000;

/// To read its descriptor, but for the SACL.
pub const READ_CONTROL: u32 = 0x2_0000;

/// To change its DACL.
pub const WRITE_DAC: u32 = 0x4_0000;

/// To change its owner.
pub const WRITE_OWNER: u32 = 0x8_0000;

/// To wait for it.
pub const SYNCHRONIZE: u32 = 0x10_0000;

/// To read and change the SACL. It is the last right.
pub const ACCESS_SYSTEM_SECURITY: u32 = 0x100_0000;

/// It asks for rights and is none.
pub const MAXIMUM_ALLOWED: u32 = 0x200_0000;

/// No right either.
pub const FIRST_RESERVED: u32 = 0x400_0000;

/// No right either.
pub const SECOND_RESERVED: u32 = 0x800_0000;

/// All that its kind knows. This and the next three are the generic rights, which mean others.
pub const GENERIC_ALL: u32 = 0x1000_0000;

/// To run it, as its kind means that.
pub const GENERIC_EXECUTE: u32 = 0x2000_0000;

/// To change it, as its kind means that.
pub const GENERIC_WRITE: u32 = 0x4000_0000;

/// To read it, as its kind means that.
pub const GENERIC_READ: u32 = 0x8000_0000;

/// All four generic rights.
pub const GENERIC_RIGHTS: u32 = 0xf000_0000;

/// The rights below ACCESS_SYSTEM_SECURITY.
pub const BELOW_SYSTEM_SECURITY: u32 = 0xff_ffff;

/// Each right, 0 to 24.
pub const ALL_RIGHTS: u32 = 0x1ff_ffff;

/// Whether a mask has a right, whose own mask is one bit.
///
/// ```
/// assert!(rt; has_right(0x1f01ff, WRITE_DAC));
/// assert!(rt; !has_right(0x120089, WRITE_DAC));
/// ```
#[inline(always)]
pub fn has_right(mask: u32, right: u32) -> bool
    requires { 0 < right }
    ensures { result ≡ has_bit right mask }
{
    mask / right % 2 == 1
}
