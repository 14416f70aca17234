//! What an access check asks for.

ghost use Rattle.std.specs.Prelude.{◌≡◌, ◌<◌};
ghost use Rattle.sd_call_access.specs.Checks.{is_maximum, level_of, options_in};
ghost use Rattle.sd_text.specs.Bits.{has_bit};

use sd_call::{Argument, CallFault};

/// `struct sdtool_asker` of the header: who asks, apart from the SIDs.
#[repr(C)]
#[derive(Clone, Copy)]
pub struct Asker {
    /// The number of the kind of object: 0 for files, 1 for keys, 2 for objects of a directory service.
    pub mapping: u32,
    /// The integrity level of the token, if the options have the bit for one.
    pub level: u32,
    /// The bits of `HAS_LEVEL`, `SECURITY` and `TAKE_OWNERSHIP`.
    pub options: u32,
}

/// `struct sdtool_request` of the header.
#[repr(C)]
#[derive(Clone, Copy)]
pub struct Request {
    pub asker: Asker,
    /// The rights that are wanted.
    pub wanted: u32,
    /// The bit of `MAXIMUM`, or 0.
    pub options: u32,
}

/// The token has an integrity level.
pub const HAS_LEVEL: u32 = 1;

/// The token has SeSecurityPrivilege.
pub const SECURITY: u32 = 2;

/// The token has SeTakeOwnershipPrivilege.
pub const TAKE_OWNERSHIP: u32 = 4;

/// All that is granted is asked for as well.
pub const MAXIMUM: u32 = 1;

/// Whether an option is set.
#[inline(always)]
pub(crate) fn has_option(options: u32, option: u32) -> bool
    requires { 0 < option }
    ensures { result ≡ has_bit option options }
{
    options / option % 2 == 1
}

/// Whether each option means something.
#[inline(always)]
pub(crate) fn options_in(request: &Request) -> Result<(), CallFault>
    ensures { result ≡ options_in request.now }
{
    if request.asker.options > HAS_LEVEL + SECURITY + TAKE_OWNERSHIP || request.options > MAXIMUM {
        return Err(CallFault::Argument(Argument::Options, 0));
    }
    Ok(())
}

/// Whether all that is granted is asked for as well.
#[inline(always)]
pub(crate) fn is_maximum(request: &Request) -> bool
    ensures { result ≡ is_maximum request.now }
{
    has_option(request.options, MAXIMUM)
}

/// The integrity level of the token, if the request has one.
pub(crate) fn level_of(request: &Request) -> Option<u32>
    ensures { result ≡ level_of request.now }
{
    has_option(request.asker.options, HAS_LEVEL).then_some(request.asker.level)
}
