//! Arguments as the values that they spell.

ghost use Rattle.std.specs.Prelude.{◌≡◌};
ghost use Rattle.sd_call.specs.Arguments.{descriptor_in, domain_in, mapping_in, optional_sid_in, sid_in};

use crate::argument::Argument;
use crate::outcome::CallFault;
use sd_faults::LineFault;
use sd_parts::CAPACITY;
use sd_rights::Mapping;
use sd_sid::Sid;
use sd_view::{SdView, read};

/// The SID that an argument is.
pub fn sid_in(argument: Argument, bytes: &[u8]) -> Result<Sid, CallFault>
    ensures { result ≡ sid_in argument bytes.now }
{
    match Sid::read(bytes) {
        Some((sid, size)) if size == bytes.len() => Ok(sid),
        _ => Err(CallFault::Argument(argument, 0)),
    }
}

/// The SID that an argument is, if it is not empty.
#[tactic(auto, unfolding(crate::specs::Arguments::optional_sid_in))]
pub fn optional_sid_in(argument: Argument, bytes: &[u8]) -> Result<Option<Sid>, CallFault>
    ensures { result ≡ optional_sid_in argument bytes.now }
{
    if bytes.is_empty() {
        return Ok(None);
    }
    sid_in(argument, bytes).map(Some)
}

/// The domain that an argument names, if it is not empty.
pub fn domain_in(bytes: &[u8]) -> Result<Option<Sid>, CallFault>
    ensures { result ≡ domain_in bytes.now }
{
    optional_sid_in(Argument::Domain, bytes)
}

/// The kind of object whose generic rights are meant, by its number.
pub fn mapping_in(number: u32) -> Result<Mapping, CallFault>
    ensures { result ≡ mapping_in number }
{
    match number {
        0 => Ok(Mapping::FILE),
        1 => Ok(Mapping::KEY),
        2 => Ok(Mapping::DS),
        _ => Err(CallFault::Argument(Argument::Mapping, 0)),
    }
}

/// The descriptor that some bytes show.
#[tactic(auto, unfolding(crate::specs::Arguments::descriptor_in))]
pub fn descriptor_in(bytes: &[u8]) -> Result<SdView<'_>, CallFault>
    ensures { result ≡ descriptor_in bytes.now }
{
    if bytes.len() > CAPACITY {
        return Err(CallFault::Line(LineFault::TooLong));
    }
    read(bytes).map_err(|fault| CallFault::Line(LineFault::Sd(fault)))
}
