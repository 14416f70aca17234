//! The calls that convert descriptors.

ghost use Rattle.std.specs.Prelude.{◌≡◌, codes};
ghost use Rattle.sd_call.specs.Outcomes.{Answers, AnswersWithin, Gives};
ghost use Rattle.sd_call_convert.specs.Conversions.{domain_for, explained, from_sddl, normalized, to_sddl};

use sd_call::Outcome;
use sd_call_convert::{explain_text, from_sddl, normalize, to_sddl, version};
use std::alloc::Global;

/// Gives the library's version.
#[unsafe(no_mangle)]
pub extern "C" fn sdtool_version(text: &mut [u8]) -> Outcome
    ensures { Gives (codes "0.1.0") text.old text.new result }
{
    version(text)
}

/// The library's version as a number.
#[unsafe(no_mangle)]
pub extern "C" fn sdtool_version_number() -> u32
    ensures { result ≡ 100 }
{
    100
}

/// Gives a descriptor as SDDL.
#[unsafe(no_mangle)]
pub extern "C" fn sdtool_to_sddl(
    bytes: &[u8],
    domain: &[u8],
    numeric: bool,
    text: &mut [u8],
) -> Outcome
    ensures { Answers (to_sddl bytes.now domain.now numeric) text.old text.new result }
{
    to_sddl(bytes, domain, numeric, text)
}

/// Gives the explanation of a descriptor.
#[unsafe(no_mangle)]
pub extern "C" fn sdtool_explain(
    bytes: &[u8],
    domain: &[u8],
    numeric: bool,
    text: &mut [u8],
) -> Outcome
    ensures { Answers (explained bytes.now domain.now numeric) text.old text.new result }
{
    explain_text(bytes, domain, numeric, text)
}

/// Gives the one layout of a descriptor.
#[unsafe(no_mangle)]
pub extern "C" fn sdtool_normalize(bytes: &[u8], output: &mut [u8]) -> Outcome
    ensures { Answers (normalized bytes.now) output.old output.new result }
{
    normalize(bytes, output)
}

/// Gives the bytes of the descriptor that a text of SDDL means.
#[unsafe(no_mangle)]
pub extern "C" fn sdtool_from_sddl(
    alloc: Global,
    text: &[u8],
    domain: &[u8],
    output: &mut [u8],
) -> Outcome
    // A wrong domain and a text that is too long are told before memory is asked for.
    ensures { AnswersWithin (domain_for text.now domain.now) (from_sddl text.now domain.now)
        output.old output.new result }
{
    from_sddl(alloc, text, domain, output)
}
