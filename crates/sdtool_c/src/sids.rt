//! The calls that read and write SIDs.

ghost use Rattle.std.specs.Prelude.{◌≡◌};
ghost use Rattle.sd_call.specs.Outcomes.{Answers};
ghost use Rattle.sd_call_convert.specs.Sids.{sid_from_text, sid_size_at, sid_to_text};

use sd_call::Outcome;
use sd_call_convert::{sid_from_text, sid_size, sid_to_text};

/// Gives the SID that a text names, in binary.
#[unsafe(no_mangle)]
pub extern "C" fn sdtool_sid_from_text(text: &[u8], domain: &[u8], sid: &mut [u8]) -> Outcome
    ensures { Answers (sid_from_text text.now domain.now) sid.old sid.new result }
{
    sid_from_text(text, domain, sid)
}

/// Gives the text of a SID: its alias, or its numbers.
#[unsafe(no_mangle)]
pub extern "C" fn sdtool_sid_to_text(
    sid: &[u8],
    domain: &[u8],
    numeric: bool,
    text: &mut [u8],
) -> Outcome
    ensures { Answers (sid_to_text sid.now domain.now numeric) text.old text.new result }
{
    sid_to_text(sid, domain, numeric, text)
}

/// The size of the SID at the front of some bytes, and 0 where they begin with none.
#[unsafe(no_mangle)]
pub extern "C" fn sdtool_sid_size(bytes: &[u8]) -> usize
    ensures { result ≡ sid_size_at bytes.now }
{
    sid_size(bytes)
}
