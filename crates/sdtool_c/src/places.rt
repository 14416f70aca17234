//! The calls that say where a fault is, and put it in words.

ghost use Rattle.std.specs.Prelude.{◌≡◌};
ghost use Rattle.sd_call.specs.Outcomes.{Answers};
ghost use Rattle.sd_call_convert.specs.Described.{described};
ghost use Rattle.sd_call_convert.specs.PlaceTold.{place_told, sddl_place_told};

use sd_call::Outcome;
use sd_call_convert::{PlaceTold, describe, place_told, sddl_place_told};

/// Says where the first fault of a descriptor is.
#[unsafe(no_mangle)]
pub extern "C" fn sdtool_place(bytes: &[u8]) -> PlaceTold
    ensures { result ≡ place_told bytes.now }
{
    place_told(bytes)
}

/// Says where the first fault of a text of SDDL is.
#[unsafe(no_mangle)]
pub extern "C" fn sdtool_sddl_place(text: &[u8], domain: &[u8]) -> PlaceTold
    ensures { result ≡ sddl_place_told text.now domain.now }
{
    sddl_place_told(text, domain)
}

/// Gives a fault and its place as a sentence.
#[unsafe(no_mangle)]
pub extern "C" fn sdtool_describe(outcome: &Outcome, place: &PlaceTold, text: &mut [u8]) -> Outcome
    ensures { Answers (described outcome.now place.now) text.old text.new result }
{
    describe(outcome, place, text)
}
