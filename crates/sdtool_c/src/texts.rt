//! The calls that read and write texts of parts of a descriptor.

ghost use Rattle.std.specs.Prelude.{◌≡◌};
ghost use Rattle.sd_call.specs.Outcomes.{Answers, AnswersWithin, Gives};
ghost use Rattle.sd_call_convert.specs.AceTexts.{domain_of_ace, ace_from_text, ace_to_text};
ghost use Rattle.sd_call_convert.specs.FieldTexts.{flags_in, flags_to_text, guid_from_text, guid_to_text, rights_in};
ghost use Rattle.sd_call_convert.specs.FieldTexts.{rights_to_text, told};

use sd_call::Outcome;
use sd_call_convert::{
    NumberTold, ace_from_text, ace_to_text, flags_from_text, flags_to_text, guid_from_text,
    guid_to_text, rights_from_text, rights_to_text,
};
use std::alloc::Global;

/// Gives the bytes of an ACE.
#[unsafe(no_mangle)]
pub extern "C" fn sdtool_ace_from_text(
    alloc: Global,
    text: &[u8],
    domain: &[u8],
    ace: &mut [u8],
) -> Outcome
    // A wrong domain, a text that is too long, and one that begins no ACE are told before memory is asked for.
    ensures { AnswersWithin (domain_of_ace text.now domain.now) (ace_from_text text.now domain.now)
        ace.old ace.new result }
{
    ace_from_text(alloc, text, domain, ace)
}

/// Gives the text of an ACE.
#[unsafe(no_mangle)]
pub extern "C" fn sdtool_ace_to_text(
    ace: &[u8],
    domain: &[u8],
    numeric: bool,
    text: &mut [u8],
) -> Outcome
    ensures { Answers (ace_to_text ace.now domain.now numeric) text.old text.new result }
{
    ace_to_text(ace, domain, numeric, text)
}

/// The access mask that a text means.
#[unsafe(no_mangle)]
pub extern "C" fn sdtool_rights_from_text(text: &[u8]) -> NumberTold
    ensures { result ≡ told (rights_in text.now) }
{
    rights_from_text(text)
}

/// Gives the rights of an ACE as text.
#[unsafe(no_mangle)]
pub extern "C" fn sdtool_rights_to_text(mask: u32, label: bool, text: &mut [u8]) -> Outcome
    ensures { Gives (rights_to_text mask label) text.old text.new result }
{
    rights_to_text(mask, label, text)
}

/// The flags of an ACE that a text means.
#[unsafe(no_mangle)]
pub extern "C" fn sdtool_flags_from_text(text: &[u8]) -> NumberTold
    ensures { result ≡ told (flags_in text.now) }
{
    flags_from_text(text)
}

/// Gives the flags of an ACE as text.
#[unsafe(no_mangle)]
pub extern "C" fn sdtool_flags_to_text(flags: u32, text: &mut [u8]) -> Outcome
    ensures { Answers (flags_to_text flags) text.old text.new result }
{
    flags_to_text(flags, text)
}

/// Gives the bytes of a GUID.
#[unsafe(no_mangle)]
pub extern "C" fn sdtool_guid_from_text(text: &[u8], guid: &mut [u8]) -> Outcome
    ensures { Answers (guid_from_text text.now) guid.old guid.new result }
{
    guid_from_text(text, guid)
}

/// Gives the text of a GUID.
#[unsafe(no_mangle)]
pub extern "C" fn sdtool_guid_to_text(guid: &[u8], text: &mut [u8]) -> Outcome
    ensures { Answers (guid_to_text guid.now) text.old text.new result }
{
    guid_to_text(guid, text)
}
