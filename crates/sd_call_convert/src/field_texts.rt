//! The calls that read and write GUIDs, and the rights and the flags of an ACE.

ghost use Rattle.std.specs.Prelude.{◌≡◌};
ghost use Rattle.sd_call.specs.Outcomes.{Answers, Gives};
ghost use Rattle.sd_call_convert.specs.FieldTexts.{are_flags, flags_in, flags_to_text, guid_from_text, guid_in};
ghost use Rattle.sd_call_convert.specs.FieldTexts.{guid_to_text, kind_if, of_text, rights_in, rights_to_text, told};

use crate::part_text::{PartText, give_part};
use sd_ace::{UNUSED_FLAG, guid_bytes, guid_read};
use sd_call::{Argument, CallFault, Outcome, done, failed, give};
use sd_faults::LineFault;
use sd_kinds::AceKind;
use sd_sddl_builder::SddlFault;
use uuid::Uuid;

/// What the text of a number means: `struct sdtool_number` of the header.
#[repr(C)]
#[derive(Clone, Copy)]
pub struct NumberTold {
    /// Its length is 0.
    pub outcome: Outcome,
    /// 0 after a fault.
    pub number: u32,
}

/// The access mask that rights mean.
pub fn rights_from_text(text: &[u8]) -> NumberTold
    ensures { result ≡ told (rights_in text.now) }
{
    told(rights_in(text))
}

fn rights_in(text: &[u8]) -> Result<u32, CallFault>
    ensures { result ≡ rights_in text.now }
{
    sd_rights::rights_from_text(text).ok_or(of_text(SddlFault::Rights))
}

/// The flags of an ACE that a text means.
pub fn flags_from_text(text: &[u8]) -> NumberTold
    ensures { result ≡ told (flags_in text.now) }
{
    told(flags_in(text))
}

fn flags_in(text: &[u8]) -> Result<u32, CallFault>
    ensures { result ≡ flags_in text.now }
{
    match sd_kinds::flags_from_text(text) {
        Some(flags) => Ok(u32::from(flags)),
        None => Err(of_text(SddlFault::Flags)),
    }
}

fn told(read: Result<u32, CallFault>) -> NumberTold
    ensures { result ≡ told read }
{
    match read {
        Ok(number) => NumberTold {
            outcome: done(0),
            number,
        },
        Err(fault) => NumberTold {
            outcome: failed(fault),
            number: 0,
        },
    }
}

/// A fault of a text, as one of a call.
pub(crate) fn of_text(fault: SddlFault) -> CallFault
    ensures { result ≡ of_text fault }
{
    CallFault::Line(LineFault::Sddl(fault))
}

/// Gives the rights of an ACE: of a label, or of any other kind.
pub fn rights_to_text(mask: u32, label: bool, text: &mut [u8]) -> Outcome
    ensures { Gives (rights_to_text mask label) text.old text.new result }
{
    give_part(&PartText::Rights(kind_if(label), mask), text)
}

fn kind_if(label: bool) -> AceKind
    ensures { result ≡ kind_if label }
{
    if label {
        AceKind::Label
    } else {
        AceKind::Allow
    }
}

/// Gives the flags of an ACE.
pub fn flags_to_text(flags: u32, text: &mut [u8]) -> Outcome
    ensures { Answers (flags_to_text flags) text.old text.new result }
{
    if are_flags(flags) {
        return give_part(&PartText::Flags(flags as u8), text);
    }
    failed(CallFault::Argument(Argument::Flags, 0))
}

// Whether the number is a byte without 0x20.
fn are_flags(flags: u32) -> bool
    ensures { result ≡ are_flags flags }
{
    flags < 256 && flags / u32::from(UNUSED_FLAG) % 2 == 0
}

/// Gives the bytes of the GUID that a text spells.
pub fn guid_from_text(text: &[u8], output: &mut [u8]) -> Outcome
    ensures { Answers (guid_from_text text.now) output.old output.new result }
{
    match sd_ace::guid_from_text(text) {
        Some(guid) => give(&guid_bytes(&guid), output),
        None => failed(of_text(SddlFault::Guid)),
    }
}

/// Gives the text of a GUID.
pub fn guid_to_text(bytes: &[u8], text: &mut [u8]) -> Outcome
    ensures { Answers (guid_to_text bytes.now) text.old text.new result }
{
    match guid_in(bytes) {
        Ok(guid) => give_part(&PartText::Guid(guid), text),
        Err(fault) => failed(fault),
    }
}

// The GUID whose bytes these are.
fn guid_in(bytes: &[u8]) -> Result<Uuid, CallFault>
    ensures { result ≡ guid_in bytes.now }
{
    match <&[u8; 16]>::try_from(bytes) {
        Ok(bytes) => Ok(guid_read(bytes)),
        Err(_) => Err(CallFault::Argument(Argument::Guid, 0)),
    }
}
