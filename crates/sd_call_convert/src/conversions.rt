//! The calls that convert descriptors.

ghost use Rattle.std.specs.Prelude.{◌≡◌, MatchResult, codes};
ghost use Rattle.std.specs.Option.{option_copied};
ghost use Rattle.sd_view.specs.Layout.{layout};
ghost use Rattle.sd_call.specs.Outcomes.{Answers, AnswersWithin, Gives, Refused};
ghost use Rattle.sd_call_convert.specs.Conversions.{domain_for, domain_of_size, explained, from_sddl, laid_out};
ghost use Rattle.sd_call_convert.specs.Conversions.{normalized, text_in, to_sddl};

use crate::printing::{Text, give_text, named_in};
use sd_buffer::SdBuf;
use sd_builder::put_layout;
use sd_call::{
    CallFault, Front, Outcome, descriptor_in, domain_in, done, failed, give, no_memory, too_small,
};
use sd_faults::LineFault;
use sd_sddl_reader::read_sddl;
use sd_sid::Sid;
use sd_sink::NoMemory;
use sd_text::MOST_SDDL_TEXT;
use sd_view::{SdView, view_written};
use std::alloc::Global;

/// Gives the library's version.
pub fn version(text: &mut [u8]) -> Outcome
    ensures { Gives (codes "0.1.0") text.old text.new result }
{
    give(b"0.1.0", text)
}

/// Gives a descriptor as SDDL.
pub fn to_sddl(bytes: &[u8], domain: &[u8], numeric: bool, text: &mut [u8]) -> Outcome
    ensures { Answers (to_sddl bytes.now domain.now numeric) text.old text.new result }
{
    match named_in(bytes, domain, numeric) {
        Ok(named) => give_text(Text::Sddl, &named, text),
        Err(fault) => failed(fault),
    }
}

/// Gives the explanation of a descriptor.
pub fn explain_text(bytes: &[u8], domain: &[u8], numeric: bool, text: &mut [u8]) -> Outcome
    ensures { Answers (explained bytes.now domain.now numeric) text.old text.new result }
{
    match named_in(bytes, domain, numeric) {
        Ok(named) => give_text(Text::Explanation, &named, text),
        Err(fault) => failed(fault),
    }
}

/// Gives the one layout of a descriptor.
pub fn normalize(bytes: &[u8], output: &mut [u8]) -> Outcome
    ensures { Answers (normalized bytes.now) output.old output.new result }
{
    match descriptor_in(bytes) {
        Ok(view) => give_layout(&view, output),
        Err(fault) => failed(fault),
    }
}

/// Gives the bytes of the descriptor that a text of SDDL means.
pub fn from_sddl(alloc: Global, text: &[u8], domain: &[u8], output: &mut [u8]) -> Outcome
    // A wrong domain and a text that is too long are told before memory is asked for.
    ensures { AnswersWithin (domain_for text.now domain.now) (from_sddl text.now domain.now)
        output.old output.new result }
{
    match domain_of_size(text.len(), domain) {
        Ok(domain) => give_meant(text, domain.as_ref(), SdBuf::new(alloc), output),
        Err(fault) => failed(fault),
    }
}

/// The domain under which a text of so many bytes is read, if these are not too many.
#[tactic(auto, unfolding(crate::specs::Conversions::read_under))]
pub(crate) fn domain_of_size(size: usize, domain: &[u8]) -> Result<Option<Sid>, CallFault>
    ensures { result ≡ domain_of_size size domain.now }
{
    let domain = domain_in(domain)?;
    if size > MOST_SDDL_TEXT {
        return Err(CallFault::Line(LineFault::TooLong));
    }
    Ok(domain)
}

// Gives the layout of what a text means, unless memory was refused for a buffer.
fn give_meant(
    text: &[u8],
    domain: Option<&Sid>,
    buf: Result<SdBuf, NoMemory>,
    output: &mut [u8],
) -> Outcome
    ensures { MatchResult buf
        (λ _. Answers (laid_out (text_in (option_copied domain.entry) text.now)) output.old output.new result)
        (λ _. Refused output.old output.new result) }
{
    match buf {
        Ok(mut buf) => give_read(text, domain, &mut buf, output),
        Err(refused) => no_memory(refused),
    }
}

/// Gives the layout of what a text means. It is read into the buffer, whatever that holds.
pub(crate) fn give_read(
    text: &[u8],
    domain: Option<&Sid>,
    buf: &mut SdBuf,
    output: &mut [u8],
) -> Outcome
    ensures { Answers (laid_out (text_in (option_copied domain.entry) text.now)) output.old output.new result }
{
    match read_text(text, domain, buf) {
        Ok(view) => give_layout(&view, output),
        Err(fault) => failed(fault),
    }
}

// Gives the layout of a descriptor.
fn give_layout(view: &SdView<'_>, output: &mut [u8]) -> Outcome
    ensures { Gives (layout view.now) output.old output.new result }
{
    let size = view.size() as usize;
    let mut sink = Front {
        cells: output,
        held: 0,
        failures: 0,
    };
    match put_layout(view, &mut sink) {
        Ok(()) => done(size),
        Err(_) => too_small(size),
    }
}

// Reads a text into the buffer, and views there the descriptor that the text means.
fn read_text<'a>(
    text: &[u8],
    domain: Option<&Sid>,
    buf: &'a mut SdBuf,
) -> Result<SdView<'a>, CallFault>
    ensures { result ≡ text_in (option_copied domain.entry) text.now }
{
    match read_sddl(text, domain, buf) {
        Ok(()) => Ok(view_written(buf.bytes())),
        Err(fault) => Err(CallFault::Line(LineFault::Sddl(fault))),
    }
}
