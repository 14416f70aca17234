//! The calls that read and write an ACE by itself.

ghost use Rattle.std.specs.Prelude.{◌≡◌, [], length, MatchResult, Ok, Err, OnOk};
ghost use Rattle.sd_ace.specs.Ace.{ace_size};
ghost use Rattle.sd_call.specs.Outcomes.{Answers, AnswersWithin, Gives, Refused};
ghost use Rattle.sd_call_convert.specs.AceTexts.{ace_alone, domain_of_ace, ace_from_text, ace_in, ace_to_text, as_dacl};
ghost use Rattle.sd_call_convert.specs.AceTexts.{begins_ace, bytes_alone, bytes_of, has_others, named_ace};
ghost use Rattle.sd_call_convert.specs.Conversions.{text_in};
ghost use Rattle.sd_sddl_builder.specs.Meaning.{means};
ghost use Rattle.sd_view.specs.Descriptor.{Shows};
ghost use Rattle.sd_view.specs.WrittenForm.{IsWrittenForm};
ghost use Rattle.sd_sink.specs.Sink.{Puts};

use crate::conversions::domain_of_size;
use crate::field_texts::of_text;
use crate::part_text::{NamedAce, PartText, give_part};
use sd_acl_view::{AceView, front_ace};
use sd_buffer::SdBuf;
use sd_call::{Argument, CallFault, Front, Outcome, domain_in, done, failed, no_memory, too_small};
use sd_call_build::print_ace;
use sd_sddl_builder::SddlFault;
use sd_sddl_reader::SddlReader;
use sd_sid::{Naming, Sid};
use sd_sink::{NoMemory, Print, Printer, Sink, SinkFault};
use sd_view::{AclPart, SdView, view_written};
use std::alloc::Global;

/// The head of a DACL, behind which an ACE is read.
const HEAD: &[u8] = b"D:";

/// Gives the bytes of the ACE that a text means.
pub fn ace_from_text(alloc: Global, text: &[u8], domain: &[u8], output: &mut [u8]) -> Outcome
    // A wrong domain, a text that is too long, and one that begins no ACE are told before memory is asked for.
    ensures { AnswersWithin (domain_of_ace text.now domain.now) (ace_from_text text.now domain.now)
        output.old output.new result }
{
    match domain_of_ace(text, domain) {
        Ok(domain) => give_meant(text, domain, SdBuf::new(alloc), output),
        Err(fault) => failed(fault),
    }
}

// The domain under which a text is read, if it begins as an ACE.
#[tactic(auto, unfolding(crate::specs::AceTexts::domain_of_ace))]
fn domain_of_ace(text: &[u8], domain: &[u8]) -> Result<Option<Sid>, CallFault>
    ensures { result ≡ domain_of_ace text.now domain.now }
{
    let domain = domain_of_size(size_as_dacl(text), domain)?;
    if !begins_ace(text) {
        return Err(of_text(SddlFault::Shape));
    }
    Ok(domain)
}

// The size of the text behind the head of a DACL.
fn size_as_dacl(text: &[u8]) -> usize
    ensures { result ≡ length (as_dacl text.now) }
{
    HEAD.len() + text.len()
}

fn begins_ace(text: &[u8]) -> bool
    ensures { result ≡ begins_ace text.now }
{
    !text.is_empty() && text[0] == b'('
}

// Gives the bytes of the ACE that a text means. It is read into the buffer, unless memory was refused for one.
fn give_meant(
    text: &[u8],
    domain: Option<Sid>,
    buf: Result<SdBuf, NoMemory>,
    output: &mut [u8],
) -> Outcome
    ensures { MatchResult buf
        (λ _. Answers (bytes_alone (text_in domain (as_dacl text.now))) output.old output.new result)
        (λ _. Refused output.old output.new result) }
{
    match buf {
        Ok(mut buf) => match read_ace(text, domain, &mut buf) {
            Ok(view) => give_alone(&view, output),
            Err(fault) => failed(fault),
        },
        Err(refused) => no_memory(refused),
    }
}

// Reads the text of an ACE into the buffer, behind the head of a DACL.
fn read_ace<'a>(
    text: &[u8],
    domain: Option<Sid>,
    buf: &'a mut SdBuf,
) -> Result<SdView<'a>, CallFault>
    ensures { result ≡ text_in domain (as_dacl text.now) }
{
    match feed_ace(text, domain, buf) {
        Ok(()) => Ok(view_written(buf.bytes())),
        Err(fault) => Err(of_text(fault)),
    }
}

// Feeds the text of an ACE to a reader, behind the head of a DACL.
fn feed_ace(text: &[u8], domain: Option<Sid>, buf: &mut SdBuf) -> Result<(), SddlFault>
    ensures exact { MatchResult (means (as_dacl text.now) domain)
        (λ d. (result ≡ Ok tt) × Shows buf.new d)
        (λ e. (result ≡ Err e) × (buf.new ≡ [])) }
    ensures form { OnOk result (IsWrittenForm buf.new) }
{
    let mut reader = SddlReader::new(domain, buf);
    reader.feed_all(buf, HEAD);
    reader.feed_all(buf, text);
    reader.end(buf)
}

// Gives the bytes of the ACE of a descriptor that has nothing else.
fn give_alone(view: &SdView<'_>, output: &mut [u8]) -> Outcome
    ensures { Answers (bytes_alone (Ok view.now)) output.old output.new result }
{
    match ace_alone(view) {
        Some(ace) => give_ace(&ace, output),
        None => failed(of_text(SddlFault::Shape)),
    }
}

fn ace_alone<'a>(view: &SdView<'a>) -> Option<AceView<'a>>
    ensures { result ≡ ace_alone view.now }
{
    if has_others(view) {
        return None;
    }
    match view.dacl() {
        AclPart::List(acl) if acl.count() == 1 => acl.aces().next(),
        _ => None,
    }
}

fn has_others(view: &SdView<'_>) -> bool
    ensures { result ≡ has_others view.now }
{
    view.owner_in_place().is_some()
        || view.group_in_place().is_some()
        || !matches!(view.sacl(), AclPart::Absent)
}

// Gives the bytes of an ACE.
fn give_ace(ace: &AceView<'_>, output: &mut [u8]) -> Outcome
    ensures { Gives (bytes_of ace.now) output.old output.new result }
{
    let size = usize::from(ace.size());
    let mut sink = Front {
        cells: output,
        held: 0,
        failures: 0,
    };
    match put_bytes(ace, &mut sink) {
        Ok(()) => done(size),
        Err(_) => too_small(size),
    }
}

#[tactic(auto, unfolding(crate::specs::AceTexts::bytes_of))]
fn put_bytes<S: Sink>(ace: &AceView<'_>, sink: &mut S) -> Result<(), SinkFault>
    ensures put { Puts (S.told sink.old) (S.told sink.new) (bytes_of ace.now) result }
    ensures size { length (bytes_of ace.now) ≡ ace_size ace.now }
{
    // Its size is that of its bytes.
    let _ = ace.size();
    let mut out = Printer::new(sink);
    print_ace(&ace.ace(), &mut out);
    out.finish()
}

/// Gives the text of the ACE that some bytes are.
pub fn ace_to_text(ace: &[u8], domain: &[u8], numeric: bool, text: &mut [u8]) -> Outcome
    ensures { Answers (ace_to_text ace.now domain.now numeric) text.old text.new result }
{
    match named_ace(ace, domain, numeric) {
        Ok(named) => give_part(&PartText::Ace(named), text),
        Err(fault) => failed(fault),
    }
}

// An ACE, and how its SID is named.
#[tactic(auto, unfolding(crate::specs::AceTexts::named_ace))]
fn named_ace<'a>(bytes: &'a [u8], domain: &[u8], numeric: bool) -> Result<NamedAce<'a>, CallFault>
    ensures { result ≡ named_ace bytes.now domain.now numeric }
{
    let ace = ace_in(bytes)?;
    let domain = domain_in(domain)?;
    Ok(NamedAce {
        ace,
        naming: Naming { domain, numeric },
    })
}

// The ACE that the bytes are.
fn ace_in(bytes: &[u8]) -> Result<AceView<'_>, CallFault>
    ensures { result ≡ ace_in bytes.now }
{
    match front_ace(bytes) {
        Ok((ace, rest)) if rest.is_empty() => Ok(ace),
        _ => Err(CallFault::Argument(Argument::Ace, 0)),
    }
}
