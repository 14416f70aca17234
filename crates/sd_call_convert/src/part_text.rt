//! Texts of parts of an ACE, of which the longest is that of a whole one.

ghost use Rattle.std.specs.Prelude.{◌≡◌, ◌≤◌, ◌<◌, length};
ghost use Rattle.sd_call.specs.Outcomes.{Fills, Gives};
ghost use Rattle.sd_call_convert.specs.PartTexts.{part_text};
ghost use Rattle.sd_sddl_printer.specs.Printed.{ace_text};
ghost use Rattle.sd_sink.specs.Sink.{Puts};

use sd_ace::put_guid;
use sd_acl_view::AceView;
use sd_call::{Front, Outcome, give};
use sd_kinds::{AceKind, put_flags};
use sd_rights::put_rights;
use sd_sddl_printer::print_ace;
use sd_sid::Naming;
use sd_sink::{Print, Printer, Sink, SinkFault};
use uuid::Uuid;

/// The most bytes of a text.
pub const MOST_ACE_TEXT: usize = 312;

/// An ACE, and how its SID is named in a text.
#[derive(Drop)]
pub struct NamedAce<'a> {
    pub ace: AceView<'a>,
    pub naming: Naming,
}

/// What is put as text.
#[derive(Drop)]
pub enum PartText<'a> {
    Rights(AceKind, u32),
    Flags(u8),
    Guid(Uuid),
    Ace(NamedAce<'a>),
}

/// Gives the text.
pub fn give_part(part: &PartText<'_>, output: &mut [u8]) -> Outcome
    ensures { Gives (part_text part.now) output.old output.new result }
{
    let mut cells = [0; MOST_ACE_TEXT];
    let count = print_part(part, &mut cells);
    give(&cells[..count], output)
}

// Prints the text to the front of the cells, and says how many bytes there are.
fn print_part(part: &PartText<'_>, cells: &mut [u8]) -> usize
    requires { length cells.old ≡ MOST_ACE_TEXT }
    ensures { Fills result (part_text part.now) cells.old cells.new }
{
    let mut sink = Front {
        cells,
        held: 0,
        failures: 0,
    };
    match put_part(part, &mut sink) {
        Ok(()) => sink.count(),
        // There is room for every text.
        Err(_) => 0,
    }
}

fn put_part<S: Sink>(part: &PartText<'_>, sink: &mut S) -> Result<(), SinkFault>
    ensures put { Puts (S.told sink.old) (S.told sink.new) (part_text part.now) result }
    ensures short { length (part_text part.now) ≤ MOST_ACE_TEXT }
{
    match part {
        PartText::Rights(kind, mask) => put_rights(*kind, *mask, sink),
        PartText::Flags(flags) => put_flags(*flags, sink),
        PartText::Guid(guid) => put_guid(guid, sink),
        PartText::Ace(named) => put_ace(named, sink),
    }
}

#[tactic(auto, using(crate::proofs::PartLemmas::ace_short))]
fn put_ace<S: Sink>(named: &NamedAce<'_>, sink: &mut S) -> Result<(), SinkFault>
    ensures put { Puts (S.told sink.old) (S.told sink.new) (ace_text named.now.naming named.now.ace) result }
    ensures short { length (ace_text named.now.naming named.now.ace) ≤ MOST_ACE_TEXT }
{
    // The kind shows the limits of an ACE.
    let _ = named.ace.kind();
    let mut out = Printer::new(sink);
    print_ace(&named.naming, &named.ace, &mut out);
    out.finish()
}
