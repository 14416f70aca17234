//! The name of a SID: its alias, or its text.

ghost use Rattle.std.specs.Prelude.{◌≡◌, ◌≤◌, ◌<◌, length};
ghost use Rattle.sd_call.specs.Outcomes.{Fills, Gives};
ghost use Rattle.sd_sddl_printer.specs.Printed.{trustee_text};
ghost use Rattle.sd_sink.specs.Sink.{Puts};

use sd_call::{Front, Outcome, give};
use sd_sid::{Naming, Sid};
use sd_sink::{Print, Printer, Sink, SinkFault};
use sd_text::MOST_FIELD_SIZE;

/// Gives the name of a SID.
pub fn give_name(naming: &Naming, sid: &Sid, output: &mut [u8]) -> Outcome
    ensures { Gives (trustee_text naming.now sid.now) output.old output.new result }
{
    // The longest text of a SID is as long as the longest field of SDDL.
    let mut cells = [0; MOST_FIELD_SIZE];
    let count = print_name(naming, sid, &mut cells);
    give(&cells[..count], output)
}

// Prints the name to the front of the cells, and says how many bytes there are.
fn print_name(naming: &Naming, sid: &Sid, cells: &mut [u8]) -> usize
    requires { length cells.old ≡ MOST_FIELD_SIZE }
    ensures { Fills result (trustee_text naming.now sid.now) cells.old cells.new }
{
    let mut sink = Front {
        cells,
        held: 0,
        failures: 0,
    };
    match put_name(naming, sid, &mut sink) {
        Ok(()) => sink.count(),
        // There is room for every name.
        Err(_) => 0,
    }
}

#[tactic(auto, unfolding(sd_sddl_printer::specs::Printed::trustee_text), using(crate::proofs::NameLemmas::text_short))]
fn put_name<S: Sink>(naming: &Naming, sid: &Sid, sink: &mut S) -> Result<(), SinkFault>
    ensures put { Puts (S.told sink.old) (S.told sink.new) (trustee_text naming.now sid.now) result }
    ensures short { length (trustee_text naming.now sid.now) ≤ MOST_FIELD_SIZE }
{
    let mut out = Printer::new(sink);
    match naming.alias(sid) {
        Some(alias) => out.put(&alias),
        None => sid.print_text(&mut out),
    }
    out.finish()
}
