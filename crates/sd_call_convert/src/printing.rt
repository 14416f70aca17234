//! Descriptors printed to the output.

ghost use Rattle.std.specs.Prelude.{◌≡◌, ◌<◌, ◌≤◌, ◌+◌, ◌*◌, length, MatchOption};
ghost use Rattle.sd_sink.specs.Sink.{Puts};
ghost use Rattle.sd_view.specs.Layout.{size};
ghost use Rattle.sd_call.specs.Outcomes.{Fills, Gives};
ghost use Rattle.sd_call_convert.specs.Conversions.{named_in, text_of};
ghost use Rattle.sd_call_convert.specs.declared.printing.Text.TheVariants as Text;

use sd_call::{CallFault, Counter, Front, Outcome, descriptor_in, domain_in, done, too_small};
use sd_explain::put_explain;
use sd_sddl_printer::put_sddl;
use sd_sid::Naming;
use sd_sink::{Sink, SinkFault};
use sd_view::SdView;

/// What is printed of a descriptor.
#[derive(Clone, Copy)]
pub enum Text {
    Sddl,
    Explanation,
}

/// A descriptor, and how its SIDs are named in a text.
#[derive(Drop)]
pub struct Named<'a> {
    pub view: SdView<'a>,
    pub naming: Naming,
}

/// The descriptor that some bytes show, with the names that its SIDs have in a domain.
#[tactic(auto, unfolding(crate::specs::Conversions::named_in))]
pub fn named_in<'a>(bytes: &'a [u8], domain: &[u8], numeric: bool) -> Result<Named<'a>, CallFault>
    ensures { result ≡ named_in bytes.now domain.now numeric }
{
    let domain = domain_in(domain)?;
    let view = descriptor_in(bytes)?;
    Ok(Named {
        view,
        naming: Naming { domain, numeric },
    })
}

/// Gives a text of the descriptor. If there is no room for it, the text is printed once more, to count its bytes.
pub fn give_text(what: Text, named: &Named<'_>, output: &mut [u8]) -> Outcome
    ensures { Gives (text_of what named.now) output.old output.new result }
{
    match print_to(what, named, output) {
        Some(count) => done(count),
        None => too_small(text_length(what, named)),
    }
}

// Prints to the front of the cells, and says how many bytes there are. None where the cells are too few.
fn print_to(what: Text, named: &Named<'_>, cells: &mut [u8]) -> Option<usize>
    ensures { MatchOption result (length cells.old < length (text_of what named.now))
        (λ n. Fills n (text_of what named.now) cells.old cells.new) }
{
    let mut sink = Front {
        cells,
        held: 0,
        failures: 0,
    };
    match put_text(what, named, &mut sink) {
        Ok(()) => Some(sink.count()),
        Err(_) => None,
    }
}

// How many bytes the text has.
fn text_length(what: Text, named: &Named<'_>) -> usize
    ensures { result ≡ length (text_of what named.now) }
{
    let mut counter = Counter {
        count: 0,
        failures: 0,
    };
    // No text is as long as a counter counts.
    let _size = named.view.size();
    let _ = put_text(what, named, &mut counter);
    counter.count
}

fn put_text<S: Sink>(what: Text, named: &Named<'_>, sink: &mut S) -> Result<(), SinkFault>
    ensures put { Puts (S.told sink.old) (S.told sink.new) (text_of what named.now) result }
    ensures short { length (text_of what named.now) ≤ 8 * size named.now.view + 64 }
{
    let Naming { domain, numeric } = &named.naming;
    match what {
        Text::Sddl => put_sddl(&named.view, domain.as_ref(), *numeric, sink),
        Text::Explanation => put_explain(&named.view, domain.as_ref(), *numeric, sink),
    }
}
