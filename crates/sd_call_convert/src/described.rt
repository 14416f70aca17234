//! What a fault and its place are in a sentence.

ghost use Rattle.std.specs.Prelude.{◌≡◌, ◌≤◌, ◌<◌, ◌+◌, ◌++◌, length, codes};
ghost use Rattle.std.specs.Fmt.{decimal};
ghost use Rattle.sd_call.specs.Outcomes.{Answers, Fills, Gives};
ghost use Rattle.sd_call_convert.specs.Described.{argument_text, described, field_text, holder_text, line_text};
ghost use Rattle.sd_call_convert.specs.Described.{part_numbered, part_words, place_text, place_text_of, sentence};
ghost use Rattle.sd_sink.specs.Print.{Prints};
ghost use Rattle.sd_sink.specs.Sink.{Puts};
ghost use Rattle.sd_text.specs.Limits.{most_sddl_text};

use crate::told::{NO_ACE, PlaceTold};
use sd_call::{Argument, CallFault, Front, Outcome, failed, give};
use sd_faults::{fault_name, meaning, part_text};
use sd_parts::Part;
use sd_sink::{Print, Printer, Sink, SinkFault};
use sd_text::{MOST_SDDL_TEXT, print_decimal};

/// No sentence has more bytes.
const MOST_DESCRIPTION: usize = 512;

/// Gives a fault and its place as a sentence.
pub fn describe(outcome: &Outcome, place: &PlaceTold, text: &mut [u8]) -> Outcome
    ensures { Answers (described outcome.now place.now) text.old text.new result }
{
    if fault_name(outcome.fault.value()).is_empty() {
        return failed(CallFault::Argument(Argument::Fault, 0));
    }
    give_sentence(outcome, place, text)
}

fn give_sentence(outcome: &Outcome, place: &PlaceTold, text: &mut [u8]) -> Outcome
    ensures { Gives (sentence outcome.now place.now) text.old text.new result }
{
    let mut cells = [0; MOST_DESCRIPTION];
    let count = print_to(outcome, place, &mut cells);
    give(&cells[..count], text)
}

// Prints to the front of the cells, and says how many bytes there are.
fn print_to(outcome: &Outcome, place: &PlaceTold, cells: &mut [u8]) -> usize
    requires { length cells.old ≡ MOST_DESCRIPTION }
    ensures { Fills result (sentence outcome.now place.now) cells.old cells.new }
{
    let mut sink = Front {
        cells,
        held: 0,
        failures: 0,
    };
    match put_sentence(outcome, place, &mut sink) {
        Ok(()) => sink.count(),
        // There is room for every sentence.
        Err(_) => 0,
    }
}

fn put_sentence<S: Sink>(
    outcome: &Outcome,
    place: &PlaceTold,
    sink: &mut S,
) -> Result<(), SinkFault>
    ensures put { Puts (S.told sink.old) (S.told sink.new) (sentence outcome.now place.now) result }
    ensures short { length (sentence outcome.now place.now) ≤ MOST_DESCRIPTION }
{
    let mut out = Printer::new(sink);
    let fault = outcome.fault.value();
    out.put(argument_text(outcome.argument).as_bytes());
    print_line(fault, outcome.part, outcome.other_part, &mut out);
    print_place_of(fault, place, &mut out);
    out.finish()
}

fn print_line<P: Print>(number: u32, first: u32, second: u32, out: &mut P)
    ensures print { Prints (P.told out.old) (P.told out.new) (line_text number first second) }
    ensures short { length (line_text number first second) ≤ 222 }
{
    let meaning = meaning(number);
    out.put(b"error ");
    print_decimal(number, out);
    out.put(b" ");
    out.put(fault_name(number).as_bytes());
    out.put(part_text(part_numbered(first)).as_bytes());
    out.put(part_text(part_numbered(second)).as_bytes());
    out.put(b": ");
    out.put(meaning.as_bytes());
}

fn print_place_of<P: Print>(number: u32, place: &PlaceTold, out: &mut P)
    ensures print { Prints (P.told out.old) (P.told out.new) (place_text_of number place.now) }
    ensures short { length (place_text_of number place.now) ≤ 72 }
{
    if place.fault != number {
        return;
    }
    if place.place.offset > MOST_SDDL_TEXT {
        return;
    }
    print_place(place, out);
}

fn print_place<P: Print>(place: &PlaceTold, out: &mut P)
    requires { place.now.place.offset ≤ most_sddl_text }
    ensures print { Prints (P.told out.old) (P.told out.new) (place_text place.now) }
    ensures short { length (place_text place.now) ≤ 72 }
{
    out.put(b", at byte ");
    print_decimal(offset_of(place), out);
    print_holder(part_numbered(place.part), place.ace, out);
    out.put(field_text(place.field).as_bytes());
}

fn offset_of(place: &PlaceTold) -> u32
    requires { place.now.place.offset ≤ most_sddl_text }
    ensures { result ≡ place.now.place.offset }
{
    place.place.offset as u32
}

fn print_holder<P: Print>(part: Option<Part>, ace: u32, out: &mut P)
    ensures print { Prints (P.told out.old) (P.told out.new) (holder_text part ace) }
    ensures short { length (holder_text part ace) ≤ 29 }
{
    let Some(part) = part else {
        return;
    };
    if ace == NO_ACE {
        return print_part(part, out);
    }
    print_ace(part, number_from_1(ace), out);
}

fn print_part<P: Print>(part: Part, out: &mut P)
    ensures print { Prints (P.told out.old) (P.told out.new) (codes ", " ++ part_words part) }
    ensures short { length (codes ", " ++ part_words part) ≤ 11 }
{
    out.put(b", ");
    out.put(part_words(part).as_bytes());
}

fn print_ace<P: Print>(part: Part, number: u32, out: &mut P)
    ensures print { Prints (P.told out.old) (P.told out.new)
        (codes ", ACE " ++ decimal number ++ codes " of " ++ part_words part) }
    ensures short { length (codes ", ACE " ++ decimal number ++ codes " of " ++ part_words part) ≤ 29 }
{
    out.put(b", ACE ");
    print_decimal(number, out);
    out.put(b" of ");
    out.put(part_words(part).as_bytes());
}

fn number_from_1(ace: u32) -> u32
    requires { ace < 0xffff_ffff }
    ensures { result ≡ ace + 1 }
{
    ace + 1
}

fn argument_text(number: u32) -> &'static str
    ensures value { result.now ≡ argument_text number }
    ensures short { length result.now ≤ 16 }
{
    match number {
        1 => "domain: ",
        2 => "sids: ",
        3 => "entries: ",
        4 => "object: ",
        5 => "principal_self: ",
        6 => "mapping: ",
        7 => "creator: ",
        8 => "owner: ",
        9 => "group: ",
        10 => "kind: ",
        11 => "fault: ",
        12 => "sid: ",
        13 => "sacl: ",
        14 => "dacl: ",
        15 => "token: ",
        16 => "changes: ",
        17 => "options: ",
        18 => "ace: ",
        19 => "flags: ",
        20 => "guid: ",
        21 => "offsets: ",
        22 => "conversion: ",
        _ => "",
    }
}

fn part_numbered(number: u32) -> Option<Part>
    ensures { result ≡ part_numbered number }
{
    match number {
        1 => Some(Part::Owner),
        2 => Some(Part::Group),
        3 => Some(Part::Sacl),
        4 => Some(Part::Dacl),
        _ => None,
    }
}

fn part_words(part: Part) -> &'static str
    ensures value { result.now ≡ part_words part }
    ensures short { length result.now ≤ 9 }
{
    match part {
        Part::Owner => "the owner",
        Part::Group => "the group",
        Part::Sacl => "the SACL",
        Part::Dacl => "the DACL",
    }
}

fn field_text(number: u32) -> &'static str
    ensures value { result.now ≡ field_text number }
    ensures short { length result.now ≤ 23 }
{
    match number {
        1 => ", kind",
        2 => ", flags",
        3 => ", rights",
        4 => ", object type",
        5 => ", inherited object type",
        6 => ", SID",
        7 => ", size",
        _ => "",
    }
}
