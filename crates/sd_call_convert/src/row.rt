//! A row of a column, and how it is converted.

ghost use Rattle.std.specs.Prelude.{◌≡◌, ◌<◌, ◌+◌, length, slice_index, IfOk, IsTrue};
ghost use Rattle.std.specs.Option.{option_copied};
ghost use Rattle.sd_text.specs.Chains.{and_then};
ghost use Rattle.sd_call.specs.Arguments.{domain_in};
ghost use Rattle.sd_call.specs.Columns.{numbers, row_between};
ghost use Rattle.sd_call.specs.Outcomes.{Answers};
ghost use Rattle.sd_call_convert.specs.Many.{converted_in, has_room, kind_in, manner_for, manner_in, numeric_in};
ghost use Rattle.sd_call_convert.specs.Many.{read_in, shown_in};

use crate::conversions::{give_read, normalize};
use crate::printing::{Named, Text, give_text};
use sd_buffer::SdBuf;
use sd_call::{Argument, CallFault, Column, Outcome, descriptor_in, domain_in, failed, row_at};
use sd_faults::LineFault;
use sd_sid::{Naming, Sid};
use sd_text::MOST_SDDL_TEXT;

/// The option by which no aliases are printed.
const NUMERIC: u32 = 1;

/// What each row is converted to.
#[derive(Clone, Copy)]
pub enum ConversionKind {
    ToSddl,
    FromSddl,
    Normalize,
}

/// How each row is converted.
#[derive(Clone, Copy)]
pub struct Manner {
    pub kind: ConversionKind,
    pub naming: Naming,
}

/// How much is lent for the answers.
#[derive(Clone, Copy)]
pub struct Room {
    pub bytes: usize,
    pub offsets: usize,
    pub outcomes: usize,
}

/// How each row is converted, if there is room.
#[tactic(auto, unfolding(crate::specs::Many::manner_for))]
pub fn manner_for(kind: u32, options: u32, domain: &[u8], enough: bool) -> Result<Manner, CallFault>
    ensures exact { result ≡ manner_for kind options domain.now enough }
    ensures domain { IfOk result (λ manner. domain_in domain.now ≡ Ok manner.naming.domain) }
    ensures room { IfOk result (λ _. IsTrue enough) }
{
    let manner = manner_in(kind, options, domain)?;
    if !enough {
        return Err(CallFault::Argument(Argument::Offsets, 0));
    }
    Ok(manner)
}

#[tactic(auto, unfolding(crate::specs::Many::manner_in))]
fn manner_in(kind: u32, options: u32, domain: &[u8]) -> Result<Manner, CallFault>
    ensures exact { result ≡ manner_in kind options domain.now }
    ensures domain { IfOk result (λ manner. domain_in domain.now ≡ Ok manner.naming.domain) }
{
    let kind = kind_in(kind)?;
    let numeric = numeric_in(options)?;
    let domain = domain_in(domain)?;
    Ok(Manner {
        kind,
        naming: Naming { domain, numeric },
    })
}

fn kind_in(number: u32) -> Result<ConversionKind, CallFault>
    ensures { result ≡ kind_in number }
{
    match number {
        0 => Ok(ConversionKind::ToSddl),
        1 => Ok(ConversionKind::FromSddl),
        2 => Ok(ConversionKind::Normalize),
        _ => Err(CallFault::Argument(Argument::Conversion, 0)),
    }
}

fn numeric_in(options: u32) -> Result<bool, CallFault>
    ensures { result ≡ numeric_in options }
{
    if options > NUMERIC {
        return Err(CallFault::Argument(Argument::Options, 0));
    }
    Ok(options == NUMERIC)
}

/// Whether so many offsets can be written, with their answers and outcomes.
pub fn has_room(count: usize, begin: usize, room: &Room) -> bool
    requires { room.now.outcomes < usize.MAX }
    ensures { result ≡ has_room count begin room.now }
{
    0 < count && count <= room.offsets && count <= room.outcomes + 1 && begin <= room.bytes
}

/// Converts the row at this place. A text is read into the buffer, whatever that holds.
pub fn convert_row(
    column: &Column<'_>,
    i: usize,
    manner: &Manner,
    buf: &mut SdBuf,
    output: &mut [u8],
) -> Outcome
    requires { i + 1 < length (numbers column.now.offsets) }
    ensures { Answers (and_then (row_between column.now.data.now (slice_index (numbers column.now.offsets) i)
        (slice_index (numbers column.now.offsets) (i + 1))) (converted_in manner.now)) output.old output.new result }
{
    match row_at(column, i) {
        Ok(bytes) => convert(bytes, manner, buf, output),
        Err(fault) => failed(fault),
    }
}

#[tactic(auto, unfolding(crate::specs::Many::converted_in))]
fn convert(bytes: &[u8], manner: &Manner, buf: &mut SdBuf, output: &mut [u8]) -> Outcome
    ensures { Answers (converted_in manner.now bytes.now) output.old output.new result }
{
    match manner.kind {
        ConversionKind::ToSddl => show(bytes, &manner.naming, output),
        ConversionKind::FromSddl => read(bytes, manner.naming.domain.as_ref(), buf, output),
        ConversionKind::Normalize => normalize(bytes, output),
    }
}

fn show(bytes: &[u8], naming: &Naming, output: &mut [u8]) -> Outcome
    ensures { Answers (shown_in naming.now bytes.now) output.old output.new result }
{
    match descriptor_in(bytes) {
        Ok(view) => {
            let named = Named {
                view,
                naming: *naming,
            };
            give_text(Text::Sddl, &named, output)
        }
        Err(fault) => failed(fault),
    }
}

#[tactic(auto, unfolding(crate::specs::Conversions::read_under))]
fn read(text: &[u8], domain: Option<&Sid>, buf: &mut SdBuf, output: &mut [u8]) -> Outcome
    ensures { Answers (read_in (option_copied domain.entry) text.now) output.old output.new result }
{
    if text.len() > MOST_SDDL_TEXT {
        return failed(CallFault::Line(LineFault::TooLong));
    }
    give_read(text, domain, buf, output)
}
