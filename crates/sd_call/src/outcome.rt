//! What a call hands back.

ghost use Rattle.std.specs.Prelude.{◌≡◌};
ghost use Rattle.sd_call.specs.Outcomes.{argument_of, done, entry_of, failed, named_parts, no_memory, number};
ghost use Rattle.sd_call.specs.Outcomes.{too_small};

use crate::argument::{Argument, argument_number};
use sd_check::AskFault;
use sd_edit::ChangeFault;
use sd_faults::{LineFault, part_number};
use sd_sink::NoMemory;
use sd_view::Part;
use std::marker::Model;

/// The output has too little room.
const TOO_SMALL: u32 = 71;

const NO_MEMORY: u32 = 72;

/// A change can't be made.
const CHANGE: u32 = 73;

const ACL_TOO_LARGE: u32 = 30;

/// 0, or the number of a fault.
///
/// Its field is private, so only the functions below make one. Of them `no_memory` alone makes 72, and it takes a
/// `NoMemory`, which only a refused allocation makes.
#[repr(C)]
#[derive(Clone, Copy)]
pub struct FaultNumber {
    number: u32,
}

impl Model for FaultNumber {
    ghost use Rattle.std.specs.Prelude.{ℕ};

    ghost Value = { ℕ };

    ghost view = { λ fault. fault.number };

    ghost inverse = { λ number. record { number = number } };
}

impl FaultNumber {
    /// The number, for a struct whose fault is never 72.
    pub fn value(&self) -> u32
        ensures { result ≡ self.now }
    {
        self.number
    }
}

/// What a call hands back: `struct sdtool_outcome` of the header.
#[repr(C)]
#[derive(Clone, Copy)]
pub struct Outcome {
    /// 0, or the number of the fault.
    pub fault: FaultNumber,
    /// The part that the fault names, or 0.
    pub part: u32,
    /// The second part that the fault names, or 0.
    pub other_part: u32,
    /// With fault 70 the number of the argument that is wrong, or 0.
    pub argument: u32,
    /// Which entry of that argument is wrong, from 0 on, where it is a list; or 0.
    pub entry: usize,
    /// How many bytes the output has, or needs.
    pub length: usize,
}

/// Why a call has no answer, apart from a small output or refused memory.
#[derive(Clone, Copy)]
pub enum CallFault {
    /// 1 to 40: the program's `error` line would say the same.
    Line(LineFault),
    /// 50 and 51: nothing can be asked.
    Ask(AskFault),
    /// 70: an argument beside the text or the descriptor is none that the call takes; of a list, at this entry.
    Argument(Argument, usize),
    /// 73 and 30: the change at this entry can't be made.
    Change(ChangeFault, usize),
}

/// So many bytes are at the front of the output.
pub fn done(length: usize) -> Outcome
    ensures { result ≡ done length }
{
    Outcome {
        fault: FaultNumber { number: 0 },
        part: 0,
        other_part: 0,
        argument: 0,
        entry: 0,
        length,
    }
}

/// The output has no room for so many bytes.
pub fn too_small(length: usize) -> Outcome
    ensures { result ≡ too_small length }
{
    Outcome {
        fault: FaultNumber { number: TOO_SMALL },
        part: 0,
        other_part: 0,
        argument: 0,
        entry: 0,
        length,
    }
}

/// An allocation was refused.
pub fn no_memory(_refused: NoMemory) -> Outcome
    ensures { result ≡ no_memory }
{
    Outcome {
        fault: FaultNumber { number: NO_MEMORY },
        part: 0,
        other_part: 0,
        argument: 0,
        entry: 0,
        length: 0,
    }
}

/// The call has no answer.
pub fn failed(fault: CallFault) -> Outcome
    ensures { result ≡ failed fault }
{
    let parts = named_parts(fault);
    Outcome {
        fault: FaultNumber {
            number: number(fault),
        },
        part: part_number(parts.0),
        other_part: part_number(parts.1),
        argument: argument_of(fault),
        entry: entry_of(fault),
        length: 0,
    }
}

fn number(fault: CallFault) -> u32
    ensures { result ≡ number fault }
{
    match fault {
        CallFault::Line(fault) => fault.number(),
        CallFault::Ask(AskFault::EmptyRequest) => 50,
        CallFault::Ask(AskFault::ReservedBits) => 51,
        CallFault::Argument(_, _) => 70,
        CallFault::Change(ChangeFault::Impossible(_), _) => CHANGE,
        CallFault::Change(ChangeFault::TooLarge(_), _) => ACL_TOO_LARGE,
    }
}

fn named_parts(fault: CallFault) -> (Option<Part>, Option<Part>)
    ensures { result ≡ named_parts fault }
{
    match fault {
        CallFault::Line(fault) => fault.named_parts(),
        CallFault::Ask(_) | CallFault::Argument(_, _) => (None, None),
        CallFault::Change(ChangeFault::Impossible(acl) | ChangeFault::TooLarge(acl), _) => {
            (Some(acl.into()), None)
        }
    }
}

// The number of the argument that a fault is about.
fn argument_of(fault: CallFault) -> u32
    ensures { result ≡ argument_of fault }
{
    match fault {
        CallFault::Line(_) | CallFault::Ask(_) => 0,
        CallFault::Argument(argument, _) => argument_number(argument),
        CallFault::Change(_, _) => argument_number(Argument::Changes),
    }
}

fn entry_of(fault: CallFault) -> usize
    ensures { result ≡ entry_of fault }
{
    match fault {
        CallFault::Line(_) | CallFault::Ask(_) => 0,
        CallFault::Argument(_, entry) | CallFault::Change(_, entry) => entry,
    }
}
