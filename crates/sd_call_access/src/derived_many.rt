//! A column of parents, and a new descriptor of each.

ghost use Rattle.std.specs.Prelude.{◌≡◌, ◌≤◌, length, take, IfOk, IsTrue, MatchResult, Ok};
ghost use Rattle.sd_call.specs.Outcomes.{Answers};
ghost use Rattle.sd_call_columns.specs.Answered.{lent, most_small};
ghost use Rattle.sd_call_access.specs.DerivedMany.{DerivesMany, Refuses, asked, asked_large, child_of};
ghost use Rattle.sd_call_access.specs.DerivedMany.{children_for, children_in};
ghost use Rattle.sd_call_access.specs.Derivations.{new_layout};

use crate::derivations::{creator_in, plan_in};
use sd_buffer::SdBuf;
use sd_call::{Argument, CallFault, Outcome, descriptor_in, failed, give, no_memory};
use sd_call_columns::{
    AnswersRows, LargeColumn, MOST_SMALL, Room, Rows, SmallColumn, answer_rows, answer_rows_large,
    has_room,
};
use sd_faults::LineFault;
use sd_inherit::{Plan, derive};
use sd_view::SdView;
use std::alloc::Global;

/// What new objects have in common: `struct sdtool_creation` of the header.
#[repr(C)]
#[derive(Clone, Copy)]
pub struct Creation<'a> {
    /// The descriptor that the creator brings, or nothing.
    pub creator: &'a [u8],
    /// The SIDs of the creator in binary.
    pub owner: &'a [u8],
    pub group: &'a [u8],
    pub kind: u32,
    pub mapping: u32,
}

/// Parents with offsets of 32 bits: `struct sdtool_derivation` of the header.
#[repr(C)]
#[derive(Clone, Copy)]
pub struct Derivation<'a> {
    pub parents: SmallColumn<'a>,
    pub creation: Creation<'a>,
    /// Where in the output the first answer begins.
    pub begin: usize,
}

/// Parents with offsets of 64 bits: `struct sdtool_large_derivation` of the header.
#[repr(C)]
#[derive(Clone, Copy)]
pub struct LargeDerivation<'a> {
    pub parents: LargeColumn<'a>,
    pub creation: Creation<'a>,
    /// Where in the output the first answer begins.
    pub begin: usize,
}

/// Derives a new descriptor from each row of a column with offsets of 32 bits.
pub fn derive_many(
    alloc: Global,
    derivation: &Derivation<'_>,
    out: &mut [u8],
    out_offsets: &mut [u32],
    outcomes: &mut [Outcome],
) -> Outcome
    ensures { DerivesMany (asked derivation.now) (lent (take most_small out.old) out_offsets.old outcomes.old)
        (lent (take most_small out.new) out_offsets.new outcomes.new) result }
{
    let size = MOST_SMALL.min(out.len());
    derive_within(alloc, derivation, &mut out[..size], out_offsets, outcomes)
}

// The same with an output that these offsets can reach.
fn derive_within(
    alloc: Global,
    derivation: &Derivation<'_>,
    out: &mut [u8],
    out_offsets: &mut [u32],
    outcomes: &mut [Outcome],
) -> Outcome
    requires { length out.old ≤ most_small }
    ensures { DerivesMany (asked derivation.now) (lent out.old out_offsets.old outcomes.old)
        (lent out.new out_offsets.new outcomes.new) result }
{
    let room = Room {
        bytes: out.len(),
        offsets: out_offsets.len(),
        outcomes: outcomes.len(),
    };
    let enough = has_room(derivation.parents.offsets.len(), derivation.begin, &room);
    match deriver_for(alloc, &derivation.creation, enough) {
        Ok(mut deriver) => {
            let rows = Rows {
                column: derivation.parents.column(),
                begin: derivation.begin,
            };
            answer_rows(&rows, &mut deriver, out, out_offsets, outcomes)
        }
        Err(outcome) => outcome,
    }
}

/// Derives a new descriptor from each row of a column with offsets of 64 bits.
pub fn derive_many_large(
    alloc: Global,
    derivation: &LargeDerivation<'_>,
    out: &mut [u8],
    out_offsets: &mut [u64],
    outcomes: &mut [Outcome],
) -> Outcome
    ensures { DerivesMany (asked_large derivation.now) (lent out.old out_offsets.old outcomes.old)
        (lent out.new out_offsets.new outcomes.new) result }
{
    let room = Room {
        bytes: out.len(),
        offsets: out_offsets.len(),
        outcomes: outcomes.len(),
    };
    let enough = has_room(derivation.parents.offsets.len(), derivation.begin, &room);
    match deriver_for(alloc, &derivation.creation, enough) {
        Ok(mut deriver) => {
            let rows = Rows {
                column: derivation.parents.column(),
                begin: derivation.begin,
            };
            answer_rows_large(&rows, &mut deriver, out, out_offsets, outcomes)
        }
        Err(outcome) => outcome,
    }
}

/// What new objects have in common, read.
#[derive(Drop)]
pub struct Children<'a> {
    pub creator: Option<SdView<'a>>,
    pub plan: Plan,
}

/// Derives one descriptor after the other, each of which is built in the buffer.
#[derive(Drop)]
pub struct Deriver<'a> {
    children: Children<'a>,
    buf: SdBuf,
}

impl<'a> AnswersRows for Deriver<'a> {
    ghost use Rattle.sd_call_access.specs.DerivedMany.{child_of};

    ghost answer = { λ s. child_of s.children.creator s.children.plan };

    fn give(&mut self, row: &[u8], output: &mut [u8]) -> Outcome {
        give_child(&self.children, row, &mut self.buf, output)
    }
}

// What derives from the parents, or why nothing does.
fn deriver_for<'a>(
    alloc: Global,
    creation: &Creation<'a>,
    enough: bool,
) -> Result<Deriver<'a>, Outcome>
    ensures exact { MatchResult result
        (λ deriver. children_for creation.now enough ≡ Ok deriver.children)
        (λ outcome. Refuses (children_for creation.now enough) outcome) }
    ensures room { IfOk result (λ _. IsTrue enough) }
{
    match children_for(creation, enough) {
        Ok(children) => match SdBuf::new(alloc) {
            Ok(buf) => Ok(Deriver { children, buf }),
            Err(refused) => Err(no_memory(refused)),
        },
        Err(fault) => Err(failed(fault)),
    }
}

// What the new objects have in common, if there is room for the answers.
fn children_for<'a>(creation: &Creation<'a>, enough: bool) -> Result<Children<'a>, CallFault>
    ensures exact { result ≡ children_for creation.now enough }
    ensures room { IfOk result (λ _. IsTrue enough) }
{
    let children = children_in(creation)?;
    if !enough {
        return Err(CallFault::Argument(Argument::Offsets, 0));
    }
    Ok(children)
}

#[tactic(auto, unfolding(crate::specs::DerivedMany::children_in))]
fn children_in<'a>(creation: &Creation<'a>) -> Result<Children<'a>, CallFault>
    ensures { result ≡ children_in creation.now }
{
    let plan = plan_in(
        creation.kind,
        creation.mapping,
        creation.owner,
        creation.group,
    )?;
    let creator = creator_in(creation.creator)?;
    Ok(Children { creator, plan })
}

// Gives the descriptor that derives from a parent. It is built in the buffer, whatever that holds.
#[tactic(auto, unfolding(crate::specs::DerivedMany::child_of))]
fn give_child(children: &Children<'_>, parent: &[u8], buf: &mut SdBuf, output: &mut [u8]) -> Outcome
    ensures { Answers (child_of children.now.creator children.now.plan parent.now) output.old output.new result }
{
    match descriptor_in(parent) {
        Ok(parent) => give_new(&parent, children, buf, output),
        Err(fault) => failed(fault),
    }
}

fn give_new(
    parent: &SdView<'_>,
    children: &Children<'_>,
    buf: &mut SdBuf,
    output: &mut [u8],
) -> Outcome
    ensures { Answers (new_layout
        record { parent = parent.now; creator = children.now.creator; plan = children.now.plan })
        output.old output.new result }
{
    match derive(parent, children.creator.as_ref(), &children.plan, buf) {
        Ok(()) => give(buf.bytes(), output),
        Err(fault) => failed(CallFault::Line(LineFault::Derive(fault))),
    }
}
