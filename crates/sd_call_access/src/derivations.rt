//! The call that derives descriptors.

ghost use Rattle.std.specs.Prelude.{◌≡◌, MatchResult};
ghost use Rattle.sd_call.specs.Outcomes.{Answers, AnswersWithin, Refused};
ghost use Rattle.sd_call_access.specs.Derivations.{creator_in, derivation, input_in, new_layout, plan_in, target_in};

use sd_buffer::SdBuf;
use sd_call::{
    Argument, CallFault, Outcome, descriptor_in, failed, give, mapping_in, no_memory, sid_in,
};
use sd_faults::LineFault;
use sd_inherit::{Plan, Target, derive};
use sd_sink::NoMemory;
use sd_view::SdView;
use std::alloc::Global;

/// What a new object is derived from, as the caller says it.
#[derive(Clone, Copy)]
pub struct NewObject<'a> {
    pub parent: &'a [u8],
    /// The descriptor that the creator brings, or nothing.
    pub creator: &'a [u8],
    /// The SIDs of the creator in binary.
    pub owner: &'a [u8],
    pub group: &'a [u8],
    pub kind: u32,
    pub mapping: u32,
}

/// Gives the descriptor of a new object.
pub fn derive_new(alloc: Global, object: &NewObject<'_>, output: &mut [u8]) -> Outcome
    // What cannot be derived from is told before memory is asked for.
    ensures { AnswersWithin (input_in object.now.parent.now object.now.creator.now object.now.owner.now
        object.now.group.now object.now.kind object.now.mapping)
        (derivation object.now.parent.now object.now.creator.now object.now.owner.now object.now.group.now
        object.now.kind object.now.mapping) output.old output.new result }
{
    match input_in(object) {
        Ok(input) => give_derived(&input, SdBuf::new(alloc), output),
        Err(fault) => failed(fault),
    }
}

/// What the descriptor of a new object is derived from.
#[derive(Drop)]
pub struct DerivationInput<'a> {
    pub parent: SdView<'a>,
    pub creator: Option<SdView<'a>>,
    pub plan: Plan,
}

/// What the arguments derive from.
#[tactic(auto, unfolding(crate::specs::Derivations::input_in))]
pub fn input_in<'a>(object: &NewObject<'a>) -> Result<DerivationInput<'a>, CallFault>
    ensures { result ≡ input_in object.now.parent.now object.now.creator.now object.now.owner.now
        object.now.group.now object.now.kind object.now.mapping }
{
    let plan = plan_in(object.kind, object.mapping, object.owner, object.group)?;
    let creator = creator_in(object.creator)?;
    let parent = descriptor_in(object.parent)?;
    Ok(DerivationInput {
        parent,
        creator,
        plan,
    })
}

// Gives the new descriptor, unless memory was refused for a buffer.
fn give_derived(
    input: &DerivationInput<'_>,
    buf: Result<SdBuf, NoMemory>,
    output: &mut [u8],
) -> Outcome
    ensures { MatchResult buf
        (λ _. Answers (new_layout input.now) output.old output.new result)
        (λ _. Refused output.old output.new result) }
{
    match buf {
        Ok(mut buf) => give_derived_in(input, &mut buf, output),
        Err(refused) => no_memory(refused),
    }
}

// Gives the new descriptor. It is built in the buffer, whatever that holds.
fn give_derived_in(input: &DerivationInput<'_>, buf: &mut SdBuf, output: &mut [u8]) -> Outcome
    ensures { Answers (new_layout input.now) output.old output.new result }
{
    match derive(&input.parent, input.creator.as_ref(), &input.plan, buf) {
        Ok(()) => give(buf.bytes(), output),
        Err(fault) => failed(CallFault::Line(LineFault::Derive(fault))),
    }
}

/// What is made, for whom, and what its generic rights mean.
#[tactic(auto, unfolding(crate::specs::Derivations::plan_in))]
pub(crate) fn plan_in(
    kind: u32,
    mapping: u32,
    owner: &[u8],
    group: &[u8],
) -> Result<Plan, CallFault>
    ensures { result ≡ plan_in kind mapping owner.now group.now }
{
    let target = target_in(kind)?;
    let mapping = mapping_in(mapping)?;
    let owner = sid_in(Argument::Owner, owner)?;
    let group = sid_in(Argument::Group, group)?;
    Ok(Plan {
        target,
        owner,
        group,
        mapping,
    })
}

fn target_in(number: u32) -> Result<Target, CallFault>
    ensures { result ≡ target_in number }
{
    match number {
        0 => Ok(Target::File),
        1 => Ok(Target::Container),
        _ => Err(CallFault::Argument(Argument::Kind, 0)),
    }
}

/// The descriptor that the creator brings: none where the argument is empty.
#[tactic(auto, unfolding(crate::specs::Derivations::creator_in))]
pub(crate) fn creator_in(bytes: &[u8]) -> Result<Option<SdView<'_>>, CallFault>
    ensures { result ≡ creator_in bytes.now }
{
    if bytes.is_empty() {
        return Ok(None);
    }
    match descriptor_in(bytes) {
        Ok(view) => Ok(Some(view)),
        Err(_) => Err(CallFault::Argument(Argument::Creator, 0)),
    }
}
