//! The call that says where the ACEs of a new descriptor come from.

ghost use Rattle.std.specs.Prelude.{◌≡◌, ◌≤◌};
ghost use Rattle.sd_call_access.specs.Derivations.{input_in};
ghost use Rattle.sd_call_access.specs.OriginsTold.{TellsOrigins, WritesOrigins, no_aces, nothing_derived, refused};
ghost use Rattle.sd_call_access.specs.OriginsTold.{with_counts};
ghost use Rattle.sd_call_access.specs.declared.origins.TheConstants.{MOST_DERIVED_ACES};

use crate::derivations::{DerivationInput, NewObject, input_in};
use sd_call::{CallFault, Outcome, done, failed, too_small};
use sd_faults::LineFault;
use sd_inherit::{AceCounts, AceOrigin, OriginFault, origins};

/// No ACL of a new descriptor has more ACEs: each has at least 16 bytes, and an ACL at most 65,535.
pub const MOST_DERIVED_ACES: usize = 4095;

/// How many ACEs of a new descriptor have an origin: `struct sdtool_origins` of the header.
#[repr(C)]
#[derive(Clone, Copy)]
pub struct OriginsOutcome {
    /// Its length is 0.
    pub outcome: Outcome,
    /// How many origins the SACL has, or needs room for.
    pub sacl_count: usize,
    /// How many origins the DACL has, or needs room for.
    pub dacl_count: usize,
}

/// Says of each ACE of the descriptor of a new object which ACE it was made of.
pub fn derive_origins(
    object: &NewObject<'_>,
    sacl: &mut [AceOrigin],
    dacl: &mut [AceOrigin],
) -> OriginsOutcome
    ensures origins { TellsOrigins (input_in object.now.parent.now object.now.creator.now object.now.owner.now
        object.now.group.now object.now.kind object.now.mapping)
        sacl.old sacl.new dacl.old dacl.new result }
    // So much room suffices for any arguments.
    ensures most { (result.sacl_count ≤ MOST_DERIVED_ACES) × (result.dacl_count ≤ MOST_DERIVED_ACES) }
{
    match input_in(object) {
        Ok(input) => write_origins(&input, sacl, dacl),
        Err(fault) => nothing_derived(fault),
    }
}

fn write_origins(
    input: &DerivationInput<'_>,
    sacl: &mut [AceOrigin],
    dacl: &mut [AceOrigin],
) -> OriginsOutcome
    ensures origins { WritesOrigins input.now sacl.old sacl.new dacl.old dacl.new result }
    ensures most { (result.sacl_count ≤ MOST_DERIVED_ACES) × (result.dacl_count ≤ MOST_DERIVED_ACES) }
{
    let creator = input.creator.as_ref();
    match origins(&input.parent, creator, &input.plan, sacl, dacl) {
        Ok(counts) => with_counts(done(0), counts),
        Err(fault) => refused(fault),
    }
}

fn refused(fault: OriginFault) -> OriginsOutcome
    ensures { result ≡ refused fault }
{
    match fault {
        OriginFault::Derive(fault) => nothing_derived(CallFault::Line(LineFault::Derive(fault))),
        OriginFault::TooSmall(counts) => with_counts(too_small(0), counts),
    }
}

fn nothing_derived(fault: CallFault) -> OriginsOutcome
    ensures { result ≡ nothing_derived fault }
{
    with_counts(failed(fault), AceCounts { sacl: 0, dacl: 0 })
}

fn with_counts(outcome: Outcome, counts: AceCounts) -> OriginsOutcome
    ensures { result ≡ with_counts outcome counts }
{
    OriginsOutcome {
        outcome,
        sacl_count: counts.sacl,
        dacl_count: counts.dacl,
    }
}
