//! The calls that derive descriptors.

ghost use Rattle.std.specs.Prelude.{◌≤◌};
ghost use Rattle.sd_call.specs.Outcomes.{AnswersWithin};
ghost use Rattle.sd_call_access.specs.Derivations.{derivation, input_in};
ghost use Rattle.sd_call_access.specs.OriginsTold.{TellsOrigins};
ghost use Rattle.sd_call_access.specs.declared.origins.TheConstants.{MOST_DERIVED_ACES};

use sd_call::Outcome;
use sd_call_access::{
    AceOrigin, MOST_DERIVED_ACES, NewObject, OriginsOutcome, derive_new, derive_origins,
};
use std::alloc::Global;

/// Gives the descriptor of a new object.
#[unsafe(no_mangle)]
pub extern "C" fn sdtool_derive(
    alloc: Global,
    parent: &[u8],
    creator: &[u8],
    owner: &[u8],
    group: &[u8],
    kind: u32,
    mapping: u32,
    output: &mut [u8],
) -> Outcome
    // What cannot be derived from is told before memory is asked for.
    ensures { AnswersWithin (input_in parent.now creator.now owner.now group.now kind mapping)
        (derivation parent.now creator.now owner.now group.now kind mapping) output.old output.new result }
{
    let object = NewObject {
        parent,
        creator,
        owner,
        group,
        kind,
        mapping,
    };
    derive_new(alloc, &object, output)
}

/// Says of each ACE of the descriptor of a new object which ACE it was made of.
#[unsafe(no_mangle)]
pub extern "C" fn sdtool_derive_origins(
    parent: &[u8],
    creator: &[u8],
    owner: &[u8],
    group: &[u8],
    kind: u32,
    mapping: u32,
    sacl: &mut [AceOrigin],
    dacl: &mut [AceOrigin],
) -> OriginsOutcome
    ensures origins { TellsOrigins (input_in parent.now creator.now owner.now group.now kind mapping)
        sacl.old sacl.new dacl.old dacl.new result }
    // So much room suffices for any arguments.
    ensures most { (result.sacl_count ≤ MOST_DERIVED_ACES) × (result.dacl_count ≤ MOST_DERIVED_ACES) }
{
    let object = NewObject {
        parent,
        creator,
        owner,
        group,
        kind,
        mapping,
    };
    derive_origins(&object, sacl, dacl)
}
