//! The call that builds descriptors.

ghost use Rattle.std.specs.Prelude.{◌≡◌, ◌+◌, None, Some, OnOk, MatchResult};
ghost use Rattle.std.specs.List.{AllPass};
ghost use Rattle.sd_view.specs.Layout.{layout};
ghost use Rattle.sd_call.specs.Outcomes.{Answers, Gives};
ghost use Rattle.sd_call_build.specs.Build.{acl_fault, built, new_fault, sid_fault};
ghost use Rattle.sd_call_build.specs.New.{AreSmall, is_ace, new_descriptor, part_sizes, wrong_ace};

use crate::layout::put_new;
use crate::new::{LIST, NewAcl, NewDescriptor};
use crate::reading::{first_wrong, is_wrong_sid};
use crate::sizes::part_sizes;
use sd_call::{Argument, CallFault, Front, Outcome, done, failed, too_small};
use sd_faults::LineFault;
use sd_parts::{HEADER_SIZE, Parts};
use sd_sddl_builder::SddlFault;

/// Gives the layout of a new descriptor.
#[tactic(auto, unfolding(crate::specs::Build::built))]
pub fn build_descriptor(new: &NewDescriptor<'_>, output: &mut [u8]) -> Outcome
    ensures { Answers (built new.now) output.old output.new result }
{
    if let Err(fault) = check_new(new) {
        return failed(fault);
    }
    match part_sizes(new) {
        Ok(sizes) => give_new(new, &sizes, output),
        Err(which) => failed(CallFault::Line(LineFault::Sddl(SddlFault::AclTooLarge(which)))),
    }
}

// The first argument that is none, in the order of the parts.
#[tactic(auto, unfolding(crate::specs::Build::new_fault))]
fn check_new(new: &NewDescriptor<'_>) -> Result<(), CallFault>
    ensures fault { MatchResult result (λ _. new_fault new.now ≡ None) (λ f. new_fault new.now ≡ Some f) }
    ensures sacl { OnOk result (AllPass is_ace new.now.sacl.aces.now) }
    ensures dacl { OnOk result (AllPass is_ace new.now.dacl.aces.now) }
{
    check_sid(Argument::Owner, new.owner)?;
    check_sid(Argument::Group, new.group)?;
    check_acl(Argument::Sacl, &new.sacl)?;
    check_acl(Argument::Dacl, &new.dacl)
}

fn check_sid(argument: Argument, bytes: &[u8]) -> Result<(), CallFault>
    ensures { MatchResult result (λ _. sid_fault argument bytes.now ≡ None)
        (λ f. sid_fault argument bytes.now ≡ Some f) }
{
    if is_wrong_sid(bytes) {
        return Err(CallFault::Argument(argument, 0));
    }
    Ok(())
}

#[tactic(auto, using(crate::proofs::NewLemmas::all_aces))]
fn check_acl(argument: Argument, acl: &NewAcl<'_>) -> Result<(), CallFault>
    ensures fault { MatchResult result (λ _. acl_fault argument acl.now ≡ None)
        (λ f. acl_fault argument acl.now ≡ Some f) }
    ensures aces { OnOk result (AllPass is_ace acl.now.aces.now) }
{
    match wrong_ace(acl) {
        None => Ok(()),
        Some(entry) => Err(CallFault::Argument(argument, entry)),
    }
}

fn wrong_ace(acl: &NewAcl<'_>) -> Option<usize>
    ensures { result ≡ wrong_ace acl.now }
{
    if acl.state == LIST {
        return first_wrong(acl.aces);
    }
    if acl.state < LIST && acl.aces.is_empty() {
        return None;
    }
    Some(0)
}

// Gives the layout of a descriptor that can be, whose parts have these sizes.
fn give_new(new: &NewDescriptor<'_>, sizes: &Parts<u32>, output: &mut [u8]) -> Outcome
    requires sacl { AllPass is_ace new.now.sacl.aces.now }
    requires dacl { AllPass is_ace new.now.dacl.aces.now }
    requires sizes { sizes.now ≡ part_sizes (new_descriptor new.now) }
    requires small { AreSmall sizes.now }
    ensures { Gives (layout (new_descriptor new.now)) output.old output.new result }
{
    let size = whole_size(sizes);
    let mut sink = Front {
        cells: output,
        held: 0,
        failures: 0,
    };
    match put_new(new, sizes, &mut sink) {
        Ok(()) => done(size),
        Err(_) => too_small(size),
    }
}

/// The size of a layout whose parts have these sizes.
pub fn whole_size(sizes: &Parts<u32>) -> usize
    requires { AreSmall sizes.now }
    ensures { result ≡ 20 + sizes.now.owner + sizes.now.group + sizes.now.sacl + sizes.now.dacl }
{
    HEADER_SIZE + (sizes.owner + sizes.group + sizes.sacl + sizes.dacl) as usize
}
