//! The call that edits descriptors.

ghost use Rattle.std.specs.Prelude.{◌≡◌, ◌∷◌, [], ◌++◌, ℕ, List, not, length, IfOk, OnOk, MatchResult, None, Some};
ghost use Rattle.std.specs.List.{position};
ghost use Rattle.sd_call.specs.Outcomes.{Gives};
ghost use Rattle.sd_edit.specs.Edits.{EditsSplit, edit};
ghost use Rattle.sd_edit.specs.Shown.{AclsFit, shown};
ghost use Rattle.sd_view.specs.Layout.{layout};
ghost use Rattle.sd_call_edit.specs.Edit.{EditsTo, EditsWithin, Makes, changes_fault, changes_of, counted, input_in};
ghost use Rattle.sd_call_edit.specs.Edit.{is_change};

use crate::change_in::{is_change, shown_change};
use crate::input::ChangeInput;
use crate::layout::give_layout;
use sd_call::{Argument, CallFault, Outcome, descriptor_in, failed, no_memory};
use sd_edit::Edited;
use sd_sink::NoMemory;
use sd_view::SdView;
use std::alloc::Global;

/// The most changes of one call.
pub const MOST_CHANGES: usize = 16384;

/// Gives the layout of a descriptor with changes that are made one after the other, and says how many ACEs each of them
/// put, took or set.
#[tactic(auto, using(sd_edit::proofs::laws::EditLaws::edit_append))]
pub fn edit_descriptor(
    alloc: Global,
    bytes: &[u8],
    changes: &[ChangeInput],
    touched: &mut [u32],
    output: &mut [u8],
) -> Outcome
    ensures answer { EditsWithin (input_in bytes.now changes.now) (changes_of changes.now)
        touched.old touched.new output.old output.new result }
    // An edit by some changes and then by others is the edit by all.
    ensures split { EditsSplit }
{
    match input_in(bytes, changes) {
        Ok(view) => edit_view(alloc, &view, changes, touched, output),
        Err(fault) => failed(fault),
    }
}

// What is edited, if the changes can be.
fn input_in<'a>(bytes: &'a [u8], changes: &[ChangeInput]) -> Result<SdView<'a>, CallFault>
    ensures { result ≡ input_in bytes.now changes.now }
{
    check_changes(changes)?;
    descriptor_in(bytes)
}

// The first change that is none.
fn check_changes(changes: &[ChangeInput]) -> Result<(), CallFault>
    ensures { MatchResult result (λ _. changes_fault changes.now ≡ None)
        (λ f. changes_fault changes.now ≡ Some f) }
{
    if changes.len() > MOST_CHANGES {
        return Err(CallFault::Argument(Argument::Changes, 0));
    }
    match first_none(changes) {
        None => Ok(()),
        Some(entry) => Err(CallFault::Argument(Argument::Changes, entry)),
    }
}

fn first_none(changes: &[ChangeInput]) -> Option<usize>
    ensures { result ≡ position (λ c. not (is_change c)) changes.now }
{
    changes.iter().position(|change| !is_change(change))
}

fn edit_view(
    alloc: Global,
    view: &SdView<'_>,
    changes: &[ChangeInput],
    touched: &mut [u32],
    output: &mut [u8],
) -> Outcome
    ensures { EditsTo (edit (changes_of changes.now) view.now) touched.old touched.new output.old output.new result }
{
    match Edited::of(alloc, view) {
        Ok(mut edited) => edit_value(alloc, &mut edited, changes, touched, output),
        Err(refused) => no_memory(refused),
    }
}

fn edit_value(
    alloc: Global,
    edited: &mut Edited,
    changes: &[ChangeInput],
    touched: &mut [u32],
    output: &mut [u8],
) -> Outcome
    requires { AclsFit edited.old }
    ensures { EditsTo (edit (changes_of changes.now) (shown edited.old))
        touched.old touched.new output.old output.new result }
{
    match make_all(alloc, edited, changes, touched) {
        Ok(Ok(())) => give_layout(edited, output),
        Ok(Err(fault)) => failed(fault),
        Err(refused) => no_memory(refused),
    }
}

// Makes the changes, up to the first that can't be made.
fn make_all(
    alloc: Global,
    edited: &mut Edited,
    changes: &[ChangeInput],
    touched: &mut [u32],
) -> Result<Result<(), CallFault>, NoMemory>
    requires { AclsFit edited.old }
    ensures made { IfOk result (λ made. Makes (edit (changes_of changes.now) (shown edited.old))
        touched.old touched.new (shown edited.new) made) }
    ensures fits { IfOk result (λ made. OnOk made (AclsFit edited.new)) }
{
    for (i, change) in changes.iter().enumerate() {
        match edited.make(alloc, &shown_change(change))? {
            Ok(count) => note(touched, i, count),
            Err(fault) => return Ok(Err(CallFault::Change(fault, i))),
        }
    }
    Ok(Ok(()))
}

// Notes the count of a change, if there is room for it.
fn note(touched: &mut [u32], i: usize, count: u32)
    ensures { (counts before : List ℕ) → length counts ≡ i → touched.old ≡ counted counts before
        → touched.new ≡ counted (counts ++ count ∷ []) before }
{
    if i >= touched.len() {
        return;
    }
    touched[i] = count;
}
