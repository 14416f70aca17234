//! Changes that are made one after the other.

ghost use Rattle.std.specs.Prelude.{◌≡◌, ◌++◌, ◌∷◌, [], IfOk, OnOk};
ghost use Rattle.sd_edit.specs.Edits.{EditsSplit, edit};
ghost use Rattle.sd_edit.specs.Shown.{AclsFit, EndsAs, shown};

use crate::change::Change;
use crate::edited::{ChangeFault, Edited};
use sd_sink::NoMemory;
use std::alloc::{AllocError, Global};

/// Makes changes, each of what those before left, up to the first that can't be made. For each that is made it appends
/// how many ACEs it put, took or set, so their number is that of the one that can't be.
#[tactic(auto, using(crate::proofs::laws::EditLaws::edit_append))]
pub fn edit(
    alloc: Global,
    edited: &mut Edited,
    changes: &[Change],
    counts: &mut Vec<u32>,
) -> Result<Result<(), ChangeFault>, NoMemory>
    requires { AclsFit edited.old }
    ensures made { IfOk result (λ made. EndsAs (edit changes.now (shown edited.old)).1 (shown edited.new) made) }
    ensures counts { IfOk result
        (λ made. counts.new.items ≡ counts.old.items ++ (edit changes.now (shown edited.old)).0) }
    ensures fits { IfOk result (λ made. OnOk made (AclsFit edited.new)) }
    // An edit by some changes and then by others is the edit by all.
    ensures split { EditsSplit }
{
    for change in changes {
        let made = edited.make(alloc, change)?;
        match made {
            Ok(count) => push_count(counts, count)?,
            Err(fault) => return Ok(Err(fault)),
        }
    }
    Ok(Ok(()))
}

fn push_count(counts: &mut Vec<u32>, count: u32) -> Result<(), NoMemory>
    ensures { OnOk result (counts.new.items ≡ counts.old.items ++ count ∷ []) }
{
    match counts.push(count) {
        Ok(()) => Ok(()),
        Err(refused) => Err(AllocError::from(refused).into()),
    }
}
