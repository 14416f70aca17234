//! The calls that edit descriptors, and say whether their ACLs are in order.

ghost use Rattle.std.specs.Prelude.{◌≡◌};
ghost use Rattle.sd_edit.specs.Edits.{EditsSplit};
ghost use Rattle.sd_call_edit.specs.Edit.{EditsWithin, changes_of, input_in};
ghost use Rattle.sd_call_edit.specs.OrderTold.{order_told};

use sd_call::Outcome;
use sd_call_edit::{ChangeInput, OrderTold, edit_descriptor, order_of};
use std::alloc::Global;

/// Gives a descriptor after changes that are made one after the other.
#[unsafe(no_mangle)]
pub extern "C" fn sdtool_edit(
    alloc: Global,
    bytes: &[u8],
    changes: &[ChangeInput],
    touched: &mut [u32],
    output: &mut [u8],
) -> Outcome
    ensures answer { EditsWithin (input_in bytes.now changes.now) (changes_of changes.now)
        touched.old touched.new output.old output.new result }
    // An edit by some changes and then by others is the edit by all.
    ensures split { EditsSplit }
{
    edit_descriptor(alloc, bytes, changes, touched, output)
}

/// Says whether the ACLs of a descriptor are in order.
#[unsafe(no_mangle)]
pub extern "C" fn sdtool_order(bytes: &[u8]) -> OrderTold
    ensures { result ≡ order_told bytes.now }
{
    order_of(bytes)
}
