//! The call that names faults.

ghost use Rattle.sd_call.specs.FaultNames.{name_of};
ghost use Rattle.sd_call.specs.Outcomes.{Answers};

use sd_call::{Outcome, fault_text};

/// Gives the name of a fault, by its number.
#[unsafe(no_mangle)]
pub extern "C" fn sdtool_fault_text(fault: u32, text: &mut [u8]) -> Outcome
    ensures { Answers (name_of fault) text.old text.new result }
{
    fault_text(fault, text)
}
