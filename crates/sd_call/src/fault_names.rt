//! The names of faults.

ghost use Rattle.sd_call.specs.Outcomes.{Answers};
ghost use Rattle.sd_call.specs.FaultNames.{name_of};

use crate::argument::Argument;
use crate::outcome::{CallFault, Outcome, failed};
use crate::output::give;
use sd_faults::fault_name;

/// Gives the name of a fault, by its number.
#[tactic(auto, unfolding(crate::specs::FaultNames::name_of))]
pub fn fault_text(fault: u32, text: &mut [u8]) -> Outcome
    ensures { Answers (name_of fault) text.old text.new result }
{
    let name = fault_name(fault).as_bytes();
    if name.is_empty() {
        return failed(CallFault::Argument(Argument::Fault, 0));
    }
    give(name, text)
}
