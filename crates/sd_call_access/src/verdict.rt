//! What an access check hands back.

ghost use Rattle.std.specs.Prelude.{◌≡◌};
ghost use Rattle.sd_call_access.specs.Checks.{told, untold};

use sd_call::{CallFault, Outcome, done, failed, no_memory};
use sd_check::Verdict;
use sd_sink::NoMemory;

/// What an access check hands back: `struct sdtool_verdict` of the header.
#[repr(C)]
#[derive(Clone, Copy)]
pub struct VerdictOutcome {
    /// Its length is 0.
    pub outcome: Outcome,
    /// The rights that are granted, or those that are missing.
    pub mask: u32,
    /// Whether each wanted right is granted.
    pub granted: bool,
}

/// The struct for an answer.
pub fn told(answer: Result<Verdict, CallFault>) -> VerdictOutcome
    ensures { result ≡ told answer }
{
    match answer {
        Ok(Verdict::Granted(mask)) => with_rights(done(0), mask, true),
        Ok(Verdict::Denied(mask)) => with_rights(done(0), mask, false),
        Err(fault) => with_rights(failed(fault), 0, false),
    }
}

/// An allocation was refused.
pub fn untold(refused: NoMemory) -> VerdictOutcome
    ensures { result ≡ untold }
{
    with_rights(no_memory(refused), 0, false)
}

// What a call hands back, with rights beside it.
fn with_rights(outcome: Outcome, mask: u32, granted: bool) -> VerdictOutcome
    ensures { result ≡ record { outcome = outcome; mask = mask; granted = granted } }
{
    VerdictOutcome {
        outcome,
        mask,
        granted,
    }
}
