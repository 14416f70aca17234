//! The calls that check access with a new token.

ghost use Rattle.std.specs.Prelude.{◌≡◌, [], length, IfOk};
ghost use Rattle.sd_token.specs.Token.{Compares};
ghost use Rattle.sd_call_access.specs.Checks.{asker_of, call_bound, checked_for, fault_of, told, told_without_memory};
ghost use Rattle.sd_call_access.specs.Checks.{verdict_on};

use crate::asker::{AskerInput, asker_in, check_asker};
use crate::verdict::{VerdictOutcome, told, untold};
use sd_call::{CallFault, descriptor_in};
use sd_check::{Ask, Verdict, check};
use sd_sink::NoMemory;
use sd_token::{Memory, Token, TokenIn};

/// Says whether a descriptor grants a new token, which gets the SIDs, what is asked for.
pub fn check_access(token: &mut Token, bytes: &[u8], input: &AskerInput<'_>) -> VerdictOutcome
    requires { token.old.holder.entries ≡ [] }
    ensures verdict { result ≡ told (checked_for bytes.now input.now) }
    ensures holder { IfOk (asker_of input.now) (λ asker. token.new.holder ≡ asker.0) }
    // No entry is compared more often than by the program.
    ensures bound { Compares token.old token.new (call_bound bytes.now (length token.new.holder.entries)) }
{
    told(check_by(token, bytes, input))
}

/// The same where memory was refused for a token: a fault of the arguments is told all the same.
pub fn check_without_token(
    refused: NoMemory,
    bytes: &[u8],
    input: &AskerInput<'_>,
) -> VerdictOutcome
    ensures { result ≡ told_without_memory (checked_for bytes.now input.now) }
{
    match check_arguments(bytes, input) {
        Ok(()) => untold(refused),
        Err(fault) => told(Err(fault)),
    }
}

// Why there is no verdict, told without a token.
#[tactic(auto, unfolding(crate::specs::Checks::verdict_on))]
pub(crate) fn check_arguments(bytes: &[u8], input: &AskerInput<'_>) -> Result<(), CallFault>
    ensures { result ≡ fault_of (checked_for bytes.now input.now) }
{
    check_asker(input)?;
    descriptor_in(bytes)?;
    Ok(())
}

// The verdict, for a new token that gets the SIDs.
fn check_by(token: &mut Token, bytes: &[u8], input: &AskerInput<'_>) -> Result<Verdict, CallFault>
    requires { token.old.holder.entries ≡ [] }
    ensures verdict { result ≡ checked_for bytes.now input.now }
    ensures holder { IfOk (asker_of input.now) (λ asker. token.new.holder ≡ asker.0) }
    ensures bound { Compares token.old token.new (call_bound bytes.now (length token.new.holder.entries)) }
{
    let ask = asker_in(token, input)?;
    verdict_on(bytes, token, &ask)
}

/// The verdict on the descriptor that some bytes show.
#[tactic(auto, unfolding(crate::specs::Checks::verdict_on, crate::specs::Checks::call_bound))]
pub fn verdict_on<M: Memory>(
    bytes: &[u8],
    token: &mut TokenIn<M>,
    ask: &Ask,
) -> Result<Verdict, CallFault>
    ensures verdict { result ≡ verdict_on bytes.now token.old.holder ask.now }
    // So the token serves for another descriptor.
    ensures holder { token.new.holder ≡ token.old.holder }
    // No entry is compared more often than by the program.
    ensures bound { Compares token.old token.new (call_bound bytes.now (length token.old.holder.entries)) }
{
    let view = descriptor_in(bytes)?;
    Ok(check(&view, token, ask))
}
