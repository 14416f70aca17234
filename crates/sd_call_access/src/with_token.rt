//! The call that checks access with a token that was read before.

ghost use Rattle.std.specs.Prelude.{◌≡◌, length};
ghost use Rattle.sd_token.specs.Token.{Compares};
ghost use Rattle.sd_call_access.specs.Checks.{call_bound, told};
ghost use Rattle.sd_call_access.specs.TokenMemory.{checked_by};

use crate::access::verdict_on;
use crate::asker::{AskInput, ask_at_once};
use crate::verdict::{VerdictOutcome, told};
use sd_call::CallFault;
use sd_check::Verdict;
use sd_token::LentToken;

/// Says whether a descriptor grants a token what is asked for.
pub fn check_with_token(
    bytes: &[u8],
    token: &mut LentToken<'_>,
    input: &AskInput<'_>,
) -> VerdictOutcome
    ensures verdict { result ≡ told (checked_by bytes.now token.old.holder input.now.object.now
        input.now.principal_self.now input.now.request.now) }
    ensures holder { token.new.holder ≡ token.old.holder }
    // No entry is compared more often than by the program.
    ensures bound { Compares token.old token.new (call_bound bytes.now (length token.old.holder.entries)) }
{
    told(verdict_of(bytes, token, input))
}

fn verdict_of(
    bytes: &[u8],
    token: &mut LentToken<'_>,
    input: &AskInput<'_>,
) -> Result<Verdict, CallFault>
    ensures verdict { result ≡ checked_by bytes.now token.old.holder input.now.object.now
        input.now.principal_self.now input.now.request.now }
    ensures holder { token.new.holder ≡ token.old.holder }
    ensures bound { Compares token.old token.new (call_bound bytes.now (length token.old.holder.entries)) }
{
    let ask = ask_at_once(input)?;
    verdict_on(bytes, token, &ask)
}
