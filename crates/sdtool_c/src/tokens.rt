//! The calls that read a token into memory of the caller, and check access with it.

ghost use Rattle.std.specs.Prelude.{◌≡◌, length, drop};
ghost use Rattle.sd_call_access.specs.Checks.{told};
ghost use Rattle.sd_call_access.specs.TokenMemory.{ReadsToken, checked_held, token_size};

use sd_call::Outcome;
use sd_call_access::{
    AskInput, Request, VerdictOutcome, check_with_token, read_token, token_held, told,
};

/// Reads a token into memory.
#[unsafe(no_mangle)]
pub extern "C" fn sdtool_token_read(sids: &[u8], kinds: &[u8], memory: &mut [u32]) -> Outcome
    ensures token { ReadsToken sids.now kinds.now memory.old memory.new result }
    ensures kept { drop (token_size (length kinds.now)) memory.new ≡ drop (token_size (length kinds.now)) memory.old }
{
    read_token(sids, kinds, memory)
}

/// Says whether a descriptor grants what is asked for to a token that was read.
#[unsafe(no_mangle)]
pub extern "C" fn sdtool_check_with(
    bytes: &[u8],
    memory: &[u32],
    object: &[u8],
    principal_self: &[u8],
    request: &Request,
) -> VerdictOutcome
    ensures { result ≡ told (checked_held bytes.now memory.now object.now principal_self.now request.now) }
{
    let ask = AskInput {
        object,
        principal_self,
        request,
    };
    match &mut token_held(memory, request) {
        Ok(token) => check_with_token(bytes, token, &ask),
        Err(fault) => told(Err(*fault)),
    }
}
