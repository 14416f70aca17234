//! The call that checks access.

ghost use Rattle.sd_call_access.specs.Checks.{Tells, checked};

use sd_call_access::{
    AskInput, AskerInput, Request, VerdictOutcome, check_access, check_without_token,
};
use sd_token::Token;
use std::alloc::Global;

/// Says whether a descriptor grants a token what is asked for.
#[unsafe(no_mangle)]
pub extern "C" fn sdtool_check(
    alloc: Global,
    bytes: &[u8],
    sids: &[u8],
    kinds: &[u8],
    object: &[u8],
    principal_self: &[u8],
    request: &Request,
) -> VerdictOutcome
    ensures { Tells (checked bytes.now sids.now kinds.now object.now principal_self.now request.now) result }
{
    let ask = AskInput {
        object,
        principal_self,
        request,
    };
    let input = AskerInput { sids, kinds, ask };
    match Token::new(alloc) {
        Ok(mut token) => check_access(&mut token, bytes, &input),
        Err(refused) => check_without_token(refused, bytes, &input),
    }
}
