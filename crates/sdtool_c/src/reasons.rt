//! The calls that say why each right is granted or denied.

ghost use Rattle.std.specs.Prelude.{◌⊎◌};
ghost use Rattle.sd_call_access.specs.Checks.{asker_in};
ghost use Rattle.sd_call_access.specs.Reasons.{TellsNoReasons, TellsReasons, explained, explained_held, request_of};

use sd_call::{Outcome, failed};
use sd_call_access::{
    AskInput, Asker, AskerInput, ReasonTold, explain_access, explain_with_token,
    explain_without_token, request_of, tell_none, token_held,
};
use sd_token::Token;
use std::alloc::Global;

/// Says why each right is granted or denied to a token.
#[unsafe(no_mangle)]
pub extern "C" fn sdtool_reasons<'a>(
    alloc: Global,
    bytes: &[u8],
    sids: &'a [u8],
    kinds: &'a [u8],
    object: &'a [u8],
    principal_self: &'a [u8],
    asker: &Asker,
    reasons: &mut [ReasonTold; 25],
) -> Outcome
    ensures { TellsReasons (explained bytes.now
        (asker_in sids.now kinds.now object.now principal_self.now (request_of asker.now))) reasons.new result
        ⊎ TellsNoReasons (explained bytes.now
        (asker_in sids.now kinds.now object.now principal_self.now (request_of asker.now))) reasons.new result }
{
    let ask = AskInput {
        object,
        principal_self,
        request: &request_of(asker),
    };
    let input = AskerInput { sids, kinds, ask };
    match Token::new(alloc) {
        Ok(mut token) => explain_access(&mut token, bytes, &input, reasons),
        Err(refused) => explain_without_token(refused, bytes, &input, reasons),
    }
}

/// The same for a token that was read.
#[unsafe(no_mangle)]
pub extern "C" fn sdtool_reasons_with<'a>(
    bytes: &[u8],
    memory: &[u32],
    object: &'a [u8],
    principal_self: &'a [u8],
    asker: &Asker,
    reasons: &mut [ReasonTold; 25],
) -> Outcome
    ensures { TellsReasons (explained_held bytes.now memory.now object.now principal_self.now (request_of asker.now))
        reasons.new result }
{
    let ask = AskInput {
        object,
        principal_self,
        request: &request_of(asker),
    };
    match &mut token_held(memory, ask.request) {
        Ok(token) => explain_with_token(bytes, token, &ask, reasons),
        Err(fault) => tell_none(failed(*fault), reasons),
    }
}
