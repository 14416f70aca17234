//! Who asks, and what.

ghost use Rattle.std.specs.Prelude.{◌≡◌, [], Ok, Err, MatchResult};
ghost use Rattle.sd_call_access.specs.Checks.{ask_in, asker_of, fault_of, object_in};

use crate::request::{Request, SECURITY, TAKE_OWNERSHIP, has_option, is_maximum, options_in};
use crate::token::{check_entries, give_holder};
use sd_ace::guid_read;
use sd_call::{Argument, CallFault, mapping_in, optional_sid_in};
use sd_check::{Ask, Privileges};
use sd_token::Token;
use uuid::Uuid;

/// What is asked, as the caller says it.
#[derive(Clone, Copy)]
pub struct AskInput<'a> {
    /// The GUID of the object type, or nothing.
    pub object: &'a [u8],
    /// The SID of the principal in binary, or nothing.
    pub principal_self: &'a [u8],
    pub request: &'a Request,
}

/// Who asks, and what, as the caller says it.
#[derive(Clone, Copy)]
pub struct AskerInput<'a> {
    /// The SIDs of the token in binary, one after the other.
    pub sids: &'a [u8],
    /// A byte for each SID: 0 if it counts for each ACE, 1 if only for those that deny.
    pub kinds: &'a [u8],
    pub ask: AskInput<'a>,
}

/// Gives a new token its SIDs, and reads what is asked.
#[tactic(auto, unfolding(crate::specs::Checks::asker_in))]
pub fn asker_in(token: &mut Token, input: &AskerInput<'_>) -> Result<Ask, CallFault>
    requires { token.old.holder.entries ≡ [] }
    ensures asker { MatchResult result
        (λ ask. asker_of input.now ≡ Ok (token.new.holder, ask))
        (λ fault. asker_of input.now ≡ Err fault) }
    ensures compared { token.new.compared ≡ token.old.compared }
{
    give_holder(token, input.sids, input.kinds, input.ask.request)?;
    ask_in(&input.ask)
}

/// Why nothing is asked, told without a token.
#[tactic(auto, unfolding(crate::specs::Checks::asker_in))]
pub fn check_asker(input: &AskerInput<'_>) -> Result<(), CallFault>
    ensures { result ≡ fault_of (asker_of input.now) }
{
    check_entries(input.sids, input.kinds)?;
    ask_in(&input.ask)?;
    Ok(())
}

/// What is asked, or why nothing can be.
pub(crate) fn ask_in(input: &AskInput<'_>) -> Result<Ask, CallFault>
    ensures { result ≡ ask_in input.now.request.now input.now.object.now input.now.principal_self.now }
{
    ask_at_once(input)
}

/// The same for a call that does little else. Inlined there, since a call would copy what is asked twice more.
#[inline(always)]
#[tactic(auto, unfolding(crate::specs::Checks::ask_in))]
pub(crate) fn ask_at_once(input: &AskInput<'_>) -> Result<Ask, CallFault>
    ensures { result ≡ ask_in input.now.request.now input.now.object.now input.now.principal_self.now }
{
    let request = input.request;
    let mapping = mapping_in(request.asker.mapping)?;
    options_in(request)?;
    let object = object_in(input.object)?;
    let principal = optional_sid_in(Argument::PrincipalSelf, input.principal_self)?;
    let privileges = Privileges {
        security: has_option(request.asker.options, SECURITY),
        take_ownership: has_option(request.asker.options, TAKE_OWNERSHIP),
    };
    Ask::new(
        request.wanted,
        is_maximum(request),
        mapping,
        object,
        principal,
        privileges,
    )
    .map_err(CallFault::Ask)
}

// The object type, whose GUID has its bytes as they stand in an ACE.
#[tactic(auto, unfolding(crate::specs::Checks::object_in))]
fn object_in(bytes: &[u8]) -> Result<Option<Uuid>, CallFault>
    ensures { result ≡ object_in bytes.now }
{
    if bytes.is_empty() {
        return Ok(None);
    }
    match <&[u8; 16]>::try_from(bytes) {
        Ok(bytes) => Ok(Some(guid_read(bytes))),
        Err(_) => Err(CallFault::Argument(Argument::Object, 0)),
    }
}
