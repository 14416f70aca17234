//! The calls that say why each right is granted or denied.

ghost use Rattle.std.specs.Prelude.{◌≡◌, [], length, map, IfOk};
ghost use Rattle.sd_token.specs.Token.{Compares};
ghost use Rattle.sd_call_access.specs.Checks.{asker_of, call_bound};
ghost use Rattle.sd_call_access.specs.Reasons.{TellsNoReasons, TellsReasons, explained, explained_by, no_reasons};
ghost use Rattle.sd_call_access.specs.Reasons.{kind_of, outcome_without, place_of, reason_told, reasons_on, request_of};

use crate::access::check_arguments;
use crate::asker::{AskInput, AskerInput, ask_in, asker_in};
use crate::request::{Asker, MAXIMUM, Request};
use sd_call::{CallFault, Outcome, descriptor_in, done, failed, no_memory};
use sd_check::{Ask, Reason, reasons};
use sd_sink::NoMemory;
use sd_token::{LentToken, Memory, Token, TokenIn};

/// `struct sdtool_reason` of the header.
#[repr(C)]
#[derive(Clone, Copy)]
pub struct ReasonTold {
    /// 0 for nothing, 1 to 6 in the order of `Reason`.
    pub kind: u16,
    /// The place of an ACE, or 65,535.
    pub place: u16,
}

/// How many rights there are.
const RIGHTS: usize = 25;

/// No place of an ACE.
const NO_PLACE: u16 = 0xffff;

/// Why each right is granted or denied to a new token, which gets the SIDs.
pub fn explain_access(
    token: &mut Token,
    bytes: &[u8],
    input: &AskerInput<'_>,
    told: &mut [ReasonTold; RIGHTS],
) -> Outcome
    requires { token.old.holder.entries ≡ [] }
    ensures reasons { TellsReasons (explained bytes.now (asker_of input.now)) told.new result }
    ensures holder { IfOk (asker_of input.now) (λ asker. token.new.holder ≡ asker.0) }
    // No entry is compared more often than by the check.
    ensures bound { Compares token.old token.new (call_bound bytes.now (length token.new.holder.entries)) }
{
    tell(reasons_by(token, bytes, input), told)
}

/// The same where memory was refused for a token: a fault of the arguments is told all the same.
pub fn explain_without_token(
    refused: NoMemory,
    bytes: &[u8],
    input: &AskerInput<'_>,
    told: &mut [ReasonTold; RIGHTS],
) -> Outcome
    ensures { TellsNoReasons (explained bytes.now (asker_of input.now)) told.new result }
{
    tell_none(outcome_without(refused, bytes, input), told)
}

/// The same for a token that was read before.
pub fn explain_with_token(
    bytes: &[u8],
    token: &mut LentToken<'_>,
    input: &AskInput<'_>,
    told: &mut [ReasonTold; RIGHTS],
) -> Outcome
    ensures reasons { TellsReasons (explained_by bytes.now token.old.holder input.now.object.now
        input.now.principal_self.now input.now.request.now) told.new result }
    ensures holder { token.new.holder ≡ token.old.holder }
    // No entry is compared more often than by the check.
    ensures bound { Compares token.old token.new (call_bound bytes.now (length token.old.holder.entries)) }
{
    tell(reasons_held(bytes, token, input), told)
}

/// The request of somebody who asks for reasons: for all that is granted.
pub fn request_of(asker: &Asker) -> Request
    ensures { result ≡ request_of asker.now }
{
    Request {
        asker: *asker,
        wanted: 0,
        options: MAXIMUM,
    }
}

// Why there are no reasons, where memory was refused for a token.
fn outcome_without(refused: NoMemory, bytes: &[u8], input: &AskerInput<'_>) -> Outcome
    ensures { result ≡ outcome_without (explained bytes.now (asker_of input.now)) }
{
    match check_arguments(bytes, input) {
        Ok(()) => no_memory(refused),
        Err(fault) => failed(fault),
    }
}

// The reasons, for a new token that gets the SIDs.
fn reasons_by(
    token: &mut Token,
    bytes: &[u8],
    input: &AskerInput<'_>,
) -> Result<[Reason; RIGHTS], CallFault>
    requires { token.old.holder.entries ≡ [] }
    ensures reasons { result ≡ explained bytes.now (asker_of input.now) }
    ensures holder { IfOk (asker_of input.now) (λ asker. token.new.holder ≡ asker.0) }
    ensures bound { Compares token.old token.new (call_bound bytes.now (length token.new.holder.entries)) }
{
    let ask = asker_in(token, input)?;
    reasons_on(bytes, token, &ask)
}

// The reasons, for a token that was read before.
fn reasons_held(
    bytes: &[u8],
    token: &mut LentToken<'_>,
    input: &AskInput<'_>,
) -> Result<[Reason; RIGHTS], CallFault>
    ensures reasons { result ≡ explained_by bytes.now token.old.holder input.now.object.now
        input.now.principal_self.now input.now.request.now }
    ensures holder { token.new.holder ≡ token.old.holder }
    ensures bound { Compares token.old token.new (call_bound bytes.now (length token.old.holder.entries)) }
{
    let ask = ask_in(input)?;
    reasons_on(bytes, token, &ask)
}

// The reasons on the descriptor that some bytes show.
#[tactic(auto, unfolding(crate::specs::Reasons::reasons_on, crate::specs::Checks::call_bound))]
fn reasons_on<M: Memory>(
    bytes: &[u8],
    token: &mut TokenIn<M>,
    ask: &Ask,
) -> Result<[Reason; RIGHTS], CallFault>
    ensures reasons { result ≡ reasons_on bytes.now token.old.holder ask.now }
    ensures holder { token.new.holder ≡ token.old.holder }
    // No entry is compared more often than by the check.
    ensures bound { Compares token.old token.new (call_bound bytes.now (length token.old.holder.entries)) }
{
    let view = descriptor_in(bytes)?;
    Ok(reasons(&view, token, ask))
}

fn tell(answer: Result<[Reason; RIGHTS], CallFault>, told: &mut [ReasonTold; RIGHTS]) -> Outcome
    ensures { TellsReasons answer told.new result }
{
    match answer {
        Ok(reasons) => {
            tell_each(&reasons, told);
            done(RIGHTS)
        }
        Err(fault) => tell_none(failed(fault), told),
    }
}

fn tell_each(reasons: &[Reason; RIGHTS], told: &mut [ReasonTold; RIGHTS])
    ensures { told.new ≡ map reason_told reasons.now }
{
    for i in 0..RIGHTS {
        told[i] = reason_told(reasons[i]);
    }
}

/// The outcome, and no reason.
pub fn tell_none(outcome: Outcome, told: &mut [ReasonTold; RIGHTS]) -> Outcome
    ensures outcome { result ≡ outcome }
    ensures told { told.new ≡ no_reasons }
{
    *told = [reason_told(Reason::Nothing); RIGHTS];
    outcome
}

fn reason_told(reason: Reason) -> ReasonTold
    ensures { result ≡ reason_told reason }
{
    ReasonTold {
        kind: kind_of(reason),
        place: place_of(reason),
    }
}

fn kind_of(reason: Reason) -> u16
    ensures { result ≡ kind_of reason }
{
    match reason {
        Reason::Nothing => 0,
        Reason::Label(_) => 1,
        Reason::NoDacl => 2,
        Reason::Owner => 3,
        Reason::Privilege => 4,
        Reason::Granted(_) => 5,
        Reason::Denied(_) => 6,
    }
}

fn place_of(reason: Reason) -> u16
    ensures { result ≡ place_of reason }
{
    match reason {
        Reason::Label(place) => place.unwrap_or(NO_PLACE),
        Reason::Granted(place) | Reason::Denied(place) => place,
        _ => NO_PLACE,
    }
}
