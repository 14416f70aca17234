//! One token and one request, and many descriptors.

ghost use Rattle.std.specs.Prelude.{◌≡◌, ◌≤◌, ◌<◌, ◌++◌, [], length, drop, map, slice_index_or, IfOk};
ghost use Rattle.std.specs.Prelude.{MatchResult, Ok, Err};
ghost use Rattle.sd_token.specs.Token.{Compares};
ghost use Rattle.sd_call.specs.Columns.{numbers};
ghost use Rattle.sd_call_access.specs.Checks.{asker_of};
ghost use Rattle.sd_call_access.specs.Many.{AnswersColumn, AnswersMany, Judges, JudgesNone, given, judged_by};
ghost use Rattle.sd_call_access.specs.Many.{many_bound, row_bound, row_judged};
ghost use Rattle.sd_call_access.specs.declared.many.Descriptors.TheVariants.{List};

use crate::access::verdict_on;
use crate::asker::{AskerInput, asker_in, check_asker};
use crate::bytes::Bytes;
use crate::verdict::{VerdictOutcome, told};
use sd_call::{Argument, CallFault, Column, Outcome, done, failed, no_memory, row_at, too_small};
use sd_call_columns::offset_count;
use sd_check::Ask;
use sd_sink::NoMemory;
use sd_token::Token;
use std::alloc::Global;

/// Says of each descriptor whether it grants a token what is asked for. The token is read once.
pub fn check_many(
    alloc: Global,
    descriptors: &[Bytes<'_>],
    input: &AskerInput<'_>,
    verdicts: &mut [VerdictOutcome],
) -> Outcome
    ensures { AnswersMany descriptors.now input.now.sids.now input.now.kinds.now input.now.ask.object.now
        input.now.ask.principal_self.now input.now.ask.request.now verdicts.old verdicts.new result }
{
    if descriptors.len() > verdicts.len() {
        return too_small(descriptors.len());
    }
    let list = Descriptors::List(descriptors);
    judge_with(Token::new(alloc), &list, input, verdicts)
}

/// The same for the rows of a column.
pub fn check_column(
    alloc: Global,
    column: &Column<'_>,
    input: &AskerInput<'_>,
    verdicts: &mut [VerdictOutcome],
) -> Outcome
    ensures { AnswersColumn column.now.data.now (numbers column.now.offsets) input.now.sids.now input.now.kinds.now
        input.now.ask.object.now input.now.ask.principal_self.now input.now.ask.request.now verdicts.old verdicts.new
        result }
{
    let offsets = offset_count(column);
    if offsets == 0 {
        return failed(CallFault::Argument(Argument::Offsets, 0));
    }
    if offsets - 1 > verdicts.len() {
        return too_small(offsets - 1);
    }
    let rows = Descriptors::Rows(*column);
    judge_with(Token::new(alloc), &rows, input, verdicts)
}

/// Descriptors that are checked one after the other.
#[derive(Clone, Copy)]
pub enum Descriptors<'a> {
    List(&'a [Bytes<'a>]),
    Rows(Column<'a>),
}

// The verdicts of a new token. Where memory was refused for one, a fault of the arguments is told all the same.
fn judge_with(
    token: Result<Token, NoMemory>,
    descriptors: &Descriptors<'_>,
    input: &AskerInput<'_>,
    verdicts: &mut [VerdictOutcome],
) -> Outcome
    requires new { IfOk token (λ t. t.holder.entries ≡ []) }
    requires room { length (given descriptors.now) ≤ length verdicts.old }
    ensures { MatchResult token
        (λ _. Judges (given descriptors.now) (row_judged input.now.sids.now input.now.kinds.now
        input.now.ask.object.now input.now.ask.principal_self.now input.now.ask.request.now) (asker_of input.now)
        verdicts.old verdicts.new result)
        (λ _. JudgesNone (asker_of input.now) verdicts.old verdicts.new result) }
{
    match token {
        Ok(mut token) => match asker_in(&mut token, input) {
            Ok(ask) => {
                judge(descriptors, &mut token, &ask, verdicts);
                done(count_of(descriptors))
            }
            Err(fault) => failed(fault),
        },
        Err(refused) => match check_asker(input) {
            Ok(()) => no_memory(refused),
            Err(fault) => failed(fault),
        },
    }
}

// Writes the verdict on each descriptor.
fn judge(
    descriptors: &Descriptors<'_>,
    token: &mut Token,
    ask: &Ask,
    verdicts: &mut [VerdictOutcome],
)
    requires { length (given descriptors.now) ≤ length verdicts.old }
    ensures verdicts { verdicts.new ≡ map (judged_by token.old.holder ask.now) (given descriptors.now)
        ++ drop (length (given descriptors.now)) verdicts.old }
    ensures bound { Compares token.old token.new
        (many_bound (length token.old.holder.entries) (given descriptors.now)) }
{
    for i in 0..count_of(descriptors) {
        verdicts[i] = judge_one(descriptors, i, token, ask);
    }
}

fn judge_one(
    descriptors: &Descriptors<'_>,
    i: usize,
    token: &mut Token,
    ask: &Ask,
) -> VerdictOutcome
    requires { i < length (given descriptors.now) }
    ensures verdict { result ≡ judged_by token.old.holder ask.now
        (slice_index_or (given descriptors.now) i (Ok [])) }
    ensures holder { token.new.holder ≡ token.old.holder }
    ensures bound { Compares token.old token.new (row_bound (length token.old.holder.entries)
        (slice_index_or (given descriptors.now) i (Ok []))) }
{
    match bytes_at(descriptors, i) {
        Ok(bytes) => told(verdict_on(bytes, token, ask)),
        Err(fault) => told(Err(fault)),
    }
}

fn count_of(descriptors: &Descriptors<'_>) -> usize
    ensures { result ≡ length (given descriptors.now) }
{
    match descriptors {
        Descriptors::List(list) => list.len(),
        Descriptors::Rows(column) => offset_count(column).saturating_sub(1),
    }
}

// The bytes of the descriptor at this place, or the fault of its offsets.
fn bytes_at<'a>(descriptors: &Descriptors<'a>, i: usize) -> Result<&'a [u8], CallFault>
    requires { i < length (given descriptors.now) }
    ensures { let row = slice_index_or (given descriptors.now) i (Ok []) in
        MatchResult result (λ bytes. row ≡ Ok bytes.now) (λ fault. row ≡ Err fault) }
{
    match descriptors {
        Descriptors::List(list) => Ok(bytes_in(list, i)),
        Descriptors::Rows(column) => row_at(column, i),
    }
}

fn bytes_in<'a>(list: &[Bytes<'a>], i: usize) -> &'a [u8]
    requires { i < length list.now }
    ensures { slice_index_or (given (List list.entry)) i (Ok []) ≡ Ok result.now }
{
    list[i].bytes
}
