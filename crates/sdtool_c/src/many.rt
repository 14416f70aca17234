//! The calls that check access to many descriptors.

ghost use Rattle.std.specs.Prelude.{take};
ghost use Rattle.sd_call_access.specs.Many.{AnswersColumn, AnswersMany};
ghost use Rattle.sd_call_columns.specs.Answered.{most_small};

use sd_call::Outcome;
use sd_call_access::{
    AskInput, AskerInput, Bytes, ColumnCheck, LargeColumnCheck, Request, VerdictOutcome,
    check_column, check_many,
};
use std::alloc::Global;

/// Says of each descriptor whether it grants a token what is asked for.
#[unsafe(no_mangle)]
pub extern "C" fn sdtool_check_many(
    alloc: Global,
    descriptors: &[Bytes<'_>],
    sids: &[u8],
    kinds: &[u8],
    object: &[u8],
    principal_self: &[u8],
    request: &Request,
    verdicts: &mut [VerdictOutcome],
) -> Outcome
    ensures { AnswersMany descriptors.now sids.now kinds.now object.now principal_self.now request.now
        verdicts.old verdicts.new result }
{
    let ask = AskInput {
        object,
        principal_self,
        request,
    };
    check_many(
        alloc,
        descriptors,
        &AskerInput { sids, kinds, ask },
        verdicts,
    )
}

/// The same for the rows of a column with offsets of 32 bits.
#[unsafe(no_mangle)]
pub extern "C" fn sdtool_check_column(
    alloc: Global,
    check: &ColumnCheck<'_>,
    verdicts: &mut [VerdictOutcome],
) -> Outcome
    ensures { AnswersColumn (take most_small check.now.descriptors.data.now) check.now.descriptors.offsets.now
        check.now.sids.now check.now.entries.now check.now.object.now check.now.principal_self.now check.now.request
        verdicts.old verdicts.new result }
{
    let ask = AskInput {
        object: check.object,
        principal_self: check.principal_self,
        request: &check.request,
    };
    let input = AskerInput {
        sids: check.sids,
        kinds: check.entries,
        ask,
    };
    check_column(alloc, &check.descriptors.column(), &input, verdicts)
}

/// The same for the rows of a column with offsets of 64 bits.
#[unsafe(no_mangle)]
pub extern "C" fn sdtool_check_column_large(
    alloc: Global,
    check: &LargeColumnCheck<'_>,
    verdicts: &mut [VerdictOutcome],
) -> Outcome
    ensures { AnswersColumn check.now.descriptors.data.now check.now.descriptors.offsets.now check.now.sids.now
        check.now.entries.now check.now.object.now check.now.principal_self.now check.now.request verdicts.old
        verdicts.new result }
{
    let ask = AskInput {
        object: check.object,
        principal_self: check.principal_self,
        request: &check.request,
    };
    let input = AskerInput {
        sids: check.sids,
        kinds: check.entries,
        ask,
    };
    check_column(alloc, &check.descriptors.column(), &input, verdicts)
}
