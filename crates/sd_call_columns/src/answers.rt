//! The rows of a column are answered, each by itself.

ghost use Rattle.std.specs.Prelude.{◌≡◌, ◌≤◌, ◌<◌, ◌+◌, ◌^◌, ℕ, length, slice_index};
ghost use Rattle.sd_text.specs.Chains.{and_then};
ghost use Rattle.sd_call.specs.Columns.{numbers, row_between};
ghost use Rattle.sd_call.specs.Outcomes.{Answers};
ghost use Rattle.sd_call_columns.specs.Answered.{Answered, Ends, Holds, answers_by, lent, most_small, stopped};

use crate::ends::{write_ends, write_large_ends};
use sd_call::{Column, Outcome, done, failed, row_at, row_count, too_small};

/// What answers a row.
pub trait AnswersRows {
    ghost use Rattle.std.specs.Prelude.{ℕ, List, Result};
    ghost use Rattle.sd_call.specs.declared.outcome.CallFault.{CallFault};

    /// The answer to the bytes of a row, or their fault.
    ghost answer: { Self → List ℕ → Result (List ℕ) CallFault };

    /// Gives the answer to the bytes of a row. The next row is answered as if it was the first.
    fn give(&mut self, row: &[u8], output: &mut [u8]) -> Outcome
        ensures answers { Answers (answer self.old row.now) output.old output.new result }
        ensures same { answer self.new ≡ answer self.old };
}

/// A column whose rows are answered, the first answer to this place.
#[derive(Clone, Copy)]
pub struct Rows<'a> {
    pub column: Column<'a>,
    pub begin: usize,
}

/// How many rows are answered, and what the call tells.
#[derive(Clone, Copy)]
struct Ending {
    count: usize,
    outcome: Outcome,
}

/// Answers the rows as far as there is room, and tells where their answers end.
pub fn answer_rows<A: AnswersRows>(
    rows: &Rows<'_>,
    answerer: &mut A,
    out: &mut [u8],
    out_offsets: &mut [u32],
    outcomes: &mut [Outcome],
) -> Outcome
    requires small { length out.old ≤ most_small }
    requires some { 0 < length (numbers rows.now.column.offsets) }
    requires offsets { length (numbers rows.now.column.offsets) ≤ length out_offsets.old }
    requires outcomes { length (numbers rows.now.column.offsets) ≤ length outcomes.old + 1 }
    requires begin { rows.now.begin ≤ length out.old }
    ensures { (count : ℕ) × Answered (answers_by (A.answer answerer.old) rows.now.column.data.now
        (numbers rows.now.column.offsets)) rows.now.begin (lent out.old out_offsets.old outcomes.old)
        (lent out.new out_offsets.new outcomes.new) result count }
{
    let ending = give_rows(rows, answerer, out, outcomes);
    write_ends(rows.begin, &outcomes[..ending.count], out_offsets);
    ending.outcome
}

/// The same with offsets of 64 bits.
pub fn answer_rows_large<A: AnswersRows>(
    rows: &Rows<'_>,
    answerer: &mut A,
    out: &mut [u8],
    out_offsets: &mut [u64],
    outcomes: &mut [Outcome],
) -> Outcome
    requires fits { length out.old < 2 ^ 64 }
    requires some { 0 < length (numbers rows.now.column.offsets) }
    requires offsets { length (numbers rows.now.column.offsets) ≤ length out_offsets.old }
    requires outcomes { length (numbers rows.now.column.offsets) ≤ length outcomes.old + 1 }
    requires begin { rows.now.begin ≤ length out.old }
    ensures { (count : ℕ) × Answered (answers_by (A.answer answerer.old) rows.now.column.data.now
        (numbers rows.now.column.offsets)) rows.now.begin (lent out.old out_offsets.old outcomes.old)
        (lent out.new out_offsets.new outcomes.new) result count }
{
    let ending = give_rows(rows, answerer, out, outcomes);
    write_large_ends(rows.begin, &outcomes[..ending.count], out_offsets);
    ending.outcome
}

// Answers the rows, as far as there is room.
fn give_rows<A: AnswersRows>(
    rows: &Rows<'_>,
    answerer: &mut A,
    out: &mut [u8],
    outcomes: &mut [Outcome],
) -> Ending
    requires some { 0 < length (numbers rows.now.column.offsets) }
    requires room { length (numbers rows.now.column.offsets) ≤ length outcomes.old + 1 }
    requires begin { rows.now.begin ≤ length out.old }
    ensures held { Holds (answers_by (A.answer answerer.old) rows.now.column.data.now
        (numbers rows.now.column.offsets)) rows.now.begin out.old out.new outcomes.old outcomes.new result.count }
    ensures ending { Ends (answers_by (A.answer answerer.old) rows.now.column.data.now
        (numbers rows.now.column.offsets)) rows.now.begin (length out.old) result.count result.outcome }
{
    let mut at = rows.begin;
    let count = row_count(&rows.column);
    for i in 0..count {
        let room = out.len() - at;
        let outcome = give_row(&rows.column, i, answerer, &mut out[at..]);
        let size = outcome.length;
        // Only an answer that has no room tells a length beyond it.
        if size > room {
            return Ending {
                count: i,
                outcome: stopped(i, size),
            };
        }
        outcomes[i] = outcome;
        at += size;
    }
    Ending {
        count,
        outcome: done(at),
    }
}

// Gives the answer to the row at this place.
fn give_row<A: AnswersRows>(
    column: &Column<'_>,
    i: usize,
    answerer: &mut A,
    output: &mut [u8],
) -> Outcome
    requires { i + 1 < length (numbers column.now.offsets) }
    ensures answers { Answers (and_then (row_between column.now.data.now (slice_index (numbers column.now.offsets) i)
        (slice_index (numbers column.now.offsets) (i + 1))) (A.answer answerer.old)) output.old output.new result }
    ensures same { A.answer answerer.new ≡ A.answer answerer.old }
{
    match row_at(column, i) {
        Ok(bytes) => answerer.give(bytes, output),
        Err(fault) => failed(fault),
    }
}

// The output has no room for the answer of this row, which has so many bytes.
fn stopped(row: usize, size: usize) -> Outcome
    ensures { result ≡ stopped row size }
{
    Outcome {
        entry: row,
        ..too_small(size)
    }
}
