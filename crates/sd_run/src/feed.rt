//! Splits the input at LFs and answers each line.

ghost use Rattle.std.specs.Prelude.{◌≡◌, ◌+◌, ◌<◌, ◌≤◌, ℕ, List, ◌++◌, [], ◌∷◌, length, ◌≢◌, slice_index, MatchResult};
ghost use Rattle.std.specs.Prelude.{IfOk, IsOk, Ok, false, true, not, ◌==◌, drop, take, unwrap_or, IfSome, SomeIndex};
ghost use Rattle.std.specs.List.{prefix_len};
ghost use Rattle.sd_sink.specs.Sink.{SinkTold};
ghost use Rattle.sd_token.specs.Token.{Compares, TokenShown};
ghost use Rattle.sd_answer.specs.Answer.{answer, bound, is_error};
ghost use Rattle.sd_run.specs.Lines.{has_lf};
ghost use Rattle.sd_answer.specs.LineEnd.{line_feed};
ghost use Rattle.sd_run.specs.Inner.Running.{Answered, Closes, Failed, Feeds, HasRoom, RoseWithin, stands};
ghost use Rattle.sd_answer.specs.LineInHand.{Holds, HoldsText, IsReady, PutsAnswer};
ghost use Rattle.sd_run.specs.Told.{sink_of};

use crate::device::Drain;
use crate::engine::RunState;
use crate::sink::DrainSink;
use sd_answer::{Line, Stores, Task, put_answer};
use sd_sink::SinkFault;
use sd_token::Token;
use std::simd::prelude::*;

/// The bytes that are passed over at once where no LF is among them. On long lines that is faster than 64.
const PASSED: usize = 128;

/// The bytes in which the first LF is found at once.
const BLOCK: usize = 64;

// Answers the line in hand, counts it, and begins the next.
fn answer_line<W: Drain>(
    task: &Task<'_>,
    state: &mut RunState,
    token: &mut Token,
    drain: &mut W,
) -> Result<(), SinkFault>
    requires ready { IsReady state.old.line }
    requires room { HasRoom state.old.report 1 }
    ensures answered { (token0 : TokenShown) (sink0 : SinkTold) (all : List (List ℕ)) (line : List ℕ)
        → HoldsText task.now.job state.old.line line
        → Answered task.now token0 sink0 all (stands state.old token.old (W.told drain.old))
        → MatchResult result
        (λ _. Answered task.now token0 sink0 (all ++ line ∷ []) (stands state.new token.new (W.told drain.new)))
        (λ _. Failed task.now token0 sink0 all (all ++ line ∷ []) (stands state.new token.new (W.told drain.new))) }
    ensures begun { IsOk result → Holds task.now.job state.new.line [] }
    ensures ready { IsOk result → IsReady state.new.line }
    ensures rose { RoseWithin 1 state.old.report state.new.report }
{
    let faulty = write_answer(task, &mut state.line, &mut state.stores, token, drain)?;
    state.line.start(&task.job);
    state.report.lines += 1;
    if faulty {
        state.report.faults += 1;
    }
    Ok(())
}

// Writes the answer to the line in hand, with its LF. Returns whether it is an `error` line.
fn write_answer<W: Drain>(
    task: &Task<'_>,
    line: &mut Line,
    stores: &mut Stores,
    token: &mut Token,
    drain: &mut W,
) -> Result<bool, SinkFault>
    requires { IsReady line.old }
    ensures put { (text : List ℕ) → HoldsText task.now.job line.old text
        → PutsAnswer (sink_of (W.told drain.old)) (sink_of (W.told drain.new))
        (answer task.now token.old.holder text) (is_error task.now token.old.holder text) result }
    ensures holder { token.new.holder ≡ token.old.holder }
    ensures compared { (text : List ℕ) → HoldsText task.now.job line.old text
        → Compares token.old token.new (bound task.now token.old.holder text) }
{
    let mut sink = DrainSink { drain };
    put_answer(task, line, stores, token, &mut sink)
}

/// Reads one more piece, wherever the input is cut. Returns whether a line ended in it. If none did, it writes nothing.
pub fn feed_all<W: Drain>(
    task: &Task<'_>,
    state: &mut RunState,
    piece: &[u8],
    token: &mut Token,
    drain: &mut W,
) -> Result<bool, SinkFault>
    requires ready { IsReady state.old.line }
    requires room { HasRoom state.old.report (length piece.now) }
    ensures fed { Feeds task.now piece.now (stands state.old token.old (W.told drain.old))
        (stands state.new token.new (W.told drain.new)) result }
    ensures ended { IfOk result (λ some. some ≡ has_lf piece.now) }
    ensures quiet { result ≡ Ok false → W.told drain.new ≡ W.told drain.old }
    ensures none_counted { result ≡ Ok false → state.new.report.lines ≡ state.old.report.lines }
    ensures ready { IsOk result → IsReady state.new.line }
    ensures rose { RoseWithin (length piece.now) state.old.report state.new.report }
{
    let mut start = 0;
    while let Some(n) = line_end(&piece[start..]) {
        state.line.take(&piece[start..start + n]);
        answer_line(task, state, token, drain)?;
        start += n + 1;
    }
    state.line.take(&piece[start..]);
    Ok(start > 0)
}

/// The place of the first LF. What has none is passed over in large blocks, and in what follows the LF is found without
/// a branch for each byte.
pub fn line_end(bytes: &[u8]) -> Option<usize>
    ensures found { IfSome result (λ n. (n < length bytes.now) × (slice_index bytes.now n ≡ line_feed)) }
    ensures before { (k : ℕ) → k < unwrap_or result (length bytes.now) → slice_index bytes.now k ≢ line_feed }
{
    let mut start = pass_blocks(bytes);
    while bytes.len() - start >= BLOCK {
        let before = before_lf(&bytes[start..start + BLOCK]);
        if before < BLOCK {
            return Some(start + before);
        }
        start += BLOCK;
    }
    match first_lf(&bytes[start..]) {
        Some(n) => Some(start + n),
        None => None,
    }
}

// How many bytes at the front stand in large blocks that have no LF, up to one that has one.
#[inline(always)]
fn pass_blocks(bytes: &[u8]) -> usize
    ensures within { result ≤ length bytes.now }
    ensures before { (k : ℕ) → k < result → slice_index bytes.now k ≢ line_feed }
    ensures ended { result + 128 ≤ length bytes.now
        → SomeIndex (take 128 (drop result bytes.now))
        (λ k. slice_index (take 128 (drop result bytes.now)) k ≡ line_feed) }
{
    let mut start = 0;
    while bytes.len() - start >= PASSED && !has_lf(&bytes[start..start + PASSED]) {
        start += PASSED;
    }
    start
}

// How many bytes of a block stand before its first LF, or all where it has none.
#[inline(always)]
fn before_lf(block: &[u8]) -> usize
    requires { length block.now ≡ 64 }
    ensures { result ≡ prefix_len (λ b. not (b == line_feed)) block.now }
{
    let lfs = u8x64::from_slice(block).simd_eq(u8x64::splat(b'\n'));
    lfs.to_bitmask().trailing_zeros() as usize
}

fn first_lf(bytes: &[u8]) -> Option<usize>
    ensures found { IfSome result (λ n. (n < length bytes.now) × (slice_index bytes.now n ≡ line_feed)) }
    ensures before { (k : ℕ) → k < unwrap_or result (length bytes.now) → slice_index bytes.now k ≢ line_feed }
{
    bytes.iter().position(|b| *b == b'\n')
}

// Whether an LF is among the bytes. It looks at all of them, and so at several at a time.
#[inline(always)]
fn has_lf(bytes: &[u8]) -> bool
    ensures none { result ≡ false → (k : ℕ) → k < length bytes.now → slice_index bytes.now k ≢ line_feed }
    ensures some { result ≡ true → SomeIndex bytes.now (λ k. slice_index bytes.now k ≡ line_feed) }
{
    let mut found = false;
    for b in bytes {
        found |= *b == b'\n';
    }
    found
}

/// Ends the input: what follows the last LF is a line unless it is empty.
pub fn finish<W: Drain>(
    task: &Task<'_>,
    state: &mut RunState,
    token: &mut Token,
    drain: &mut W,
) -> Result<(), SinkFault>
    requires ready { IsReady state.old.line }
    requires room { HasRoom state.old.report 1 }
    ensures finished { Closes task.now (stands state.old token.old (W.told drain.old))
        (stands state.new token.new (W.told drain.new)) result }
{
    if state.line.is_untouched() {
        return Ok(());
    }
    state.line.settle();
    answer_line(task, state, token, drain)
}
