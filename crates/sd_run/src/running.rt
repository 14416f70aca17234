//! A run from the first read to the last flush.

ghost use Rattle.std.specs.Prelude.{◌≡◌, ◌⊎◌, ◌<◌, ◌≤◌, ◌^◌, length, true, IfOk, IsOk};
ghost use Rattle.sd_answer.specs.Answer.{AnswersAreShort};
ghost use Rattle.sd_run.specs.Lines.{AreBytes, LinesAreCut};
ghost use Rattle.sd_run.specs.Splits.{AnswersSplit};
ghost use Rattle.sd_run.specs.Inner.Running.{Closes, Feeds, HasRoom, RoseWithin, stands, ReadsPiece};
ghost use Rattle.sd_answer.specs.LineInHand.{IsReady};
ghost use Rattle.sd_run.specs.Outcome.{Outcome};

use crate::device::{Drain, Source};
use crate::engine::{Engine, Report, RunFault, RunState};
use crate::feed::{feed_all, finish};
use sd_answer::Task;
use sd_sink::SinkFault;
use sd_token::Token;

/// The reads of a run: a source that never ends is given up after so many.
const MOST_READS: u64 = 1 << 40;

/// The bytes that one read may give.
const PIECE: usize = 8192;

/// Reads lines to the end of the input and writes the answer to each.
///
/// The drain is flushed at the end of the input, and also after each read in which a line ended. So the answers to all
/// lines that have ended are handed on before more is read, and a caller who waits for an answer gets it.
///
/// A fault ends the run:
///
/// - `Read` (60): a read failed. The lines that an LF ended are answered and their answers handed on. The line in hand
///   is not answered.
/// - `Write` (61): a write or a flush failed. A prefix of the answers is written, and nothing after the failed call.
///   The run ends at the first answers that do not go out, not at the end of the input: only lines that end in the last
///   read, or with the input, can lack an answer.
/// - `TooManyReads` (62): 2^40 reads brought no end. What is answered is as after a failed read.
///
/// The engine can run again after any return. It starts with an empty line.
///
/// ```
/// let act = Act::Convert(OutputForm::Sddl);
/// let job = Job { line_form: Form::Hex, act, domain: None, numeric: false };
/// let mut engine = Engine::new(rt.alloc(), job).expect(&rt, "memory");
/// let mut token = Token::new(rt.alloc()).expect(&rt, "memory");
/// let mut lines = FromRead::new(b"0100049500000000000000000000000000000000\nzz\n".as_slice());
/// let mut out = Vec::new(rt.alloc());
/// let report = run(&mut engine, &mut token, &mut lines, &mut ToWrite::new(&mut out));
/// assert!(rt; report == Ok(Report { lines: 2, faults: 1 }));
/// assert!(rt; out.as_slice() == b"D:PARAINO_ACCESS_CONTROL\nerror 2 hex-digit\n".as_slice());
/// ```
pub fn run<R: Source, W: Drain>(
    engine: &mut Engine,
    token: &mut Token,
    source: &mut R,
    drain: &mut W,
) -> Result<Report, RunFault>
    ensures outcome { Outcome (2 ^ 40) engine.old
        (record { token = token.old; source = R.told source.old; drain = W.told drain.old })
        (record { token = token.new; source = R.told source.new; drain = W.told drain.new }) result }
    // At most eight characters a byte of the descriptor that a line prints, and 64, whatever bytes are read.
    ensures answers_are_short { AnswersAreShort engine.old token.old.holder }
    // The lines are cut at each LF and nowhere else.
    ensures lines_are_cut { LinesAreCut }
    // The answers to an input that is cut behind an LF are those to its pieces.
    ensures answers_split { AnswersSplit engine.old token.old.holder }
    // Its job and its creator.
    ensures task { engine.new ≡ engine.old }
    ensures holder { token.new.holder ≡ token.old.holder }
{
    run_at_most(engine, token, source, drain, MOST_READS)
}

/// The same as `run` with another limit of reads, so that a test can reach it.
pub fn run_at_most<R: Source, W: Drain>(
    engine: &mut Engine,
    token: &mut Token,
    source: &mut R,
    drain: &mut W,
    most: u64,
) -> Result<Report, RunFault>
    requires { most ≤ 2 ^ 40 }
    ensures outcome { Outcome most engine.old
        (record { token = token.old; source = R.told source.old; drain = W.told drain.old })
        (record { token = token.new; source = R.told source.new; drain = W.told drain.new }) result }
    ensures answers_are_short { AnswersAreShort engine.old token.old.holder }
    ensures task { engine.new ≡ engine.old }
    ensures holder { token.new.holder ≡ token.old.holder }
{
    // The creator's descriptor is read once, before the lines.
    let task = Task::new(engine.job, &engine.creator);
    let state = &mut engine.state;
    state.line.start(&task.job);
    state.report = Report {
        lines: 0,
        faults: 0,
    };
    let mut buf = [0u8; PIECE];
    for turn in 0..most {
        let n = read_piece(source, &mut buf)?;
        if n == 0 {
            close(&task, state, token, drain)?;
            return Ok(state.report);
        }
        answer_piece(&task, state, &buf[..n], token, drain)?;
    }
    Err(RunFault::TooManyReads)
}

// Reads a piece. Returns how many bytes it has: none at the end of the input.
fn read_piece<R: Source>(source: &mut R, buf: &mut [u8]) -> Result<usize, RunFault>
    requires room { 0 < length buf.old }
    ensures within { IfOk result (λ n. n ≤ length buf.new) }
    ensures read { ReadsPiece (R.told source.old) (R.told source.new) buf.new result }
{
    source.read(buf).map_err(|_| RunFault::Read)
}

// Answers the lines that end in a piece, and hands their answers on, so that they are out before more is read.
fn answer_piece<W: Drain>(
    task: &Task<'_>,
    state: &mut RunState,
    piece: &[u8],
    token: &mut Token,
    drain: &mut W,
) -> Result<(), SinkFault>
    requires ready { IsReady state.old.line }
    requires room { HasRoom state.old.report (length piece.now) }
    ensures fed { Feeds task.now piece.now (stands state.old token.old (W.told drain.old))
        (stands state.new token.new (W.told drain.new)) result }
    ensures bytes { AreBytes piece.now }
    ensures handed_on { IsOk result
        → ((W.told drain.new ≡ W.told drain.old) × (state.new.report.lines ≡ state.old.report.lines))
        ⊎ ((W.told drain.new).flushed ≡ true) }
    ensures ready { IsOk result → IsReady state.new.line }
    ensures rose { RoseWithin (length piece.now) state.old.report state.new.report }
{
    let a_line_ended = feed_all(task, state, piece, token, drain)?;
    if a_line_ended {
        drain.flush()?;
    }
    Ok(())
}

// The end of the input.
fn close<W: Drain>(
    task: &Task<'_>,
    state: &mut RunState,
    token: &mut Token,
    drain: &mut W,
) -> Result<(), SinkFault>
    requires ready { IsReady state.old.line }
    requires room { HasRoom state.old.report 1 }
    ensures closed { Closes task.now (stands state.old token.old (W.told drain.old))
        (stands state.new token.new (W.told drain.new)) result }
    ensures flushed { IsOk result → (W.told drain.new).flushed ≡ true }
{
    finish(task, state, token, drain)?;
    drain.flush()?;
    Ok(())
}
