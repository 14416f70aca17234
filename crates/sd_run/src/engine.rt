//! The engine, which has every buffer of a run.

ghost use Rattle.std.specs.Prelude.{◌≡◌, IfOk, MatchResult, None, Some, Ok, Err};
ghost use Rattle.sd_sddl_builder.specs.Meaning.{means};
ghost use Rattle.sd_answer.specs.Answer.{answer, bound, is_error};
ghost use Rattle.sd_answer.specs.LineInHand.{PutsAnswer};
ghost use Rattle.sd_answer.specs.Task.{IsDerivation};
ghost use Rattle.sd_token.specs.Token.{Compares};
ghost use Rattle.sd_run.specs.declared.engine.RunFault.TheVariants.{Write};

use sd_answer::{Job, Line, Stores, Task, put_answer};
use sd_buffer::{SdBuf, TextBuf};
use sd_sddl_builder::SddlFault;
use sd_sddl_reader::read_sddl;
use sd_sink::{NoMemory, Sink, SinkFault};
use sd_token::Token;
use std::alloc::Global;
use std::marker::Model;
use thiserror::Error;

/// How many lines were answered, empty ones too, and how many of them by an `error` line.
#[derive(Clone, Copy, Debug, PartialEq, Eq)]
pub struct Report {
    pub lines: u64,
    pub faults: u64,
}

/// Why a run ended before the end of its input, or before its answers were handed on.
#[derive(Clone, Copy, Debug, PartialEq, Eq, Error)]
pub enum RunFault {
    /// 60: a read failed.
    #[error("60 read")]
    Read,
    /// 61: a write or a flush failed.
    #[error("61 write")]
    Write,
    /// 62: 2^40 reads brought no end.
    #[error("62 too-many-reads")]
    TooManyReads,
}

impl From<SinkFault> for RunFault {
    ghost from_gives = { λ _ fault. fault ≡ Write };

    fn from(_fault: SinkFault) -> RunFault {
        RunFault::Write
    }
}

/// What a run works with: its job, the creator's descriptor if there is one, and memory that was allocated before the
/// first read. That is three buffers of a descriptor's 131,226 bytes, one of a base64 line's 174,968, and arrays.
#[derive(Drop)]
pub struct Engine {
    pub(crate) job: Job,
    // The bytes of the creator's descriptor, or none.
    pub(crate) creator: SdBuf,
    pub(crate) state: RunState,
}

impl Model for Engine {
    ghost use Rattle.std.specs.Result.{result_ok};
    ghost use Rattle.sd_view.specs.Reading.{reading};
    ghost use Rattle.sd_answer.specs.declared.job.Task.{Task};

    ghost Value = { Task };

    // The creator's descriptor is the one that the bytes of its buffer show.
    ghost view = { λ e. record { job = e.job; creator = result_ok (reading e.creator) } };
}

impl Engine {
    /// All that a run needs is reserved here. There is no creator.
    pub fn new(alloc: Global, job: Job) -> Result<Engine, NoMemory>
        ensures task { IfOk result (λ engine. engine ≡ record { job = job; creator = None }) }
    {
        let read = SdBuf::new(alloc)?;
        let written = SdBuf::new(alloc)?;
        let creator = SdBuf::new(alloc)?;
        let held = TextBuf::new(alloc)?;
        Ok(Engine::over(job, read, written, creator, held))
    }

    /// An engine over these buffers, whatever they hold: the bytes of a line's descriptor, those of the one that is
    /// printed, those of the creator's, and the text of a line of base64. There is no creator. It takes no memory.
    pub fn over(job: Job, read: SdBuf, written: SdBuf, mut creator: SdBuf, held: TextBuf) -> Engine
        ensures task { result ≡ record { job = job; creator = None } }
    {
        creator.clear();
        Engine {
            job,
            creator,
            state: RunState {
                line: Line::over(&job, read, held),
                stores: Stores::over(written),
                report: Report {
                    lines: 0,
                    faults: 0,
                },
            },
        }
    }

    /// Gives the engine the creator's descriptor, in SDDL with the aliases of the job's domain. It stays over runs.
    /// After a refusal, by the first fault of the text, the engine has no creator. It takes no memory.
    pub fn set_creator(&mut self, text: &[u8]) -> Result<(), SddlFault>
        requires { IsDerivation self.old.job.act }
        ensures creator { MatchResult (means text.now self.old.job.domain)
            (λ d. (result ≡ Ok tt) × (self.new.creator ≡ Some d))
            (λ fault. (result ≡ Err fault) × (self.new.creator ≡ None)) }
        ensures job { self.new.job ≡ self.old.job }
    {
        let domain = self.job.domain;
        read_sddl(text, domain.as_ref(), &mut self.creator)
    }

    /// Puts the answer to one line, with its LF. Returns whether it is an `error` line. The creator's descriptor is
    /// read for each line, so `run` is faster for many. It takes no memory.
    ///
    /// ```
    /// let act = Act::Convert(OutputForm::Sddl);
    /// let job = Job { line_form: Form::Hex, act, domain: None, numeric: false };
    /// let mut engine = Engine::new(rt.alloc(), job).expect(&rt, "memory");
    /// let mut token = Token::new(rt.alloc()).expect(&rt, "memory");
    /// let mut sink = TextSink::new(&rt);
    /// assert!(rt; engine.answer(b"zz", &mut token, &mut sink) == Ok(true));
    /// assert!(rt; sink.bytes() == b"error 2 hex-digit\n".as_slice());
    /// ```
    pub fn answer<S: Sink>(
        &mut self,
        line: &[u8],
        token: &mut Token,
        sink: &mut S,
    ) -> Result<bool, SinkFault>
        ensures put { PutsAnswer (S.told sink.old) (S.told sink.new) (answer self.old token.old.holder line.now)
            (is_error self.old token.old.holder line.now) result }
        ensures task { self.new ≡ self.old }
        ensures holder { token.new.holder ≡ token.old.holder }
        ensures compared { Compares token.old token.new (bound self.old token.old.holder line.now) }
    {
        let task = Task::new(self.job, &self.creator);
        answer_text(&task, &mut self.state, line, token, sink)
    }
}

// The line in hand, what its answer is made in, and what was counted.
#[derive(Drop)]
pub struct RunState {
    pub line: Line,
    pub stores: Stores,
    pub report: Report,
}

// Answers one line, whatever was in hand.
fn answer_text<S: Sink>(
    task: &Task<'_>,
    state: &mut RunState,
    line: &[u8],
    token: &mut Token,
    sink: &mut S,
) -> Result<bool, SinkFault>
    ensures put { PutsAnswer (S.told sink.old) (S.told sink.new) (answer task.now token.old.holder line.now)
        (is_error task.now token.old.holder line.now) result }
    ensures holder { token.new.holder ≡ token.old.holder }
    ensures compared { Compares token.old token.new (bound task.now token.old.holder line.now) }
{
    state.line.start(&task.job);
    state.line.take(line);
    state.line.settle();
    put_answer(task, &mut state.line, &mut state.stores, token, sink)
}
