//! The whole program over a reader and two writers.
ghost use Rattle.std.specs.Prelude.{◌≡◌, Err, IfOk, MatchResult, Ok, true, map, codes};
ghost use Rattle.std.specs.String.{string_bytes};
ghost use Rattle.clap.specs.Words.{subcommand_rows_of, takes};
ghost use Rattle.sd_command.specs.CommandLine.{line};
ghost use Rattle.sd_command.specs.Endings as ends;
ghost use Rattle.sd_command.specs.Preparing as steps;
ghost use Rattle.sd_command.specs.Settings.{nobody, settings};
ghost use Rattle.sd_command.specs.FaultLines.{fault_line};
ghost use Rattle.sd_command.specs.declared.parse.EarlyEnd.TheVariants as early;
ghost use Rattle.sd_command.specs.declared.program.Stop.TheVariants.{Early};

use crate::derive_settings::give_creator;
use crate::fault_lines::{NO_MEMORY_LINE, USAGE_LINE};
use crate::parse::{EarlyEnd, parse_words};
use crate::settings::{UsageFault, choose};
use crate::statuses::{
    ANSWERED_STATUS, FAILED_STATUS, FAULTY_STATUS, NO_MEMORY_STATUS, USAGE_STATUS,
};
use clap::ArgMatches;
use sd_buffer::{SdBuf, TextBuf};
use sd_run::{Drain, Engine, RunFault, Source, run, write_whole};
use sd_sink::NoMemory;
use sd_token::Token;
use std::alloc::Global;

/// Reads the words, answers the input, and returns the exit status: 0; 1 if a line was answered by an `error` line;
/// 2 if the words are wrong; 3 after a fault of the run; 4 if memory ran out before the first read. Statuses 2 to 4
/// come with a message on the fault stream.
///
/// ```
/// let mut words = Vec::new(rt.alloc());
/// for word in ["sdtool", "convert", "--from", "sddl", "--numeric", "--domain", "S-1-5-21-1-2-3"] {
///     let word = String::from_str(rt.alloc(), word).expect(&rt, "memory");
///     assert!(rt; words.push(word).is_ok());
/// }
/// let mut lines = FromRead::new(b"O:DA\n".as_slice());
/// let (mut out, mut err) = (Vec::new(rt.alloc()), Vec::new(rt.alloc()));
/// let (mut answers, mut faults) = (ToWrite::new(&mut out), ToWrite::new(&mut err));
/// assert!(rt; command(rt.alloc(), words, &mut lines, &mut answers, &mut faults) == 0);
/// assert!(rt; out.as_slice() == b"O:S-1-5-21-1-2-3-512\n".as_slice() && err.is_empty());
/// ```
pub fn command<R: Source, W: Drain, E: Drain>(
    alloc: Global,
    words: Vec<String>,
    input: &mut R,
    output: &mut W,
    faults: &mut E,
) -> u8
    // Where the command line takes the words.
    ensures taken { takes line (map string_bytes words.items) ≡ true → ends.EndsTaken (map string_bytes words.items)
        (record { source = R.told input.old; output = W.told output.old; faults = E.told faults.old })
        (record { source = R.told input.new; output = W.told output.new; faults = E.told faults.new }) result }
    // On any words.
    ensures kinds { ends.EndsBy (map string_bytes words.items)
        (record { source = R.told input.old; output = W.told output.old; faults = E.told faults.old })
        (record { source = R.told input.new; output = W.told output.new; faults = E.told faults.new }) result }
    ensures idle { ends.IsIdleAt result
        (record { source = R.told input.old; output = W.told output.old; faults = E.told faults.old })
        (record { source = R.told input.new; output = W.told output.new; faults = E.told faults.new }) }
    ensures memory { result ≡ 4 → ends.Says (fault_line (codes "no memory")) (E.told faults.old) (E.told faults.new) }
{
    end(prepare(alloc, words.as_slice()), input, output, faults)
}

/// All that a run takes.
#[derive(Drop)]
pub struct Prepared {
    pub engine: Engine,
    pub token: Token,
}

// The memory of a run, before it is known what is asked.
#[derive(Drop)]
struct Memory {
    token: Token,
    read: SdBuf,
    written: SdBuf,
    creator: SdBuf,
    held: TextBuf,
}

impl Memory {
    // Apart, so that what is moved on the way takes no stack while a run is prepared.
    #[inline(never)]
    fn new(alloc: Global) -> Result<Memory, NoMemory>
        ensures { IfOk result (λ memory. (memory.token.holder ≡ nobody) × (memory.token.compared ≡ 0)) }
    {
        let token = Token::new(alloc)?;
        let read = SdBuf::new(alloc)?;
        let written = SdBuf::new(alloc)?;
        let creator = SdBuf::new(alloc)?;
        let held = TextBuf::new(alloc)?;
        Ok(Memory {
            token,
            read,
            written,
            creator,
            held,
        })
    }
}

/// Why nothing is read.
#[derive(Drop)]
pub enum Stop {
    /// The words are wrong or ask for help, or there is no memory.
    Early(EarlyEnd),
    /// The parser accepts the words, but no job can be made of them.
    Value(UsageFault),
}

impl From<EarlyEnd> for Stop {
    ghost from_gives = { λ early stop. stop ≡ Early early };

    fn from(early: EarlyEnd) -> Stop {
        Stop::Early(early)
    }
}

/// What the program says where nothing is read.
#[derive(Clone, Copy)]
pub enum Notice<'a> {
    /// Help on the output, with status 0.
    Help(&'a str),
    /// The exit status, and a line on the fault stream.
    Fault(u8, &'static str),
}

impl Stop {
    /// What the program says, and its exit status.
    pub fn notice(&self) -> Notice<'_>
        ensures { steps.noticed result ≡ steps.notice_of self.now }
    {
        match self {
            Stop::Early(early) => match early {
                EarlyEnd::NoMemory => Notice::Fault(NO_MEMORY_STATUS, NO_MEMORY_LINE),
                EarlyEnd::Usage => Notice::Fault(USAGE_STATUS, USAGE_LINE),
                EarlyEnd::Help(text) => Notice::Help(text.as_str()),
            },
            Stop::Value(fault) => Notice::Fault(USAGE_STATUS, fault.line()),
        }
    }
}

/// All that a run of the words takes, or why there is none. Behind it no memory is asked for.
#[tactic(auto, unfolding(crate::specs::Settings::settings_of))]
pub fn prepare(alloc: Global, words: &[String]) -> Result<Prepared, Stop>
    ensures taken { takes line (map string_bytes words.now) ≡ true → steps.StopsTaken result }
    ensures kinds { steps.PreparesBy (map string_bytes words.now) result }
{
    let matches = parse_words(alloc, words)?;
    settle(&matches, Memory::new(alloc))
}

// What the matches settle, if there is memory. Apart, so that what is moved on the way takes no stack while words are
// read; and in one function, since a result that is handed on would be moved once more.
#[inline(never)]
#[tactic(auto, unfolding(crate::specs::Settings::with_creator))]
fn settle(matches: &ArgMatches<'_>, memory: Result<Memory, NoMemory>) -> Result<Prepared, Stop>
    requires { IfOk memory (λ memory. (memory.token.holder ≡ nobody) × (memory.token.compared ≡ 0)) }
    ensures { MatchResult memory
        (λ _. steps.Settles (settings (subcommand_rows_of matches.now)) result)
        (λ _. result ≡ Err (Early early.NoMemory)) }
{
    let Memory {
        mut token,
        read,
        written,
        creator,
        held,
    } = match memory {
        Ok(memory) => memory,
        Err(_) => return Err(Stop::Early(EarlyEnd::NoMemory)),
    };
    let choice = match choose(matches, &mut token) {
        Ok(choice) => choice,
        Err(fault) => return Err(Stop::Value(fault)),
    };
    let mut engine = Engine::over(choice.job, read, written, creator, held);
    match give_creator(&mut engine, choice.creator) {
        Ok(()) => Ok(Prepared { engine, token }),
        Err(fault) => Err(Stop::Value(fault)),
    }
}

// Answers the input, if there is nothing against it.
fn end<R: Source, W: Drain, E: Drain>(
    prepared: Result<Prepared, Stop>,
    input: &mut R,
    output: &mut W,
    faults: &mut E,
) -> u8
    requires { IfOk prepared (λ prepared. prepared.token.compared ≡ 0) }
    ensures ends { steps.EndsPrepared prepared
        (record { source = R.told input.old; output = W.told output.old; faults = E.told faults.old })
        (record { source = R.told input.new; output = W.told output.new; faults = E.told faults.new }) result }
    ensures idle { ends.IsIdleAt result
        (record { source = R.told input.old; output = W.told output.old; faults = E.told faults.old })
        (record { source = R.told input.new; output = W.told output.new; faults = E.told faults.new }) }
    ensures memory { result ≡ 4 → ends.Says (fault_line (codes "no memory")) (E.told faults.old) (E.told faults.new) }
{
    match prepared {
        Ok(mut prepared) => answered(&mut prepared, input, output, faults),
        Err(stop) => stopped(&stop, input, output, faults),
    }
}

// A stream that fails changes nothing.
fn say<E: Drain>(drain: &mut E, text: &str)
    ensures { ends.Says text.now (E.told drain.old) (E.told drain.new) }
{
    let _ = write_whole(drain, text.as_bytes());
}

// The same, and passes it on.
fn hand_on<W: Drain>(drain: &mut W, text: &str)
    ensures { ends.HandsOn text.now (W.told drain.old) (W.told drain.new) }
{
    say(drain, text);
    let _ = drain.flush();
}

fn stopped<R: Source, W: Drain, E: Drain>(
    stop: &Stop,
    input: &mut R,
    output: &mut W,
    faults: &mut E,
) -> u8
    ensures { steps.StopsBy stop.now
        (record { source = R.told input.old; output = W.told output.old; faults = E.told faults.old })
        (record { source = R.told input.new; output = W.told output.new; faults = E.told faults.new }) result }
{
    match stop.notice() {
        Notice::Help(text) => {
            hand_on(output, text);
            ANSWERED_STATUS
        }
        Notice::Fault(status, line) => {
            say(faults, line);
            status
        }
    }
}

fn answered<R: Source, W: Drain, E: Drain>(
    prepared: &mut Prepared,
    input: &mut R,
    output: &mut W,
    faults: &mut E,
) -> u8
    requires none_compared { prepared.old.token.compared ≡ 0 }
    ensures { ends.EndsRun (steps.settled prepared.old)
        (record { source = R.told input.old; output = W.told output.old; faults = E.told faults.old })
        (record { source = R.told input.new; output = W.told output.new; faults = E.told faults.new }) result }
{
    match run(&mut prepared.engine, &mut prepared.token, input, output) {
        Ok(report) if report.faults == 0 => ANSWERED_STATUS,
        Ok(_) => FAULTY_STATUS,
        Err(fault) => {
            say(faults, run_line(fault));
            FAILED_STATUS
        }
    }
}

/// What the fault stream gets after a fault of the run.
pub fn run_line(fault: RunFault) -> &'static str
    ensures { result.now ≡ ends.run_line fault }
{
    match fault {
        RunFault::Read => "sdtool: error 60 read\n",
        RunFault::Write => "sdtool: error 61 write\n",
        RunFault::TooManyReads => "sdtool: error 62 too-many-reads\n",
    }
}
