//! `sdtool` over the standard streams.

#![tactic(auto)]

ghost use Rattle.std.specs.Prelude.{◌≡◌, ◌⊎◌, ◌==◌, codes, if◌then◌else◌, MatchResult};
ghost use Rattle.std.specs.Process.{exit_status};
ghost use Rattle.sd_command.specs.FaultLines.{fault_line};

use sd_command::{NO_MEMORY_LINE, NO_MEMORY_STATUS, USAGE_LINE, USAGE_STATUS, command};
use sd_run::{FromRead, HeldAnswers, InputAhead, ToWrite};
use std::cell::Cell;
use std::env::{self, Env};
use std::io::{BufReader, BufWriter, ErrorKind};
use std::process::ExitCode;

/// The bytes of input that are read at once, and those of answers that are gathered before they are written.
const GATHERED: usize = 1 << 16;

fn main(rt: HostRuntime) -> ExitCode {
    let ended = run(&rt);
    if let Err(status) = ended {
        let _ = eprint!(rt; "{}", reason(status));
    }
    exit_code(ended)
}

// The process ends with the status of the command, or of what is wrong before it.
fn exit_code(ended: Result<u8, u8>) -> ExitCode
    ensures { MatchResult ended (λ status. exit_status result ≡ status) (λ status. exit_status result ≡ status) }
{
    match ended {
        Ok(status) | Err(status) => ExitCode::from(status),
    }
}

// Reads the words, makes room for the input and the output, and runs the command over the standard streams.
fn run(rt: &HostRuntime) -> Result<u8, u8>
    ensures { MatchResult result (λ _. Unit {0}) (λ status. (status ≡ 2) ⊎ (status ≡ 4)) }
{
    let words = words(rt)?;
    let input = BufReader::with_capacity(rt.alloc(), GATHERED, rt.stdin());
    let input = input.map_err(|_| NO_MEMORY_STATUS)?;
    let output = BufWriter::with_capacity(rt.alloc(), GATHERED, rt.stdout());
    let output = output.map_err(|_| NO_MEMORY_STATUS)?;
    let line_follows = Cell::new(false);
    let mut answers = HeldAnswers::new(output, &line_follows);
    let status = command(
        rt.alloc(),
        words,
        &mut FromRead::new(InputAhead::new(input, &line_follows)),
        &mut ToWrite::new(&mut answers),
        &mut ToWrite::new(rt.stderr()),
    );
    answers.end();
    Ok(status)
}

// The words of the command line, the program's name first.
fn words(rt: &(impl Env + AllocGlobal)) -> Result<Vec<String>, u8>
    ensures { MatchResult result (λ _. Unit {0}) (λ status. (status ≡ 2) ⊎ (status ≡ 4)) }
{
    match env::args(rt) {
        Ok(arguments) => arguments.collect(rt.alloc()).map_err(|_| NO_MEMORY_STATUS),
        Err(error) => match error.kind() {
            ErrorKind::OutOfMemory => Err(NO_MEMORY_STATUS),
            // An argument is no text.
            _ => Err(USAGE_STATUS),
        },
    }
}

fn reason(status: u8) -> &'static str
    ensures { result.now ≡ fault_line (if status == 4 then codes "no memory" else codes "usage") }
{
    if status == NO_MEMORY_STATUS {
        NO_MEMORY_LINE
    } else {
        USAGE_LINE
    }
}
