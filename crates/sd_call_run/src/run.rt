//! The call that runs the whole tool on a batch in memory.

ghost use Rattle.sd_command.specs.Preparing.{settled};
ghost use Rattle.sd_call_run.specs.Inner.Batches.{EndsPrepared, EndsStopped};
ghost use Rattle.sd_call_run.specs.Runs.{EndsRun, Runs, Shows};

use crate::batch::answer_batch;
use crate::words::{WordsFault, words_in};
use sd_command::{
    ANSWERED_STATUS, EarlyEnd, FAILED_STATUS, FAULTY_STATUS, Notice, Prepared, Stop, prepare,
    run_line,
};
use sd_run::RunFault;
use std::alloc::Global;

/// How a run ends: `struct sdtool_ending` of the header.
#[repr(C)]
#[derive(Clone, Copy)]
pub struct Ending {
    /// The program's exit status.
    pub status: u32,
    /// How many bytes the output has.
    pub length: usize,
    /// How many bytes the message has.
    pub message_length: usize,
}

/// Runs the program on an input in memory. The words are without the program's name, each with a NUL behind it.
pub fn run_batch(
    alloc: Global,
    words: &[u8],
    input: &[u8],
    output: &mut [u8],
    message: &mut [u8],
) -> Ending
    ensures { Runs words.now input.now output.new message.new result }
{
    match words_in(alloc, words) {
        Ok(words) => end(prepare(alloc, words.as_slice()), input, output, message),
        Err(WordsFault::NoText) => stopped(&Stop::Early(EarlyEnd::Usage), output, message),
        Err(WordsFault::NoMemory) => stopped(&Stop::Early(EarlyEnd::NoMemory), output, message),
    }
}

// Answers the input, if there is nothing against it.
fn end(
    prepared: Result<Prepared, Stop>,
    input: &[u8],
    output: &mut [u8],
    message: &mut [u8],
) -> Ending
    ensures { EndsPrepared prepared input.now output.new message.new result }
{
    match prepared {
        Ok(mut prepared) => answer(&mut prepared, input, output, message),
        Err(stop) => stopped(&stop, output, message),
    }
}

fn answer(prepared: &mut Prepared, input: &[u8], output: &mut [u8], message: &mut [u8]) -> Ending
    ensures { EndsRun (settled prepared.old) input.now output.new message.new result }
{
    let batch = answer_batch(prepared, input, output);
    if !batch.all {
        return Ending {
            status: u32::from(FAILED_STATUS),
            length: batch.length,
            message_length: show(run_line(RunFault::Write), message),
        };
    }
    let status = if batch.faulty {
        FAULTY_STATUS
    } else {
        ANSWERED_STATUS
    };
    Ending {
        status: u32::from(status),
        length: batch.length,
        message_length: 0,
    }
}

fn stopped(stop: &Stop, output: &mut [u8], message: &mut [u8]) -> Ending
    ensures { EndsStopped stop.now output.new message.new result }
{
    match stop.notice() {
        Notice::Help(text) => Ending {
            status: u32::from(ANSWERED_STATUS),
            length: show(text, output),
            message_length: 0,
        },
        Notice::Fault(status, line) => Ending {
            status: u32::from(status),
            length: 0,
            message_length: show(line, message),
        },
    }
}

// Copies the front of a text, as much as there is room for.
fn show(text: &str, cells: &mut [u8]) -> usize
    ensures { Shows text.now cells.new result }
{
    let bytes = text.as_bytes();
    let n = bytes.len().min(cells.len());
    cells[..n].copy_from_slice(&bytes[..n]);
    n
}
