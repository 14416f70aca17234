//! The lines of a batch, one after the other.

ghost use Rattle.std.specs.Prelude.{◌≡◌};
ghost use Rattle.sd_command.specs.Preparing.{settled};
ghost use Rattle.sd_call_run.specs.Inner.Batches.{Batched};

use sd_call::Front;
use sd_command::Prepared;
use sd_run::first_line;

/// What became of a batch.
#[derive(Clone, Copy)]
pub struct Batch {
    /// How many bytes the answers have.
    pub length: usize,
    /// Whether one of them is an `error` line.
    pub faulty: bool,
    /// Whether all lines are answered.
    pub all: bool,
}

/// Answers the lines of an input in order, until there is no room for the answer to one.
pub fn answer_batch(prepared: &mut Prepared, input: &[u8], output: &mut [u8]) -> Batch
    ensures { Batched (settled prepared.old) input.now output.new result }
{
    let mut cells = Front {
        cells: output,
        held: 0,
        failures: 0,
    };
    answer_lines(prepared, input, &mut cells)
}

fn answer_lines(prepared: &mut Prepared, input: &[u8], cells: &mut Front<'_>) -> Batch
    requires { cells.old.held ≡ 0 }
    ensures batched { Batched (settled prepared.old) input.now cells.new.cells.now result }
    ensures stay { cells.new.cells.ghost_name ≡ cells.old.cells.ghost_name }
{
    let mut batch = Batch {
        length: 0,
        faulty: false,
        all: true,
    };
    let mut left = input;
    while let Some(first) = first_line(left) {
        let Ok(faulty) = prepared
            .engine
            .answer(first.line, &mut prepared.token, cells)
        else {
            batch.all = false;
            return batch;
        };
        batch.length = cells.count();
        batch.faulty |= faulty;
        left = first.rest;
    }
    batch
}
