//! The call that runs the whole tool on a batch in memory.

ghost use Rattle.sd_call_run.specs.Runs.{Runs};

use sd_call_run::{Ending, run_batch};
use std::alloc::Global;

/// Runs the program on an input in memory. The words are without the program's name, each with a NUL behind it.
#[unsafe(no_mangle)]
pub extern "C" fn sdtool_run(
    alloc: Global,
    words: &[u8],
    input: &[u8],
    output: &mut [u8],
    message: &mut [u8],
) -> Ending
    ensures { Runs words.now input.now output.new message.new result }
{
    run_batch(alloc, words, input, output, message)
}
