//! The call of the library for C that runs the program on a batch in memory.
#![tactic(auto)]

mod batch;
mod run;
mod words;

pub use run::{Ending, run_batch};
