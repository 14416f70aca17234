//! The run over lines, one descriptor a line and one answer a line, and the streams that it reads and writes.
#![tactic(auto)]

mod answers;
mod cut;
mod device;
mod engine;
mod feed;
mod input;
mod running;
mod sink;
mod streams;

pub use answers::HeldAnswers;
pub use cut::{FirstLine, first_line};
pub use device::{DeviceFault, Drain, Source};
pub use engine::{Engine, Report, RunFault};
pub use input::InputAhead;
pub use running::{run, run_at_most};
pub use sink::write_whole;
pub use streams::{FromRead, ToWrite};
