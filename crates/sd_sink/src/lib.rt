//! Where printed texts go: sinks, and the printers above them. Also the error for out of memory.
#![tactic(auto)]

mod gather;
mod held;
mod memory;
mod print;
mod printer;
mod sink;

pub use gather::Gather;
pub use held::FRONT;
pub use memory::NoMemory;
pub use print::Print;
pub use printer::Printer;
pub use sink::{Sink, SinkFault};
