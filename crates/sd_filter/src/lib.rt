//! The line filter: `run` reads a descriptor per line and writes an answer per line. `command` does what a command line
//! asks for.
//!
//! Two lines of SDDL as hex, the second of them malformed:
//!
//! ```
//! use sd_core::Token;
//! use sd_filter::{Act, Engine, Form, FromRead, Job, OutputForm, ToWrite, run};
//! use std::io;
//!
//! fn main(rt: HostRuntime) -> io::Result<()> {
//!     let job = Job {
//!         line_form: Form::Sddl,
//!         act: Act::Convert(OutputForm::Hex),
//!         domain: None,
//!         numeric: false,
//!     };
//!     let (engine, token) = (Engine::new(rt.alloc(), job), Token::new(rt.alloc()));
//!     let (Ok(mut engine), Ok(mut token)) = (engine, token) else {
//!         return println!(rt; "out of memory");
//!     };
//!     let mut lines = FromRead::new(b"D:\nO:Everyone\n".as_slice());
//!     let mut answers = ToWrite::new(rt.stdout());
//!     match run(&mut engine, &mut token, &mut lines, &mut answers) {
//!         Ok(report) => println!(rt; "{} lines, {} error", report.lines, report.faults),
//!         Err(fault) => println!(rt; "{fault}"),
//!     }
//! }
//! ```
//!
//! It prints:
//!
//! ```text
//! 01000480000000000000000000000000140000000200080000000000
//! error 25 sid-form
//! 2 lines, 1 error
//! ```
//!
//! This crate re-exports the crates below it: `sd_answer`, the answer to a line, `sd_run`, the run over lines, and
//! `sd_command`, the program.
#![tactic(auto)]

pub use sd_answer::{Act, Form, Job, OutputForm};
pub use sd_command::command;
pub use sd_faults::{LineFault, put_fault};
pub use sd_run::{DeviceFault, Drain, Engine, FromRead, Report, RunFault, Source, ToWrite, run};
