//! The program over a reader and two writers, with the words of its command line, and the settings that they ask for.
#![tactic(auto)]

mod check_settings;
mod command_line;
mod derive_settings;
mod fault_lines;
mod options;
mod parse;
mod program;
mod settings;
mod statuses;
mod token_text;

pub use fault_lines::{NO_MEMORY_LINE, USAGE_LINE};
pub use options::{OptionName, OptionRow};
pub use parse::{EarlyEnd, parse_words};
pub use program::{Notice, Prepared, Stop, command, prepare, run_line};
pub use settings::{Choice, UsageFault, choose};
pub use statuses::{ANSWERED_STATUS, FAILED_STATUS, FAULTY_STATUS, NO_MEMORY_STATUS, USAGE_STATUS};
