//! The answer to one line: what a line means in its form, what is done with its descriptor, and the text of the answer.
#![tactic(auto)]

mod answer;
mod base64_text;
mod hex_text;
mod job;
mod line;

pub use answer::{Stores, put_answer};
pub use job::{Act, Form, Job, OutputForm, Task};
pub use line::Line;
