//! Descriptors explained: a block of lines that says, a line for each thing, what a descriptor has.
#![tactic(auto)]

mod ace;
mod acl;
mod control;
mod explain;
mod sid;

pub use explain::{print_explain, put_explain};
