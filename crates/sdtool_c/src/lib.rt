//! The library that C programs call: one export for each call of its header, which the rooms answer.
#![tactic(auto)]

mod build;
mod checks;
mod columns;
mod conversions;
mod derivations;
mod edits;
mod faults;
mod many;
mod parts;
mod places;
mod reasons;
mod runs;
mod sids;
mod texts;
mod tokens;
