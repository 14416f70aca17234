//! Tests of the run and of the program over streams in memory that are slow or fail: how often they are called, and
//! that an engine runs again after any return. What the program answers is in `tests/rows/`.
#![tactic(auto)]

#[cfg(test)]
mod devices;
#[cfg(test)]
mod engines;
#[cfg(test)]
mod memory;
#[cfg(test)]
mod reads;
#[cfg(test)]
mod streams;
