//! The jobs that users wait for, as a program whose time is nearly all in the crates below it.
//!
//! Standard input has sections. The first line of a section is `#`, a number and words. The lines behind it are
//! patterns of lines (`pattern.rt`); a section without any has those of the section before. Either the words are those
//! of a command line of `sdtool`, and the command answers as many lines as the number says (`command_job.rt`). Or they
//! are `each` or `many` and the SIDs of a token, and calls of the library check as many descriptors (`check_job.rt`).
//!
//! `sd_bench SEED` prints a line for each section: how much was digested, in bytes and numbers, and the digest. Each
//! seed gives other lines of the same kinds and sizes.
#![tactic(auto)]

mod check_job;
mod command_job;
mod digest;
mod numbers;
mod pattern;
mod section;

use section::{Section, invalid};
use std::env::{self, Env};
use std::io::{self, Read};

fn main(rt: HostRuntime) -> io::Result<()> {
    let seed = seed(&rt)?;
    let mut script = Vec::new(rt.alloc());
    rt.stdin().read_to_end(&mut script)?;
    let sections = Section::all(rt.alloc(), &script)?;
    let mut last = 0;
    for (index, section) in sections.iter().enumerate() {
        if section.has_patterns() {
            last = index;
        }
        let patterns = sections.get(last).ok_or(invalid())?;
        let digest = section.run(patterns, seed.wrapping_add(index as u64))?;
        println!(rt; "{digest}")?;
    }
    Ok(())
}

// The first word behind the program's name.
fn seed(rt: &(impl Env + AllocGlobal)) -> io::Result<u64> {
    let words: Vec<String> = env::args(rt)?.collect(rt.alloc())?;
    let word = words.get(1).ok_or(invalid())?;
    word.as_str().parse::<u64>().map_err(|_| invalid())
}
