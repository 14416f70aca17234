//! A command over many lines.

use crate::digest::Digest;
use crate::numbers::Numbers;
use crate::pattern::LinePattern;
use crate::section::Job;
use sd_command::command;
use sd_run::{FromRead, ToWrite};
use std::alloc::{AllocError, Global};
use std::io::{self, BufWriter, Read};

/// The bytes of answers that are gathered, as the program does.
const GATHERED: usize = 1 << 16;

/// The bytes of lines that are made at once.
const BLOCK: usize = 1 << 16;

/// Lines made of patterns, one after the other.
#[derive(Drop)]
struct Lines {
    patterns: Vec<LinePattern>,
    numbers: Numbers,
    current: usize,
    left: u64,
    // The lines that were made last, and how many of their bytes were read.
    block: Vec<u8>,
    at: usize,
}

impl Lines {
    // Makes lines until a block is full, or none is left.
    fn make_block(&mut self) -> Result<(), AllocError> {
        self.block.clear();
        self.at = 0;
        for _ in 0..BLOCK {
            if self.block.len() >= BLOCK || self.left == 0 {
                break;
            }
            self.left -= 1;
            if self.current >= self.patterns.len() {
                self.current = 0;
            }
            if let Some(pattern) = self.patterns.get_mut(self.current) {
                self.block
                    .extend_from_slice(pattern.next(&mut self.numbers))?;
                self.block.push(b'\n')?;
            }
            self.current = self.current.saturating_add(1);
        }
        Ok(())
    }
}

impl Read for Lines {
    fn read(&mut self, buf: &mut [u8]) -> io::Result<usize> {
        if self.at >= self.block.len() {
            self.make_block()?;
        }
        let mut rest = self.block.get(self.at..).unwrap_or_default();
        let n = rest.read(buf)?;
        self.at = self.at.saturating_add(n);
        Ok(n)
    }
}

/// Answers so many lines, as the program does over its standard streams. The status is a number of the digest.
pub fn answer_all(job: &Job<'_, '_, '_>) -> io::Result<Digest> {
    let mut lines = Lines {
        patterns: Vec::new(job.alloc),
        numbers: Numbers::new(job.seed),
        current: 0,
        left: job.count,
        block: Vec::new(job.alloc),
        at: 0,
    };
    for pattern in job.patterns {
        lines.patterns.push(LinePattern::new(job.alloc, pattern)?)?;
    }
    let mut output = BufWriter::with_capacity(job.alloc, GATHERED, Digest::new())?;
    let status = command(
        job.alloc,
        program_and(job.alloc, job.words)?,
        &mut FromRead::new(lines),
        &mut ToWrite::new(&mut output),
        &mut ToWrite::new(io::sink()),
    );
    let (mut digest, _) = output.into_parts();
    digest.add(u64::from(status));
    digest.end();
    Ok(digest)
}

// The words behind the program's name.
fn program_and(alloc: Global, words: &[&str]) -> Result<Vec<String>, AllocError> {
    let mut all = Vec::new(alloc);
    all.push(String::from_str(alloc, "sdtool")?)?;
    for word in words {
        all.push(String::from_str(alloc, word)?)?;
    }
    Ok(all)
}
