//! The sections of standard input.

use crate::check_job::{check_each, check_together};
use crate::command_job::answer_all;
use crate::digest::Digest;
use std::alloc::Global;
use std::io::{self, Error, ErrorKind};
use std::str;

/// A job: how often it is done, its words, and the patterns of its lines.
#[derive(Drop)]
pub struct Section<'a> {
    alloc: Global,
    count: u64,
    words: Vec<&'a str>,
    patterns: Vec<&'a [u8]>,
}

impl<'a> Section<'a> {
    /// All sections.
    pub fn all(alloc: Global, script: &'a [u8]) -> io::Result<Vec<Section<'a>>> {
        let mut sections: Vec<Section<'a>> = Vec::new(alloc);
        for line in script.split(|byte| *byte == b'\n') {
            if let Some(head) = line.strip_prefix(b"# ") {
                sections.push(Section::new(alloc, head)?)?;
            } else if !line.is_empty() {
                let section = sections.last_mut().ok_or(invalid())?;
                section.patterns.push(line)?;
            }
        }
        Ok(sections)
    }

    fn new(alloc: Global, head: &'a [u8]) -> io::Result<Section<'a>> {
        let head = str::from_utf8(head).map_err(|_| invalid())?;
        let mut words = head.split(' ');
        let count = words.next().ok_or(invalid())?;
        Ok(Section {
            alloc,
            count: count.parse::<u64>().map_err(|_| invalid())?,
            words: words.collect(alloc)?,
            patterns: Vec::new(alloc),
        })
    }

    /// Whether it has patterns of its own.
    pub fn has_patterns(&self) -> bool {
        !self.patterns.is_empty()
    }

    /// Does the job on lines of another section's patterns, or of its own.
    pub fn run(&self, lines: &Section<'_>, seed: u64) -> io::Result<Digest> {
        let job = Job {
            alloc: self.alloc,
            seed,
            count: self.count,
            words: &self.words,
            patterns: &lines.patterns,
        };
        match self.words.first().copied() {
            Some("each") => check_each(&job),
            Some("many") => check_together(&job),
            _ => answer_all(&job),
        }
    }
}

/// What a section asks for.
#[derive(Clone, Copy)]
pub struct Job<'a, 'w, 'p> {
    pub alloc: Global,
    pub seed: u64,
    /// How many lines or descriptors.
    pub count: u64,
    pub words: &'a [&'w str],
    pub patterns: &'a [&'p [u8]],
}

/// What is wrong with the input.
pub fn invalid() -> Error {
    Error::from(ErrorKind::InvalidInput)
}
