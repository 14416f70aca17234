//! Numbers that look random, and what tests make of them: words, ACEs and descriptors.

ghost use Rattle.std.specs.Prelude.{◌<◌, length};

use std::process::Abort;

/// Numbers that look random, and are the same in each run.
#[derive(Drop)]
pub struct Numbers {
    pub state: u64,
}

impl Numbers {
    pub fn below(&mut self, limit: usize) -> usize
        requires { 0 < limit }
        ensures { result < limit }
    {
        let next = self.state.wrapping_mul(6364136223846793005);
        self.state = next.wrapping_add(1442695040888963407);
        (self.state >> 33) as usize % limit
    }

    pub fn one_of<T: Copy>(&mut self, choices: &[T]) -> T
        requires { 0 < length choices.now }
    {
        choices[self.below(choices.len())]
    }

    /// One of the words between blanks.
    pub fn word_of<'a>(&mut self, words: &'a str) -> &'a str {
        let at = self.below(words.split(' ').count().max(1));
        words.split(' ').nth(at).unwrap_or("")
    }
}

/// What the fields of an ACE are made of, each a list of words between blanks.
#[derive(Clone, Copy)]
pub struct Words<'a> {
    pub kinds: &'a str,
    pub flags: &'a str,
    pub rights: &'a str,
    pub trustees: &'a str,
}

pub const TYPES: &str =
    " bf967aba-0de6-11d0-a285-00aa003049e2 bf967a86-0de6-11d0-a285-00aa003049e2";

fn push_ace(
    rt: &(impl Abort + AllocGlobal),
    numbers: &mut Numbers,
    words: &Words<'_>,
    line: &mut String,
) {
    let kind = numbers.word_of(words.kinds);
    let flags = numbers.word_of(words.flags);
    let rights = numbers.word_of(words.rights);
    let types = if kind.starts_with('O') { TYPES } else { "" };
    let (object, inherited) = (numbers.word_of(types), numbers.word_of(types));
    let trustee = numbers.word_of(words.trustees);
    let ace = format!(in rt.alloc(); "({kind};{flags};{rights};{object};{inherited};{trustee})");
    let ace = ace.expect(rt, "memory for an ACE");
    line.push_str(&ace).expect(rt, "memory for a line");
}

/// Appends a part that begins with one of these words; with up to eight ACEs if it is a list.
pub fn push_acl(
    rt: &(impl Abort + AllocGlobal),
    numbers: &mut Numbers,
    parts: &str,
    words: &Words<'_>,
    line: &mut String,
) {
    let part = numbers.word_of(parts);
    line.push_str(part).expect(rt, "memory for a line");
    if part != "" && !part.ends_with("NO_ACCESS_CONTROL") {
        for _ in 0..numbers.below(9) {
            push_ace(rt, numbers, words, line);
        }
    }
}
