//! Where the entries of a token are: memory of its own, or a caller's.

ghost use Rattle.std.specs.Prelude.{◌≡◌, ◌≤◌, ◌*◌, ◌↔◌, [], ◌∷◌, ◌++◌, length, IfOk, OnOk, OnErr, IsErr};
ghost use Rattle.sd_token.specs.Limits.{most_entries};
ghost use Rattle.sd_token.specs.TokenWords.{Numbers, entry_words};

use crate::limits::MOST_ENTRIES;
use crate::token::TokenFull;
use crate::words::ENTRY_WORDS;
use sd_sink::NoMemory;
use std::alloc::Global;
use std::marker::Model;

/// The numbers of a token's entries.
pub trait Memory {
    /// What it holds.
    ghost numbers: { Self → Numbers };

    /// A key for each entry.
    fn keys(&self) -> &[u32]
        ensures { result.now ≡ (numbers self.now).keys };

    /// 19 numbers for each entry.
    fn words(&self) -> &[u32]
        ensures { result.now ≡ (numbers self.now).words };
}

/// Memory for 1,024 entries, which is allocated once.
#[derive(Drop)]
pub struct Owned {
    keys: Vec<u32>,
    words: Vec<u32>,
}

/// Memory of a caller.
#[derive(Drop)]
pub struct Lent<'a> {
    keys: &'a [u32],
    words: &'a [u32],
}

impl Model for Owned {
    ghost use Rattle.std.specs.Prelude.{◌≡◌, ◌≤◌, ◌*◌, vec_capacity, vec_len};
    ghost use Rattle.sd_token.specs.Limits.{most_entries};
    ghost use Rattle.sd_token.specs.TokenWords.{Numbers, entry_words};

    ghost Value = { Numbers };

    ghost view = { λ m. record { keys = m.keys.items; words = m.words.items; room = vec_capacity m.keys } };

    ghost invariant = { λ m. (most_entries ≤ vec_capacity m.keys)
        × (entry_words * most_entries ≤ vec_capacity m.words) × (vec_len m.keys ≤ most_entries)
        × (vec_len m.words ≡ entry_words * vec_len m.keys) };
}

impl Owned {
    /// Memory that holds no entry.
    pub(crate) fn new(alloc: Global) -> Result<Owned, NoMemory>
        ensures { IfOk result (λ m. m ≡ record { keys = []; words = []; room = most_entries }) }
    {
        let keys = Vec::with_capacity(alloc, MOST_ENTRIES)?;
        let words = Vec::with_capacity(alloc, ENTRY_WORDS * MOST_ENTRIES)?;
        Ok(Owned { keys, words })
    }

    /// Adds the numbers of an entry. Where there are 1,024, nothing changes.
    pub(crate) fn push(&mut self, key: u32, words: &[u32]) -> Result<(), TokenFull>
        requires { length words.now ≡ entry_words }
        ensures full { IsErr result ↔ (most_entries ≤ length self.old.keys) }
        ensures keys { OnOk result (self.new.keys ≡ self.old.keys ++ key ∷ []) }
        ensures words { OnOk result (self.new.words ≡ self.old.words ++ words.now) }
        ensures unchanged { OnErr result (self.new ≡ self.old) }
        ensures room { self.old.room ≤ self.new.room }
        ensures few { length self.new.keys ≤ most_entries }
        ensures whole { (length self.old.words ≡ entry_words * length self.old.keys)
            × (length self.new.words ≡ entry_words * length self.new.keys) }
    {
        if self.keys.len() >= MOST_ENTRIES {
            return Err(TokenFull);
        }
        match (self.keys.push(key), self.words.extend_from_slice(words)) {
            (Ok(()), Ok(())) => Ok(()),
            _ => Err(TokenFull),
        }
    }
}

impl<'a> Lent<'a> {
    /// These numbers.
    pub(crate) fn new(keys: &'a [u32], words: &'a [u32]) -> Lent<'a>
        ensures { ⟦<Lent<'a> as Memory>⟧.numbers result
            ≡ record { keys = keys.now; words = words.now; room = length keys.now } }
    {
        Lent { keys, words }
    }
}

impl Memory for Owned {
    ghost numbers = { λ m. m };

    #[inline(always)]
    fn keys(&self) -> &[u32] {
        &self.keys
    }

    #[inline(always)]
    fn words(&self) -> &[u32] {
        &self.words
    }
}

impl<'a> Memory for Lent<'a> {
    ghost numbers = { λ m. record { keys = m.keys.now; words = m.words.now; room = length m.keys.now } };

    #[inline(always)]
    fn keys(&self) -> &[u32] {
        self.keys
    }

    #[inline(always)]
    fn words(&self) -> &[u32] {
        self.words
    }
}
