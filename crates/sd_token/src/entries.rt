//! The entries of a token, and the count of comparisons with them. Two calls compare, and each of them counts what it
//! compares. Nothing else reads a key or a number of an entry.

ghost use Rattle.std.specs.Prelude.{◌≡◌, ◌≤◌, ◌<◌, ◌↔◌, ◌+◌, ◌-◌, ◌*◌, ◌^◌, [], ◌∷◌, ◌++◌, false, length, take, drop};
ghost use Rattle.std.specs.Prelude.{slice_index_or, IfOk, OnOk, OnErr, IsErr};
ghost use Rattle.sd_sink.specs.Counts.{counted};
ghost use Rattle.sd_token.specs.Limits.{most_entries};
ghost use Rattle.sd_token.specs.Token.{counted_by, entry_meets, meets};
ghost use Rattle.sd_token.specs.TokenWords.{entries_in, entries_of, entry_of, entry_words, nobody, sid_key};
ghost use Rattle.sd_token.specs.Inner.Search.{AreBlocks, LacksKey, marked_meets, same_bits};

use crate::memory::{Lent, Memory, Owned};
use crate::sought::Sought;
use crate::token::{EntryKind, TokenFull};
use crate::words::{is_met, key_of, words_of};
use sd_sid::Sid;
use sd_sink::NoMemory;
use std::alloc::Global;
use std::marker::Model;
use std::simd::prelude::*;

/// How many keys are compared in one step.
pub(crate) const BLOCK: usize = 16;

/// The entries of a token. Each comparison moves the place on, so how far it went is how many were compared, and a loop
/// needs no second counter.
#[derive(Drop)]
pub(crate) struct Entries<M: Memory> {
    memory: M,
    // How many were compared before the search that is on.
    compared: u64,
    // Where the search began, and the entry that is compared next.
    from: usize,
    place: usize,
}

impl<M: Memory> Model for Entries<M> {
    ghost use Rattle.std.specs.Prelude.{◌≤◌, ◌-◌, ◌*◌, length};
    ghost use Rattle.sd_token.specs.Limits.{most_entries};
    ghost use Rattle.sd_token.specs.Token.{counted_by};
    ghost use Rattle.sd_token.specs.TokenWords.{entries_in, entry_words};
    ghost use Rattle.sd_token.specs.Inner.Search.{EntriesShown};

    ghost Value = { EntriesShown };

    ghost view = { λ e. record {
      entries = entries_in (M.numbers e.memory);
      compared = counted_by (e.place - e.from) e.compared;
      place = e.place;
      room = (M.numbers e.memory).room;
    } };

    ghost invariant = { λ e. (e.from ≤ e.place) × (e.place ≤ length (M.numbers e.memory).keys)
        × (length (M.numbers e.memory).keys ≤ most_entries)
        × (entry_words * length (M.numbers e.memory).keys ≤ length (M.numbers e.memory).words) };
}

impl Entries<Owned> {
    /// No entries yet, with the memory for 1,024.
    pub(crate) fn new(alloc: Global) -> Result<Self, NoMemory>
        ensures { IfOk result (λ e. e ≡ record { entries = []; compared = 0; place = 0; room = most_entries }) }
    {
        let memory = Owned::new(alloc)?;
        Ok(Entries::of(memory))
    }

    /// Adds an entry after the others. Where there are 1,024, nothing changes.
    #[tactic(auto, using(crate::proofs::TokenLemmas::as_many, crate::proofs::TokenLemmas::entries_push))]
    pub(crate) fn push(&mut self, sid: &Sid, kind: EntryKind) -> Result<(), TokenFull>
        ensures full { IsErr result ↔ (most_entries ≤ length self.old.entries) }
        ensures added { OnOk result (self.new.entries ≡ self.old.entries ++ (sid.now, kind) ∷ []) }
        ensures unchanged { OnErr result (self.new ≡ self.old) }
        ensures compared { self.new.compared ≡ self.old.compared }
        ensures room { self.old.room ≤ self.new.room }
    {
        self.memory.push(key_of(sid), &words_of(sid, kind))
    }
}

impl<'a> Entries<Lent<'a>> {
    /// The entries whose numbers a caller lends. None is compared yet.
    pub(crate) fn over(keys: &'a [u32], words: &'a [u32]) -> Self
        requires few { length keys.now ≤ most_entries }
        requires whole { entry_words * length keys.now ≤ length words.now }
        ensures { result ≡ record {
          entries = entries_of keys.now words.now;
          compared = 0;
          place = 0;
          room = length keys.now;
        } }
    {
        Entries::of(Lent::new(keys, words))
    }
}

impl<M: Memory> Entries<M> {
    // The entries that memory holds. None is compared yet.
    fn of(memory: M) -> Self
        requires few { length (M.numbers memory).keys ≤ most_entries }
        requires whole { entry_words * length (M.numbers memory).keys ≤ length (M.numbers memory).words }
        ensures { result ≡ record {
          entries = entries_in (M.numbers memory);
          compared = 0;
          place = 0;
          room = (M.numbers memory).room;
        } }
    {
        Entries {
            memory,
            compared: 0,
            from: 0,
            place: 0,
        }
    }

    /// How many there are.
    #[inline(always)]
    #[tactic(auto, using(crate::proofs::TokenLemmas::as_many))]
    pub(crate) fn len(&self) -> usize
        ensures value { result ≡ length self.now.entries }
        ensures most { result ≤ most_entries }
    {
        self.memory.keys().len()
    }

    /// How many are behind the place.
    #[inline(always)]
    #[tactic(auto, using(crate::proofs::TokenLemmas::as_many))]
    pub(crate) fn left(&self) -> usize
        ensures value { result ≡ length self.now.entries - self.now.place }
        ensures within { self.now.place ≤ length self.now.entries }
    {
        self.memory.keys().len() - self.place
    }

    /// How often entries were compared. At `u64::MAX` the count stays.
    #[inline(always)]
    pub(crate) fn compared(&self) -> u64
        ensures { result ≡ self.now.compared }
    {
        self.compared
            .saturating_add((self.place - self.from) as u64)
    }

    /// Begins a search at an index.
    #[inline(always)]
    #[tactic(auto, using(crate::proofs::TokenLemmas::as_many))]
    pub(crate) fn begin(&mut self, index: usize)
        requires { index ≤ length self.old.entries }
        ensures begun { self.new ≡ record self.old { place = index } }
        ensures limit { self.old.compared < 2 ^ 64 }
    {
        self.compared = self.compared();
        self.from = index;
        self.place = index;
    }

    /// Compares the next entry: its key and, where that is the SID's, its numbers. It counts 1.
    #[inline(always)]
    pub(crate) fn next_meets<S: Sought>(&mut self, sid: &S, key: u32, deny: bool) -> bool
        requires within { self.old.place < length self.old.entries }
        requires key { key ≡ sid_key (S.sid sid.now) }
        requires limit { (S.sid sid.now).authority < 2 ^ 48 }
        ensures value { result
            ≡ entry_meets (S.sid sid.now) deny (slice_index_or self.old.entries self.old.place nobody) }
        ensures counts { self.new
            ≡ record self.old { compared = counted self.old.compared; place = self.old.place + 1 } }
    {
        let index = self.place;
        self.place = index + 1;
        self.memory.keys()[index] == key && one_is_met(self.memory.words(), index, sid, deny)
    }

    /// Compares blocks of 16 entries, up to the first that has the SID's key, or the last: the keys of a block in one
    /// step, and the numbers of those entries that have the key. It counts 16 for each block.
    #[inline(always)]
    pub(crate) fn blocks_meet<S: Sought>(&mut self, sid: &S, key: u32, deny: bool) -> bool
        requires within { self.old.place + 16 ≤ length self.old.entries }
        requires key { key ≡ sid_key (S.sid sid.now) }
        requires limit { (S.sid sid.now).authority < 2 ^ 48 }
        ensures counts { self.new ≡ record self.old {
          compared = counted_by (self.new.place - self.old.place) self.old.compared;
          place = self.new.place;
        } }
        ensures blocks { AreBlocks self.old.place self.new.place (length self.old.entries) }
        // Only the last of them may have an entry that meets the SID.
        ensures before { meets (S.sid sid.now) deny
            (take (self.new.place - 16 - self.old.place) (drop self.old.place self.old.entries)) ≡ false }
        ensures value { result ≡ meets (S.sid sid.now) deny (take 16 (drop (self.new.place - 16) self.old.entries)) }
    {
        let (at, same) = next_block(self.memory.keys(), self.place, key);
        self.place = at + BLOCK;
        same != 0 && some_is_met(self.memory.words(), at, same, sid, deny)
    }
}

// The first block from a place on that has this key, or the last, and which of its keys are this one. That it compares
// each block once, and none behind the one that it gives, is for the reader to see: `blocks_meet` counts up to that
// one.
#[tactic(auto, using(crate::proofs::BlockLemmas::lacks_more, crate::proofs::BlockLemmas::lacks_none))]
#[inline(always)]
fn next_block(keys: &[u32], from: usize, key: u32) -> (usize, u64)
    requires within { from + 16 ≤ length keys.now }
    ensures blocks { AreBlocks from (result.0 + 16) (length keys.now) }
    ensures before { LacksKey keys.now key from result.0 }
    ensures same { result.1 ≡ same_bits keys.now key result.0 16 }
{
    let mut at = from;
    let mut same = same_keys(keys, at, key);
    let last = keys.len() - BLOCK;
    while same == 0 && at + BLOCK <= last {
        at += BLOCK;
        same = same_keys(keys, at, key);
    }
    (at, same)
}

// Which keys of a block are this one. The lowest bit stands for the first of them.
#[inline(always)]
fn same_keys(keys: &[u32], at: usize, key: u32) -> u64
    requires { at + 16 ≤ length keys.now }
    ensures { result ≡ same_bits keys.now key at 16 }
{
    let block = u32x16::from_slice(&keys[at..]);
    block.simd_eq(u32x16::splat(key)).to_bitmask()
}

// Whether the entry at an index meets the SID. Few entries have the key. So this is a call, and the loop over the keys
// behind the blocks stays small.
#[inline(never)]
fn one_is_met<S: Sought>(words: &[u32], index: usize, sid: &S, deny: bool) -> bool
    requires { entry_words * (index + 1) ≤ length words.now }
    ensures { result
        ≡ entry_meets (S.sid sid.now) deny (entry_of (take entry_words (drop (entry_words * index) words.now))) }
{
    is_met(words, index, sid, deny)
}

// Whether one of the entries of a block whose bit is set meets the SID. The lowest bit stands for the first of them.
// Few blocks have the key. So this is a cold call, and the loop over blocks has its values in registers.
#[cold]
#[inline(never)]
fn some_is_met<S: Sought>(words: &[u32], at: usize, same: u64, sid: &S, deny: bool) -> bool
    requires bits { same < 2 ^ 16 }
    requires whole { entry_words * (at + 16) ≤ length words.now }
    requires few { at ≤ most_entries }
    ensures { result ≡ marked_meets (S.sid sid.now) deny 16 same (drop (entry_words * at) words.now) }
{
    let mut left = same;
    while left != 0 {
        let place = left.trailing_zeros() as usize;
        if is_met(words, at + place, sid, deny) {
            return true;
        }
        // The lowest bit is cleared. A shift by its place would have to wait for the place.
        left &= left - 1;
    }
    false
}
