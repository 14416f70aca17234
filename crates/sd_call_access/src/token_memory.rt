//! A token in memory of the caller.

ghost use Rattle.std.specs.Prelude.{◌≡◌, ◌≤◌, ◌<◌, ◌+◌, ◌*◌, ℕ, [], ◌∷◌, ◌++◌, length, take, drop, slice_index};
ghost use Rattle.std.specs.Prelude.{slice_range, MatchResult, IsTrue, Ok, Err};
ghost use Rattle.sd_token.specs.Limits.{most_entries};
ghost use Rattle.sd_token.specs.TokenWords.{entries_of, entry_words};
ghost use Rattle.sd_call_access.specs.Checks.{entries_from, level_of};
ghost use Rattle.sd_call_access.specs.TokenMemory.{ReadsToken, entries_at, entries_held, holder_held, holds_token};
ghost use Rattle.sd_call_access.specs.TokenMemory.{token_size};

use crate::request::{Request, level_of};
use crate::token::{entry_at, nothing_behind};
use sd_call::{Argument, CallFault, Outcome, done, failed, too_small};
use sd_sid::Sid;
use sd_token::{ENTRY_WORDS, EntryKind, LentToken, MOST_ENTRIES, key_of, words_of};

/// The first number of memory that holds a token.
const MARK: u32 = 0x6B6F_7473;

/// Where the keys begin: behind the mark and the number of SIDs.
const KEYS: usize = 2;

/// Reads a token into memory, and says how many numbers it has or needs.
#[tactic(auto, unfolding(crate::specs::TokenMemory::reading), using(crate::proofs::MemoryLemmas::not_held))]
pub fn read_token(sids: &[u8], kinds: &[u8], memory: &mut [u32]) -> Outcome
    ensures token { ReadsToken sids.now kinds.now memory.old memory.new result }
    ensures kept { drop (token_size (length kinds.now)) memory.new ≡ drop (token_size (length kinds.now)) memory.old }
{
    // If anything fails, the memory holds no token, not even an earlier one.
    unmark(memory);
    if kinds.len() > MOST_ENTRIES {
        return failed(CallFault::Argument(Argument::Entries, MOST_ENTRIES));
    }
    let size = token_size(kinds.len());
    if memory.len() < size {
        return too_small(size);
    }
    match fill(memory, sids, kinds) {
        Ok(()) => done(size),
        Err(fault) => failed(fault),
    }
}

#[tactic(auto, using(crate::proofs::MemoryLemmas::kept_behind))]
fn unmark(memory: &mut [u32])
    ensures first { slice_index memory.new 0 ≡ 0 }
    ensures rest { (n : ℕ) → 0 < n → drop n memory.new ≡ drop n memory.old }
{
    if !memory.is_empty() {
        memory[0] = 0;
    }
}

fn token_size(count: usize) -> usize
    requires { count ≤ most_entries }
    ensures { result ≡ token_size count }
{
    KEYS + (1 + ENTRY_WORDS) * count
}

// The mark comes last.
#[tactic(auto, using(crate::proofs::MemoryLemmas::part_written))]
fn fill(memory: &mut [u32], sids: &[u8], kinds: &[u8]) -> Result<(), CallFault>
    requires few { length kinds.now ≤ most_entries }
    requires room { token_size (length kinds.now) ≤ length memory.old }
    requires unmarked { slice_index memory.old 0 ≡ 0 }
    ensures read { MatchResult (entries_from 0 sids.now kinds.now)
        (λ entries. (result ≡ Ok tt) × (entries_held memory.new ≡ Ok entries))
        (λ fault. (result ≡ Err fault) × (slice_index memory.new 0 ≡ 0)) }
    ensures kept { drop (token_size (length kinds.now)) memory.new ≡ drop (token_size (length kinds.now)) memory.old }
{
    match write_token(&mut memory[KEYS..token_size(kinds.len())], sids, kinds) {
        Ok(()) => {
            mark(memory, kinds.len());
            Ok(())
        }
        Err(fault) => Err(fault),
    }
}

// The memory holds the token whose keys and numbers are there.
#[tactic(auto, using(crate::proofs::MemoryLemmas::marked, crate::proofs::MemoryLemmas::marked_behind))]
fn mark(memory: &mut [u32], count: usize)
    requires few { count ≤ most_entries }
    requires room { token_size count ≤ length memory.old }
    ensures held { entries_held memory.new ≡ Ok (entries_at count (slice_range memory.old 2 (token_size count))) }
    ensures kept { drop (token_size count) memory.new ≡ drop (token_size count) memory.old }
{
    memory[1] = count as u32;
    memory[0] = MARK;
}

// The keys are in front of the numbers of the entries.
fn write_token(numbers: &mut [u32], sids: &[u8], kinds: &[u8]) -> Result<(), CallFault>
    requires few { length kinds.now ≤ most_entries }
    requires room { length numbers.old ≡ (1 + entry_words) * length kinds.now }
    ensures { MatchResult (entries_from 0 sids.now kinds.now)
        (λ entries. (result ≡ Ok tt) × (entries_at (length kinds.now) numbers.new ≡ entries))
        (λ fault. result ≡ Err fault) }
{
    let (keys, words) = numbers.split_at_mut(kinds.len());
    write_entries(keys, words, sids, kinds)
}

// Writes the entries, one after the other.
#[tactic(auto, using(crate::proofs::TokenLemmas::behind_none))]
fn write_entries(
    keys: &mut [u32],
    words: &mut [u32],
    sids: &[u8],
    kinds: &[u8],
) -> Result<(), CallFault>
    requires few { length kinds.now ≤ most_entries }
    requires keys { length keys.old ≡ length kinds.now }
    requires words { length words.old ≡ entry_words * length kinds.now }
    ensures { MatchResult (entries_from 0 sids.now kinds.now)
        (λ entries. (result ≡ Ok tt) × (entries_of keys.new words.new ≡ entries))
        (λ fault. result ≡ Err fault) }
{
    let mut n = 0;
    let mut rest = sids;
    let mut kinds_left = kinds;
    while let Some((byte, others)) = kinds_left.split_first() {
        let ((sid, kind), size) = entry_at(n, rest, *byte)?;
        write_entry(keys, words, n, &sid, kind);
        rest = &rest[size..];
        kinds_left = others;
        n += 1;
    }
    nothing_behind(n, rest)
}

// Writes the entry with this number, behind those before it.
#[tactic(auto, using(crate::proofs::MemoryLemmas::one_written))]
fn write_entry(keys: &mut [u32], words: &mut [u32], n: usize, sid: &Sid, kind: EntryKind)
    requires within { n < length keys.old }
    requires few { length keys.old ≤ most_entries }
    requires words { length words.old ≡ entry_words * length keys.old }
    ensures { entries_of (take (n + 1) keys.new) words.new
        ≡ entries_of (take n keys.old) words.old ++ (sid.now, kind) ∷ [] }
{
    keys[n] = key_of(sid);
    words[ENTRY_WORDS * n..ENTRY_WORDS * (n + 1)].copy_from_slice(&words_of(sid, kind));
}

/// The token that memory holds, at the level of a request.
#[tactic(auto, unfolding(crate::specs::TokenMemory::entries_held))]
pub fn token_held<'a>(memory: &'a [u32], request: &Request) -> Result<LentToken<'a>, CallFault>
    ensures { MatchResult result
        (λ token. holder_held memory.now (level_of request.now) ≡ Ok token.holder)
        (λ fault. holder_held memory.now (level_of request.now) ≡ Err fault) }
{
    if !holds_token(memory) {
        return Err(CallFault::Argument(Argument::Token, 0));
    }
    Ok(token_in(memory, level_of(request)))
}

// Whether memory holds a token.
fn holds_token(memory: &[u32]) -> bool
    ensures { result ≡ holds_token memory.now }
{
    if memory.len() < KEYS || memory[0] != MARK {
        return false;
    }
    let count = memory[1] as usize;
    count <= MOST_ENTRIES && token_size(count) <= memory.len()
}

// The token that memory holds.
#[tactic(auto, unfolding(crate::specs::TokenMemory::entries_held))]
fn token_in(memory: &[u32], level: Option<u32>) -> LentToken<'_>
    requires { IsTrue (holds_token memory.now) }
    ensures { Ok result.holder ≡ holder_held memory.now level }
{
    let count = memory[1] as usize;
    let (keys, words) = memory[KEYS..token_size(count)].split_at(count);
    LentToken::over(keys, words, level)
}
