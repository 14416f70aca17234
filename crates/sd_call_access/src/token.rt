//! The token that an access check is for.

ghost use Rattle.std.specs.Prelude.{◌≡◌, ◌≤◌, ◌+◌, [], length, MatchResult, IfOk, Ok, Err};
ghost use Rattle.sd_token.specs.Limits.{most_entries};
ghost use Rattle.sd_call_access.specs.Checks.{entries_from, entries_in, entry_at, fault_of, holder_in, kind_in};

use crate::request::{Request, level_of};
use sd_call::{Argument, CallFault};
use sd_sid::Sid;
use sd_token::{EntryKind, MOST_ENTRIES, Token};

/// Gives a new token its SIDs, one after the other, of which each has a byte of `kinds`, and its level.
#[tactic(auto, unfolding(crate::specs::Checks::entries_in))]
pub fn give_holder(
    token: &mut Token,
    sids: &[u8],
    kinds: &[u8],
    request: &Request,
) -> Result<(), CallFault>
    requires { token.old.holder.entries ≡ [] }
    ensures holder { MatchResult (holder_in sids.now kinds.now request.now)
        (λ holder. (result ≡ Ok tt) × (token.new.holder ≡ holder))
        (λ fault. result ≡ Err fault) }
    ensures compared { token.new.compared ≡ token.old.compared }
{
    if kinds.len() > MOST_ENTRIES {
        return Err(CallFault::Argument(Argument::Entries, MOST_ENTRIES));
    }
    add_entries(token, sids, kinds)?;
    token.set_level(level_of(request));
    Ok(())
}

// Adds the SIDs, one after the other.
#[tactic(auto, using(crate::proofs::TokenLemmas::behind_none))]
fn add_entries(token: &mut Token, sids: &[u8], kinds: &[u8]) -> Result<(), CallFault>
    requires none { token.old.holder.entries ≡ [] }
    requires few { length kinds.now ≤ most_entries }
    ensures holder { MatchResult (entries_from 0 sids.now kinds.now)
        (λ entries. (result ≡ Ok tt) × (token.new.holder ≡ record token.old.holder { entries = entries }))
        (λ fault. result ≡ Err fault) }
    ensures compared { token.new.compared ≡ token.old.compared }
{
    let mut n = 0;
    let mut rest = sids;
    let mut kinds_left = kinds;
    while let Some((byte, others)) = kinds_left.split_first() {
        let ((sid, kind), size) = entry_at(n, rest, *byte)?;
        // There is room for all.
        if token.add(sid, kind).is_err() {
            return Err(CallFault::Argument(Argument::Entries, n));
        }
        rest = &rest[size..];
        kinds_left = others;
        n += 1;
    }
    nothing_behind(n, rest)
}

/// Whether these are the entries of a token, told without one.
#[tactic(auto, unfolding(crate::specs::Checks::entries_in))]
pub fn check_entries(sids: &[u8], kinds: &[u8]) -> Result<(), CallFault>
    ensures { result ≡ fault_of (entries_in sids.now kinds.now) }
{
    if kinds.len() <= MOST_ENTRIES {
        return read_entries(sids, kinds);
    }
    Err(CallFault::Argument(Argument::Entries, MOST_ENTRIES))
}

// Reads the SIDs, one after the other.
fn read_entries(sids: &[u8], kinds: &[u8]) -> Result<(), CallFault>
    ensures { result ≡ fault_of (entries_from 0 sids.now kinds.now) }
{
    let mut n = 0;
    let mut sids_left = sids;
    let mut kinds_left = kinds;
    while let Some((byte, later)) = kinds_left.split_first() {
        let (_, size) = entry_at(n, sids_left, *byte)?;
        sids_left = &sids_left[size..];
        kinds_left = later;
        n += 1;
    }
    nothing_behind(n, sids_left)
}

// The entry with this number, whose SID stands at the front of the bytes, and the SID's size.
#[tactic(auto, using(sd_call::proofs::laws::SidSizes::sid_fits))]
pub(crate) fn entry_at(
    n: usize,
    sids: &[u8],
    byte: u8,
) -> Result<((Sid, EntryKind), usize), CallFault>
    ensures exact { result ≡ entry_at n sids.now byte }
    ensures within { IfOk result (λ front. front.1 ≤ length sids.now) }
{
    let kind = kind_in(byte, n)?;
    match Sid::read(sids) {
        Some((sid, size)) => Ok(((sid, kind), size)),
        None => Err(CallFault::Argument(Argument::Sids, n)),
    }
}

// Nothing may stand behind the last SID.
pub(crate) fn nothing_behind(n: usize, sids: &[u8]) -> Result<(), CallFault>
    ensures { result ≡ fault_of (entries_from n sids.now []) }
{
    if sids.is_empty() {
        Ok(())
    } else {
        Err(CallFault::Argument(Argument::Sids, n))
    }
}

// The kind of the entry with this number.
fn kind_in(byte: u8, n: usize) -> Result<EntryKind, CallFault>
    ensures { result ≡ kind_in n byte }
{
    match byte {
        0 => Ok(EntryKind::Enabled),
        1 => Ok(EntryKind::DenyOnly),
        _ => Err(CallFault::Argument(Argument::Entries, n)),
    }
}
