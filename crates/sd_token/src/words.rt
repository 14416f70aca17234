//! The numbers of 32 bits that stand for an entry of a token.

ghost use Rattle.std.specs.Prelude.{◌≡◌, ◌≤◌, ◌<◌, ◌+◌, ◌*◌, ◌%◌, ◌^◌, ◌||◌, length, take, drop};
ghost use Rattle.sd_sid.specs.Sid.{IsSid};
ghost use Rattle.sd_sid.specs.SidText.{same_sid};
ghost use Rattle.sd_text.specs.Limits.{most_subs};
ghost use Rattle.sd_token.specs.Token.{entry_meets, is_enabled};
ghost use Rattle.sd_token.specs.TokenWords.{entry_of, entry_words, kind_of, sid_key};

use crate::sought::Sought;
use crate::token::EntryKind;
use sd_sid::Sid;
use sd_sid_view::SidView;

/// How many numbers an entry has, beside its key.
pub const ENTRY_WORDS: usize = 19;

/// The first of the sub-authorities, which are the last numbers of an entry.
const SUBS: usize = 4;

/// A number in which most SIDs differ: the last sub-authority (0 where there is none), and in its upper bits how many
/// there are.
pub fn key_of(sid: &Sid) -> u32
    ensures value { result ≡ sid_key sid.now }
    ensures limits { IsSid sid.now }
{
    let subs = sid.subs();
    key(subs.len(), subs.last().copied().unwrap_or(0))
}

/// The key of a SID that is read in place.
#[inline(always)]
pub(crate) fn key_in_place(sid: &SidView<'_>) -> u32
    ensures value { result ≡ sid_key sid.now }
    ensures limit { sid.now.authority < 2 ^ 48 }
{
    // The call gives the prover the limit of the authority.
    let _ = sid.authority();
    key(sid.count(), sid.last())
}

// The key of a SID that has so many sub-authorities, and this one last.
#[inline(always)]
fn key(count: usize, last: u32) -> u32
    requires { count ≤ most_subs }
    ensures { result ≡ (count * 2 ^ 28 + last) % 2 ^ 32 }
{
    ((count as u32) << 28).wrapping_add(last)
}

/// The numbers of an entry.
pub fn words_of(sid: &Sid, kind: EntryKind) -> [u32; ENTRY_WORDS]
    ensures { entry_of result ≡ (sid.now, kind) }
{
    let authority = sid.authority();
    let subs = sid.subs();
    let mut words = [0; ENTRY_WORDS];
    words[0] = (authority >> 32) as u32;
    words[1] = (authority % (1 << 32)) as u32;
    words[2] = subs.len() as u32;
    words[3] = number_of(kind);
    words[SUBS..SUBS + subs.len()].copy_from_slice(subs);
    words
}

/// Whether the numbers of the entry at an index are those of one that meets a SID. Whether it may count is a cheaper
/// question than whether it has the SID.
// Inlined, so that a loop over entries has what it needs of the SID in registers.
#[inline(always)]
#[tactic(auto, using(crate::proofs::TokenLemmas::not_first, crate::proofs::TokenLemmas::then_second))]
pub(crate) fn is_met<S: Sought>(words: &[u32], index: usize, sid: &S, deny: bool) -> bool
    requires { entry_words * (index + 1) ≤ length words.now }
    ensures { result
        ≡ entry_meets (S.sid sid.now) deny (entry_of (take entry_words (drop (entry_words * index) words.now))) }
{
    let entry = &words[ENTRY_WORDS * index..ENTRY_WORDS * (index + 1)];
    may_count(entry, deny) && is_same(entry, sid)
}

#[inline(always)]
fn may_count(entry: &[u32], deny: bool) -> bool
    requires { length entry.now ≡ entry_words }
    ensures { result ≡ (is_enabled (entry_of entry.now).1 || deny) }
{
    is_enabled(entry[3]) || deny
}

#[inline(always)]
#[tactic(auto, using(sd_sid::proofs::laws::AliasLaws::same_sid_comm))]
fn is_same<S: Sought>(entry: &[u32], sid: &S) -> bool
    requires { length entry.now ≡ entry_words }
    ensures { result ≡ same_sid (entry_of entry.now).0 (S.sid sid.now) }
{
    sid.is(authority_of(entry), subs_of(entry))
}

#[inline(always)]
fn authority_of(entry: &[u32]) -> u64
    requires { length entry.now ≡ entry_words }
    ensures { result ≡ (entry_of entry.now).0.authority }
{
    (u64::from(entry[0]) << 32) + u64::from(entry[1])
}

#[inline(always)]
fn subs_of(entry: &[u32]) -> &[u32]
    requires { length entry.now ≡ entry_words }
    ensures { result.now ≡ (entry_of entry.now).0.subs }
{
    let count = entry[2] as usize;
    let subs = &entry[SUBS..];
    if count < subs.len() {
        &subs[..count]
    } else {
        subs
    }
}

fn number_of(kind: EntryKind) -> u32
    ensures { kind_of result ≡ kind }
{
    match kind {
        EntryKind::Enabled => 0,
        EntryKind::DenyOnly => 1,
    }
}

fn is_enabled(number: u32) -> bool
    ensures { result ≡ is_enabled (kind_of number) }
{
    number == 0
}
