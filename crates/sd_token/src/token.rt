//! Tokens (MS-DTYP 2.5.2).

ghost use Rattle.std.specs.Prelude.{◌≡◌, ◌≤◌, ◌<◌, ◌*◌, ◌^◌, ◌↔◌, ◌++◌, [], ◌∷◌, None, length, slice_index_or, IfOk};
ghost use Rattle.std.specs.Prelude.{OnOk, OnErr, IsErr};
ghost use Rattle.sd_sink.specs.Counts.{counted};
ghost use Rattle.sd_token.specs.Limits.{LimitValues, most_entries};
ghost use Rattle.sd_token.specs.Token.{Asks, counted_by, entry_meets, meets, searched};
ghost use Rattle.sd_token.specs.TokenWords.{entries_of, entry_words};

use crate::entries::{BLOCK, Entries};
use crate::memory::{Lent, Memory, Owned};
use crate::sought::Sought;
use sd_sid::Sid;
use sd_sid_view::SidView;
use sd_sink::NoMemory;
use std::alloc::Global;
use std::marker::Model;

/// The token has 1,024 entries.
#[derive(Clone, Copy, Debug, PartialEq, Eq)]
pub struct TokenFull;

/// Whether an entry of a token grants as well as denies (MS-DTYP 2.5.2).
#[derive(Clone, Copy, Debug, PartialEq, Eq)]
pub enum EntryKind {
    /// It counts for every kind of ACE.
    Enabled,
    /// It counts for ACEs that deny, and for no other.
    DenyOnly,
}

/// Who asks for access: the SIDs of a user and its groups (MS-DTYP 2.5.2), at most 1,024, and perhaps an integrity
/// level.
///
/// A token counts how often an entry is compared. The call that compares one counts it, or counts 16 where it compares
/// 16 keys in one step. No comparison goes uncounted, since no other call compares an entry, and no call makes another
/// token of a token.
#[derive(Drop)]
pub struct TokenIn<M: Memory> {
    entries: Entries<M>,
    level: Option<u32>,
}

/// A token that has memory for 1,024 entries.
pub type Token = TokenIn<Owned>;

/// A token whose entries are in memory of a caller. It has a count of its own.
pub type LentToken<'a> = TokenIn<Lent<'a>>;

impl<M: Memory> Model for TokenIn<M> {
    ghost use Rattle.sd_token.specs.Token.{TokenShown};

    ghost Value = { TokenShown };

    ghost view = { λ t. record {
      holder = record { entries = t.entries.entries; level = t.level };
      compared = t.entries.compared;
      room = t.entries.room;
    } };
}

impl TokenIn<Owned> {
    /// A token without an entry and without a level, with the memory for 1,024 entries.
    pub fn new(alloc: Global) -> Result<Self, NoMemory>
        ensures holder { IfOk result (λ t. t.holder ≡ record { entries = []; level = None }) }
        ensures compared { IfOk result (λ t. t.compared ≡ 0) }
        ensures reserved { IfOk result (λ t. t.room ≡ most_entries) }
    {
        let entries = Entries::new(alloc)?;
        Ok(TokenIn {
            entries,
            level: None,
        })
    }

    /// Adds an entry after the others. An entry that the token has already is kept a second time.
    /// Where it has 1,024 entries, nothing changes.
    ///
    /// ```
    /// let administrators = Sid::new(5, &[32, 544]).expect(&rt, "a SID");
    /// let mut token = Token::new(rt.alloc()).expect(&rt, "memory");
    /// assert!(rt; token.add(administrators, EntryKind::DenyOnly) == Ok(()));
    /// assert!(rt; token.len() == 1);
    /// ```
    #[tactic(auto, unfolding(crate::specs::Limits::LimitValues))]
    pub fn add(&mut self, sid: Sid, kind: EntryKind) -> Result<(), TokenFull>
        ensures full { IsErr result ↔ (most_entries ≤ length self.old.holder.entries) }
        ensures added { OnOk result
            (self.new.holder ≡ record self.old.holder { entries = self.old.holder.entries ++ (sid, kind) ∷ [] }) }
        ensures unchanged { OnErr result (self.new ≡ self.old) }
        ensures compared { self.new.compared ≡ self.old.compared }
        ensures room { self.old.room ≤ self.new.room }
        // The limit has the value that LimitValues writes out.
        ensures limit { LimitValues }
    {
        self.entries.push(&sid, kind)
    }
}

impl<'a> TokenIn<Lent<'a>> {
    /// The token whose entries have these keys and numbers. No entry is compared yet.
    pub fn over(keys: &'a [u32], words: &'a [u32], level: Option<u32>) -> Self
        requires few { length keys.now ≤ most_entries }
        requires whole { entry_words * length keys.now ≤ length words.now }
        ensures holder { result.holder ≡ record { entries = entries_of keys.now words.now; level = level } }
        ensures compared { result.compared ≡ 0 }
    {
        TokenIn {
            entries: Entries::over(keys, words),
            level,
        }
    }
}

impl<M: Memory> TokenIn<M> {
    /// The number of entries.
    pub fn len(&self) -> usize
        ensures entries { result ≡ length self.now.holder.entries }
        ensures most { result ≤ most_entries }
    {
        self.entries.len()
    }

    /// Sets or clears the integrity level of the token (MS-DTYP 2.5.2). Mandatory labels limit a token with a
    /// level alone.
    pub fn set_level(&mut self, level: Option<u32>)
        ensures holder { self.new.holder ≡ record self.old.holder { level = level } }
        ensures compared { self.new.compared ≡ self.old.compared }
        ensures room { self.new.room ≡ self.old.room }
    {
        self.level = level;
    }

    /// The integrity level, if there is one.
    pub fn level(&self) -> Option<u32>
        ensures { result ≡ self.now.holder.level }
    {
        self.level
    }

    /// How often an entry was compared. At `u64::MAX` the count stays.
    pub fn compared(&self) -> u64
        ensures { result ≡ self.now.compared }
    {
        self.entries.compared()
    }

    /// Whether the entry at an index has the SID, and is enabled or may be deny-only. It counts as one comparison.
    ///
    /// ```
    /// let users = Sid::new(5, &[32, 545]).expect(&rt, "a SID");
    /// let mut token = Token::new(rt.alloc()).expect(&rt, "memory");
    /// assert!(rt; token.add(users, EntryKind::DenyOnly) == Ok(()));
    /// assert!(rt; token.meets(0, &users, true) && !token.meets(0, &users, false));
    /// assert!(rt; token.compared() == 2);
    /// ```
    pub fn meets(&mut self, index: usize, sid: &Sid, deny: bool) -> bool
        requires { index < length self.old.holder.entries }
        // The default pair is never used: the index is in range.
        ensures value { result
            ≡ entry_meets sid.now deny (slice_index_or self.old.holder.entries index (sid.now, EntryKind.DenyOnly)) }
        ensures holder { self.new.holder ≡ self.old.holder }
        ensures compared { self.new.compared ≡ counted self.old.compared }
        ensures goes_on { self.old.compared ≤ self.new.compared }
        ensures room { self.new.room ≡ self.old.room }
    {
        self.entries.begin(index);
        self.entries.next_meets(sid, sid.key(), deny)
    }

    /// Whether an entry has the SID, and is enabled or may be deny-only. Entries are compared in blocks of 16, up to
    /// the block with the first that does, and behind the last whole block one by one. Each that is compared counts.
    pub fn meets_any(&mut self, sid: &Sid, deny: bool) -> bool
        ensures value { result ≡ meets sid.now deny self.old.holder.entries }
        ensures holder { self.new.holder ≡ self.old.holder }
        ensures compared { self.new.compared
            ≡ counted_by (searched sid.now deny self.old.holder.entries) self.old.compared }
        ensures asks { Asks self.old self.new 1 }
        ensures room { self.new.room ≡ self.old.room }
    {
        search(&mut self.entries, sid, deny)
    }

    /// The same for a SID that is read in place.
    pub fn meets_any_in_place(&mut self, sid: &SidView<'_>, deny: bool) -> bool
        ensures value { result ≡ meets sid.now deny self.old.holder.entries }
        ensures holder { self.new.holder ≡ self.old.holder }
        ensures compared { self.new.compared
            ≡ counted_by (searched sid.now deny self.old.holder.entries) self.old.compared }
        ensures asks { Asks self.old self.new 1 }
        ensures room { self.new.room ≡ self.old.room }
    {
        search(&mut self.entries, sid, deny)
    }
}

// Whether an entry meets the SID.
#[inline(always)]
fn search<M: Memory, S: Sought>(entries: &mut Entries<M>, sid: &S, deny: bool) -> bool
    ensures value { result ≡ meets (S.sid sid.now) deny entries.old.entries }
    ensures entries { entries.new.entries ≡ entries.old.entries }
    ensures room { entries.new.room ≡ entries.old.room }
    ensures compared { entries.new.compared
        ≡ counted_by (searched (S.sid sid.now) deny entries.old.entries) entries.old.compared }
    ensures limit { entries.old.compared < 2 ^ 64 }
{
    let key = sid.key();
    entries.begin(0);
    while entries.left() >= BLOCK {
        if entries.blocks_meet(sid, key, deny) {
            return true;
        }
    }
    while entries.left() > 0 {
        if entries.next_meets(sid, key, deny) {
            return true;
        }
    }
    false
}
