//! Lists of ACEs that are edited.

ghost use Rattle.std.specs.Prelude.{◌≡◌, ◌≤◌, ◌<◌, ◌+◌, ◌^◌, ◌++◌, ◌∷◌, [], not, length, map, count_by};
ghost use Rattle.std.specs.Prelude.{vec_len, None, Some, IfOk, OnOk, IfSome, MatchOption, take, if◌then◌else◌};
ghost use Rattle.std.specs.List.{filter, insert, remove};
ghost use Rattle.sd_acl_view.specs.Acl.{acl_size};
ghost use Rattle.sd_edit.specs.declared.change.ListChange.TheVariants as lists;
ghost use Rattle.sd_edit.specs.Matching.{matches};
ghost use Rattle.sd_edit.specs.Order.{behind_last, first_fall, no_higher, of_rank, ordered, rank, ranks};
ghost use Rattle.sd_edit.specs.Lists.{Changes, list_edited, place_for, set_where};

use crate::change::{ListChange, Place};
use crate::matching::Match;
use crate::rank::{Order, rank_of};
use crate::setting::Setting;
use sd_ace::Ace;
use sd_parts::{ACL_HEADER_SIZE, MOST_ACL_SIZE, Which};
use sd_sink::NoMemory;
use std::alloc::{AllocError, Global};

/// The size of an ACL of these ACEs (MS-DTYP 2.4.5). None where it would pass 65,535 bytes.
pub fn acl_size(aces: &[Ace]) -> Option<usize>
    ensures { MatchOption result (2 ^ 16 ≤ acl_size aces.now)
        (λ size. (size ≡ acl_size aces.now) × (size < 2 ^ 16)) }
{
    let mut size = ACL_HEADER_SIZE;
    for ace in aces {
        size += usize::from(ace.size());
        if size > MOST_ACL_SIZE {
            return None;
        }
    }
    Some(size)
}

/// The rank of an ACE.
fn rank(which: Which, ace: &Ace) -> u8
    ensures value { result ≡ rank which ace.now }
    ensures most { result ≤ 2 }
{
    rank_of(which, ace.kind(), ace.flags())
}

// The place of the first ACE whose rank is below that of the one before.
fn first_fall(which: Which, aces: &[Ace]) -> Option<usize>
    requires { length aces.now ≤ 65535 }
    ensures { result ≡ first_fall (ranks which aces.now) }
{
    let mut order = Order::new();
    for ace in aces {
        order = order.see(rank(which, ace));
    }
    order.fall()
}

// The place behind the last ACE of no higher rank.
fn behind_last(which: Which, new: &Ace, aces: &[Ace]) -> usize
    requires { length aces.now ≤ 65535 }
    ensures value { result ≡ behind_last (no_higher which new.now) aces.now }
    ensures within { result ≤ length aces.now }
{
    let mut place = 0;
    let mut i = 0;
    for ace in aces {
        place = place_behind(which, new, ace, i, place);
        i += 1;
    }
    place
}

// The place behind an ACE of no higher rank, and else the one so far.
fn place_behind(which: Which, new: &Ace, ace: &Ace, i: usize, place: usize) -> usize
    requires { i ≤ 65535 }
    ensures { result ≡ (if no_higher which new.now ace.now then i + 1 else place) }
{
    if rank(which, new) < rank(which, ace) {
        place
    } else {
        i + 1
    }
}

// Where an ACE is put, if it can be.
fn place_for(which: Which, place: &Place, new: &Ace, aces: &[Ace]) -> Option<usize>
    requires { length aces.now ≤ 65535 }
    ensures value { result ≡ place_for which place.now new.now aces.now }
    ensures within { IfSome result (λ n. n ≤ length aces.now) }
{
    match place {
        Place::At(n) => {
            let n = *n as usize;
            if n > aces.len() { None } else { Some(n) }
        }
        Place::End => Some(aces.len()),
        Place::ByOrder => {
            if first_fall(which, aces).is_some() {
                return None;
            }
            Some(behind_last(which, new, aces))
        }
    }
}

// How many ACEs match.
fn count_of(matching: &Match, aces: &[Ace]) -> u32
    requires { length aces.now ≤ 65535 }
    ensures { result ≡ count_by (matches matching.now) aces.now }
{
    let mut count = 0;
    for ace in aces {
        if matching.matches(ace) {
            count += 1;
        }
    }
    count
}

/// Appends an ACE.
pub fn push(aces: &mut Vec<Ace>, ace: &Ace) -> Result<(), NoMemory>
    ensures { OnOk result (aces.new.items ≡ aces.old.items ++ ace.now ∷ []) }
{
    match aces.push(*ace) {
        Ok(()) => Ok(()),
        Err(refused) => Err(AllocError::from(refused).into()),
    }
}

// The ACEs that don't match.
fn without(alloc: Global, matching: &Match, aces: &[Ace]) -> Result<Vec<Ace>, NoMemory>
    ensures { IfOk result (λ v. v.items ≡ filter (λ a. not (matches matching.now a)) aces.now) }
{
    let mut kept = Vec::new(alloc);
    for ace in aces {
        if !matching.matches(ace) {
            push(&mut kept, ace)?;
        }
    }
    Ok(kept)
}

// Gives each ACE that matches the setting.
#[tactic(auto, using(crate::proofs::WalkLemmas::set_next))]
fn set_each(matching: &Match, setting: &Setting, aces: &mut [Ace])
    ensures { aces.new ≡ map (set_where matching.now setting.now) aces.old }
{
    for i in 0..aces.len() {
        aces[i] = set_where(matching, setting, &aces[i]);
    }
}

fn set_where(matching: &Match, setting: &Setting, ace: &Ace) -> Ace
    ensures { result ≡ set_where matching.now setting.now ace.now }
{
    if matching.matches(ace) {
        setting.given_to(ace)
    } else {
        *ace
    }
}

/// The ACEs in order.
pub fn ordered(alloc: Global, which: Which, aces: &[Ace]) -> Result<Vec<Ace>, NoMemory>
    ensures { IfOk result (λ v. v.items ≡ ordered which aces.now) }
{
    let mut sorted = Vec::new(alloc);
    push_rank(&mut sorted, which, 0, aces)?;
    push_rank(&mut sorted, which, 1, aces)?;
    push_rank(&mut sorted, which, 2, aces)?;
    Ok(sorted)
}

// Appends the ACEs of one rank.
fn push_rank(sorted: &mut Vec<Ace>, which: Which, n: u8, aces: &[Ace]) -> Result<(), NoMemory>
    ensures { OnOk result (sorted.new.items ≡ sorted.old.items ++ of_rank which n aces.now) }
{
    for ace in aces {
        if rank(which, ace) == n {
            push(sorted, ace)?;
        }
    }
    Ok(())
}

/// Changes the ACEs of a list, and says how many it put, took or set; None, and nothing is changed, where it can't be.
pub fn change_list(
    alloc: Global,
    which: Which,
    change: &ListChange,
    aces: &mut Vec<Ace>,
) -> Result<Option<u32>, NoMemory>
    requires { vec_len aces.old ≤ 65535 }
    ensures { IfOk result (λ count. Changes (list_edited which change.now aces.old.items) aces.new.items count) }
{
    match change {
        ListChange::Put(place, new) => put(which, place, new, aces),
        ListChange::Take(place) => Ok(take(*place as usize, aces)),
        ListChange::Replace(place, new) => Ok(replace(*place as usize, new, aces)),
        ListChange::TakeEach(matching) => take_each(alloc, matching, aces),
        ListChange::SetEach(matching, setting) => Ok(set_all(matching, setting, aces)),
    }
}

#[tactic(auto, unfolding(crate::specs::Lists::list_edited))]
fn put(which: Which, place: &Place, new: &Ace, aces: &mut Vec<Ace>) -> Result<Option<u32>, NoMemory>
    requires { vec_len aces.old ≤ 65535 }
    ensures { IfOk result
        (λ count. Changes (list_edited which (lists.Put place.now new.now) aces.old.items) aces.new.items count) }
{
    let Some(n) = place_for(which, place, new, aces) else {
        return Ok(None);
    };
    match aces.insert(n, *new) {
        Ok(()) => Ok(Some(1)),
        Err(refused) => Err(AllocError::from(refused).into()),
    }
}

#[tactic(auto, unfolding(crate::specs::Lists::list_edited))]
fn take(place: usize, aces: &mut Vec<Ace>) -> Option<u32>
    ensures { (w : Which) → Changes (list_edited w (lists.Take place) aces.old.items) aces.new.items result }
{
    if place >= aces.len() {
        return None;
    }
    aces.remove(place);
    Some(1)
}

#[tactic(auto, unfolding(crate::specs::Lists::list_edited))]
fn replace(place: usize, new: &Ace, aces: &mut Vec<Ace>) -> Option<u32>
    ensures { (w : Which) → Changes (list_edited w (lists.Replace place new.now) aces.old.items) aces.new.items result }
{
    if place >= aces.len() {
        return None;
    }
    aces[place] = *new;
    Some(1)
}

#[tactic(auto, unfolding(crate::specs::Lists::list_edited))]
fn take_each(alloc: Global, matching: &Match, aces: &mut Vec<Ace>) -> Result<Option<u32>, NoMemory>
    requires { vec_len aces.old ≤ 65535 }
    ensures { (w : Which) → IfOk result
        (λ count. Changes (list_edited w (lists.TakeEach matching.now) aces.old.items) aces.new.items count) }
{
    let count = count_of(matching, aces);
    *aces = without(alloc, matching, aces)?;
    Ok(Some(count))
}

#[tactic(auto, unfolding(crate::specs::Lists::list_edited))]
fn set_all(matching: &Match, setting: &Setting, aces: &mut Vec<Ace>) -> Option<u32>
    requires { vec_len aces.old ≤ 65535 }
    ensures { (w : Which) →
        Changes (list_edited w (lists.SetEach matching.now setting.now) aces.old.items) aces.new.items result }
{
    let count = count_of(matching, aces);
    set_each(matching, setting, aces);
    Some(count)
}
