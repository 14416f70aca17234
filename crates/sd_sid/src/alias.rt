//! The SIDs that two letters name (MS-DTYP 2.5.1.1), and the letters that name a SID.

ghost use Rattle.std.specs.Prelude.{◌≡◌, ℕ, [], ◌∷◌, ◌==◌, ◌&&◌, IfSome, Some, Ok, slice_index, true, ◌<◌};
ghost use Rattle.std.specs.Char.{is_ascii_uppercase, to_ascii_uppercase};
ghost use Rattle.std.specs.List.{find, list_all};
ghost use Rattle.std.specs.Option.{option_copied};
ghost use Rattle.sd_alias.specs.AliasValues.{KnownAliases, RelativeAliases};
ghost use Rattle.sd_alias.specs.NameOfSid.{last_of};
ghost use Rattle.sd_sid.specs.SidText.{alias_of, known_alias, known_sid, letters_read, relative_alias, same_sid};
ghost use Rattle.sd_sid.specs.SidText.{sid_reads, usable};
ghost use Rattle.sd_sid.specs.Inner.Read.{IsRead};

use crate::sid::Sid;
use crate::sid_text::SidFault;
use sd_alias::{DOMAIN_RELATIVE, DomainRelative, WellKnown, name_for, named_known, named_relative};
use sd_text::MOST_SUBS;

impl Sid {
    /// The two letters that name it, everywhere or in the domain. A domain of 15 sub-authorities has no aliases.
    ///
    /// ```
    /// let system = Sid::new(5, &[18]).expect(&rt, "a SID");
    /// assert!(rt; system.alias(None) == Some(*b"SY"));
    /// ```
    #[inline(always)]
    pub fn alias(&self, domain: Option<&Sid>) -> Option<[u8; 2]>
        ensures exact { result ≡ alias_of self.now (option_copied domain.entry) }
        ensures letters { IfSome result (λ name. list_all is_ascii_uppercase name ≡ true) }
        // The letters read back under the same domain.
        ensures back { IfSome result (λ name. sid_reads name (option_copied domain.entry) ≡ Ok self.now) }
        // No SID has two: letters that read as it are these, in either case.
        ensures only { (a b : ℕ) → sid_reads (a ∷ b ∷ []) (option_copied domain.entry) ≡ Ok self.now
            → result ≡ Some (to_ascii_uppercase a ∷ to_ascii_uppercase b ∷ []) }
        // The aliases have the values that AliasValues writes out.
        ensures known { KnownAliases }
        ensures relative { RelativeAliases }
    {
        alias_in(self, domain)
    }
}

#[inline(always)]
#[tactic(auto, unfolding(crate::specs::SidText::alias_of))]
fn alias_in(sid: &Sid, domain: Option<&Sid>) -> Option<[u8; 2]>
    ensures { result ≡ alias_of sid.now (option_copied domain.entry) }
{
    match find_named(sid.authority(), sid.subs()) {
        Some(name) => Some(name),
        None => relative_alias(sid, usable(domain)?),
    }
}

/// A domain of 15 sub-authorities counts as none.
pub fn usable(domain: Option<&Sid>) -> Option<&Sid>
    ensures { option_copied result ≡ usable (option_copied domain.entry) }
{
    match domain {
        Some(domain) if domain.subs().len() < MOST_SUBS => Some(domain),
        _ => None,
    }
}

// The alias that the SID of these parts has everywhere.
fn find_named(authority: u64, subs: &[u32]) -> Option<[u8; 2]>
    ensures { result ≡ known_alias (record { authority = authority; subs = subs.now }) }
{
    let entry = name_for(authority, last_of(subs))?;
    if !is_known(entry, authority, subs) {
        return None;
    }
    Some([entry.first, entry.second])
}

// The last sub-authority, or 0 where there is none.
fn last_of(subs: &[u32]) -> u32
    ensures { result ≡ last_of subs.now }
{
    match subs.last() {
        Some(last) => *last,
        None => 0,
    }
}

fn is_known(entry: &WellKnown, authority: u64, subs: &[u32]) -> bool
    ensures { result ≡ same_sid (known_sid entry.now) (record { authority = authority; subs = subs.now }) }
{
    u64::from(entry.authority) == authority && entry.sub_authorities() == subs
}

/// The alias that a SID has in a domain.
#[inline(never)]
pub fn relative_alias(sid: &Sid, domain: &Sid) -> Option<[u8; 2]>
    ensures { result ≡ relative_alias sid.now domain.now }
{
    let (last, front) = sid.subs().split_last()?;
    if !domain.is(sid.authority(), front) {
        return None;
    }
    let entry = find_relative(&DOMAIN_RELATIVE, *last)?;
    Some([entry.first, entry.second])
}

fn find_relative(table: &[DomainRelative], last: u32) -> Option<DomainRelative>
    ensures { result ≡ find (λ e. e.last == last) table.now }
{
    table.iter().copied().find(|entry| entry.last == last)
}

/// Gives a SID the value that two letters name, in either case.
#[inline(always)]
#[tactic(auto, unfolding(crate::specs::SidText::letters_read))]
pub(crate) fn read_letters(
    first: u8,
    second: u8,
    domain: Option<&Sid>,
    sid: &mut Sid,
) -> Result<(), SidFault>
    ensures { IsRead (letters_read first second (option_copied domain.entry)) result sid.new }
{
    if let Some(entry) = named_known(first, second) {
        sid.set(u64::from(entry.authority), entry.sub_authorities());
        return Ok(());
    }
    let Some(entry) = named_relative(first, second) else {
        return Err(SidFault::Alias);
    };
    let Some(domain) = usable(domain) else {
        return Err(SidFault::NeedsDomain);
    };
    sid.set(domain.authority(), domain.subs());
    sid.push(entry.last);
    Ok(())
}
