//! The entries of the tables by their letters, in either case, and by the SID that they name.

ghost use Rattle.std.specs.Prelude.{◌≡◌, ℕ, List, get_or, slice_get};
ghost use Rattle.std.specs.List.{find};
ghost use Rattle.std.specs.Option.{option_copied};
ghost use Rattle.sd_alias.specs.AliasValues.{KnownAliases, RelativeAliases};
ghost use Rattle.sd_alias.specs.NameOfSid.{is_name_of, last_of, passing};
ghost use Rattle.sd_alias.specs.Names.{known_named, relative_named};
ghost use Rattle.sd_alias.specs.Inner.Places.{place_of, sid_place};
ghost use Rattle.sd_alias.specs.declared.places.TheConstants.{NO};
ghost use Rattle.sd_alias.specs.declared.table.TheConstants.{WELL_KNOWN};

use crate::places::{LETTERS, NO, PLACES, SID_PLACES, SID_SPREAD};
use crate::table::{DOMAIN_RELATIVE, DomainRelative, WELL_KNOWN, WellKnown};
use sd_text::capital;

/// What two letters name everywhere, if they do.
pub fn named_known(first: u8, second: u8) -> Option<&'static WellKnown>
    ensures named { option_copied result ≡ known_named first second }
    // The table has the values that AliasValues writes out.
    ensures values { KnownAliases }
{
    let (first, second) = (capital(first), capital(second));
    match entry_at(&WELL_KNOWN, place_of(first, second)) {
        Some(entry) if entry.first == first && entry.second == second => Some(entry),
        _ => None,
    }
}

/// What two letters name in a domain, if they do.
pub fn named_relative(first: u8, second: u8) -> Option<&'static DomainRelative>
    ensures named { option_copied result ≡ relative_named first second }
    ensures values { RelativeAliases }
{
    let (first, second) = (capital(first), capital(second));
    let place = place_of(first, second);
    if place < WELL_KNOWN.len() {
        return None;
    }
    match entry_at(&DOMAIN_RELATIVE, place - WELL_KNOWN.len()) {
        Some(entry) if entry.first == first && entry.second == second => Some(entry),
        _ => None,
    }
}

/// The only name that a SID with this authority and this last sub-authority can have everywhere, if there is one. The
/// caller compares the SID with the one that it names.
#[inline(always)]
pub fn name_for(authority: u64, last: u32) -> Option<&'static WellKnown>
    ensures { (subs : List ℕ) → last_of subs ≡ last
        → find (is_name_of authority subs) WELL_KNOWN ≡ passing (is_name_of authority subs) (option_copied result) }
{
    entry_at(&WELL_KNOWN, sid_place(authority, last))
}

// Where the entry of such a SID stands, if there is one. No two names share a cell, so there is no search.
#[inline(always)]
fn sid_place(authority: u64, last: u32) -> usize
    ensures { result ≡ sid_place authority last }
{
    let key = authority.wrapping_add(u64::from(last) * 32);
    let cell = key.wrapping_mul(SID_SPREAD) / (1 << 57);
    place_in(&SID_PLACES, cell as usize)
}

// Where the entry with these letters stands, if there is one.
fn place_of(first: u8, second: u8) -> usize
    ensures { result ≡ place_of first second }
{
    let row = usize::from(first.saturating_sub(b'A'));
    let column = usize::from(second.saturating_sub(b'A'));
    place_in(&PLACES, LETTERS * row + column)
}

// The place in a cell, and `NO` behind the last cell.
#[inline(always)]
fn place_in(cells: &[u8], cell: usize) -> usize
    ensures { result ≡ get_or cells.now cell NO }
{
    match entry_at(cells, cell) {
        Some(place) => usize::from(*place),
        None => usize::from(NO),
    }
}

fn entry_at<T>(table: &[T], place: usize) -> Option<&T>
    ensures { option_copied result ≡ slice_get table.now place }
{
    table.get(place)
}
