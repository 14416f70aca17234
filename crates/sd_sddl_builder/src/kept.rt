//! The domains of accounts that were read, kept for those that follow.

ghost use Rattle.std.specs.Prelude.{◌≡◌, ◌≤◌, ◌<◌, ℕ, get_or, length, replicate, set, take, IfSome};
ghost use Rattle.sd_sid.specs.Account.{AccountAt};
ghost use Rattle.sd_sid.specs.KeptDomain.{IsKept, no_domain, noted};

use sd_sid::{Account, KeptDomain, front_account};
use std::array;

/// How many domains are kept at most.
const SLOTS: usize = 32;

/// The places of domains. There are more of them than slots, so that few domains share one.
const PLACES: usize = 128;

/// The front of an account's text, up to the eight bytes behind `S-1-5-21-` that tell its place. In most domains these
/// are digits of the first number.
const TOLD: usize = 17;

/// What spreads these bytes over the places.
const SPREAD: u64 = 0x9e37_79b9_7f4a_7c15;

/// Up to 32 domains, each in the slot of its place. A place gets the next slot where a domain of it is noted first. So
/// the first 32 domains have slots of their own, unless two have one place.
#[derive(Drop)]
pub struct KeptDomains {
    slots: [KeptDomain; SLOTS],
    // The slot of each place, counted from 1, or 0 where it has none yet.
    places: [u8; PLACES],
    // The slot that was given last, or 0.
    given: u8,
}

impl KeptDomains {
    /// None yet.
    pub fn none() -> KeptDomains
        ensures { result.slots ≡ replicate 32 no_domain }
    {
        KeptDomains {
            slots: array::from_fn(|_| KeptDomain::none()),
            places: [0; PLACES],
            given: 0,
        }
    }

    /// The account at the front of a text, and what follows the last digit of its text. Between them is how many bytes
    /// at the front are the text of its domain, or 0 where that domain is kept. `None` means only that the general
    /// reader must decide.
    #[inline(always)]
    pub fn front_account<'a>(&self, text: &'a [u8]) -> Option<(Account, usize, &'a [u8])>
        ensures found { IfSome result (λ r. AccountAt text.now r.0 r.2.now) }
        ensures within { IfSome result (λ r. r.1 ≤ length text.now) }
        ensures domain { IfSome result (λ r. IsKept (take r.1 text.now) r.0) }
    {
        front_account(text, &self.slots[self.slot_of(text)])
    }

    /// Notes an account that was read, with the text of its domain, or no text where its domain is kept.
    #[inline(always)]
    pub fn note(&mut self, text: &[u8], account: Account)
        requires { IsKept text.now account }
        ensures { (slot : ℕ) × (slot < 32) × (self.new.slots
            ≡ set self.old.slots slot (noted (get_or self.old.slots slot no_domain) text.now account)) }
    {
        let slot = self.slot_to_note(text);
        self.slots[slot].note(text, account);
    }

    // The slot of the domain of an account.
    #[inline(always)]
    fn slot_of(&self, text: &[u8]) -> usize
        ensures { result < 32 }
    {
        match place_of(text) {
            Some(place) => slot_in(self.places[place]),
            None => 0,
        }
    }

    // The same. Its place gets a slot if it has none yet.
    #[inline(always)]
    fn slot_to_note(&mut self, text: &[u8]) -> usize
        ensures slot { result < 32 }
        ensures same { self.new.slots ≡ self.old.slots }
    {
        let Some(place) = place_of(text) else {
            return 0;
        };
        if self.places[place] == 0 {
            self.given = self.given % SLOTS as u8 + 1;
            self.places[place] = self.given;
        }
        slot_in(self.places[place])
    }
}

// The slot that is meant by a count from 1.
#[inline(always)]
fn slot_in(count: u8) -> usize
    ensures { result < 32 }
{
    usize::from(count) % SLOTS
}

// The place of the domain of an account, if the text is long enough to tell one.
#[inline(always)]
fn place_of(text: &[u8]) -> Option<usize>
    ensures { IfSome result (λ place. place < 128) }
{
    let told = text.first_chunk::<TOLD>()?;
    let bytes = u64::from_le_bytes([
        told[9], told[10], told[11], told[12], told[13], told[14], told[15], told[16],
    ]);
    Some((bytes.wrapping_mul(SPREAD) / (1 << 57)) as usize)
}
