//! The SIDs of accounts of a domain, `S-1-5-21` and four numbers: most SIDs of a line are such.

ghost use Rattle.std.specs.Prelude.{◌≡◌, ◌≤◌, ◌<◌, ◌∷◌, ◌++◌, ◌⊎◌, codes, length, take, true, IfSome};
ghost use Rattle.std.specs.Str.{byte as char};
ghost use Rattle.sd_sid.specs.Account.{AccountAt, account_sid};
ghost use Rattle.sd_sid.specs.Inner.Read.{NumberAt};
ghost use Rattle.sd_sid.specs.KeptDomain.{IsKept, no_domain, noted, same_domain};
ghost use Rattle.sd_sid.specs.Sid.{IsSid};

use crate::sid::Sid;
use crate::usual_sid::{DOMAIN, NT};
use sd_text::front_decimal;
use std::marker::Model;

/// The text before the numbers of an account, with either letter, and its size.
const DOMAIN_TEXT: &[u8; DOMAIN_TEXT_SIZE] = b"S-1-5-21-";

const SMALL_DOMAIN_TEXT: &[u8; DOMAIN_TEXT_SIZE] = b"s-1-5-21-";

const DOMAIN_TEXT_SIZE: usize = 9;

/// The bytes of the text before the last number of an account, at most: `S-1-5-21-`, three numbers and their dashes.
const MOST_DOMAIN_TEXT: usize = 42;

/// The bytes at both ends of such a text that are compared at once.
const FRONT: usize = 32;

const BACK: usize = 16;

/// The SID of an account of a domain: the numbers after `S-1-5-21-`.
#[derive(Clone, Copy, Default)]
pub struct Account {
    pub first: u32,
    pub second: u32,
    pub third: u32,
    pub last: u32,
}

impl Account {
    /// Shows that the SID keeps the limits of SIDs, and does nothing.
    #[inline(always)]
    pub fn note_limits(self)
        ensures { IsSid (account_sid self) }
    {
        let _ = self.sid();
    }

    /// The same SID in the form that holds any.
    #[inline(always)]
    pub fn sid(self) -> Sid
        ensures value { result ≡ account_sid self }
        ensures limits { IsSid (account_sid self) }
    {
        let mut sid = Sid::blank();
        sid.set_authority(NT);
        sid.push(DOMAIN);
        sid.push(self.first);
        sid.push(self.second);
        sid.push(self.third);
        sid.push(self.last);
        // Its size shows that it keeps the limits.
        let _ = sid.size();
        sid
    }
}

/// The domain of accounts that were read, and the text of their SIDs up to the dash before the last number. Files have
/// accounts of few domains, so the numbers of a domain need not be read again.
#[derive(Drop)]
pub struct KeptDomain {
    cells: [u8; MOST_DOMAIN_TEXT],
    size: usize,
    // Of these two the last number counts for nothing.
    account: Account,
    latest: Account,
}

impl Model for KeptDomain {
    ghost use Rattle.std.specs.Prelude.{◌≤◌, take, length};
    ghost use Rattle.sd_sid.specs.KeptDomain.{DomainOf, IsKept};

    ghost Value = { DomainOf };

    ghost view = { λ k. record { text = take k.size k.cells; account = k.account; latest = k.latest } };

    ghost invariant = { λ k. (k.size ≤ length k.cells) × IsKept (take k.size k.cells) k.account };
}

impl KeptDomain {
    /// None yet.
    pub fn none() -> KeptDomain
        ensures { result ≡ no_domain }
    {
        KeptDomain {
            cells: [0; MOST_DOMAIN_TEXT],
            size: 0,
            account: Account::default(),
            latest: Account::default(),
        }
    }

    /// Notes an account that was read, with the text of its domain, or no text where its domain is kept. A domain with
    /// a text of 32 bytes, as nearly all have, is kept once two accounts of it follow each other: a copy costs time.
    #[inline(always)]
    pub fn note(&mut self, text: &[u8], account: Account)
        requires { IsKept text.now account }
        ensures { self.new ≡ noted self.old text.now account }
    {
        if text.len() < FRONT {
            return;
        }
        if same_domain(account, self.latest) {
            self.size = text.len();
            self.cells[..self.size].copy_from_slice(text);
            self.account = account;
        }
        self.latest = account;
    }

    // The account at the front of a text that is of this domain, and what follows the last digit of its text.
    #[inline(always)]
    fn account_at<'a>(&self, text: &'a [u8]) -> Option<(Account, &'a [u8])>
        ensures { IfSome result (λ r. AccountAt text.now r.0 r.1.now) }
    {
        let own = self.behind_text(text)?;
        let (last, rest) = number(own)?;
        let account = Account {
            last,
            ..self.account
        };
        Some((account, rest))
    }

    // What follows the domain's text at the front. Both of its ends are compared, which overlap: to compare as many
    // bytes as are known when the program is built takes a few steps.
    #[inline(always)]
    fn behind_text<'a>(&self, text: &'a [u8]) -> Option<&'a [u8]>
        ensures { IfSome result (λ r. (0 < length self.now.text) × (text.now ≡ self.now.text ++ r.now)) }
    {
        let size = self.size;
        if size < FRONT || text.len() < size || !has_front::<FRONT>(text, &self.cells) {
            return None;
        }
        if !has_front::<BACK>(&text[size - BACK..], &self.cells[size - BACK..]) {
            return None;
        }
        Some(&text[size..])
    }
}

// Whether the first bytes of two texts are there and the same.
#[inline(always)]
fn has_front<const COUNT: usize>(one: &[u8], other: &[u8]) -> bool
    requires { COUNT ≤ FRONT }
    ensures { result ≡ true → take COUNT one.now ≡ take COUNT other.now }
{
    match (one.first_chunk::<COUNT>(), other.first_chunk::<COUNT>()) {
        (Some(front), Some(same)) => *front == *same,
        _ => false,
    }
}

// Whether two accounts are of one domain.
#[inline(always)]
fn same_domain(one: Account, other: Account) -> bool
    ensures { result ≡ same_domain one other }
{
    one.first == other.first && one.second == other.second && one.third == other.third
}

/// The account at the front of a text, and what follows the last digit of its text. Between them is how many bytes at
/// the front are the text of its domain, or 0 where that domain is kept. `None` means only that the general reader must
/// decide.
#[inline(always)]
pub fn front_account<'a>(text: &'a [u8], kept: &KeptDomain) -> Option<(Account, usize, &'a [u8])>
    ensures found { IfSome result (λ r. AccountAt text.now r.0 r.2.now) }
    ensures within { IfSome result (λ r. r.1 ≤ length text.now) }
    ensures domain { IfSome result (λ r. IsKept (take r.1 text.now) r.0) }
{
    match kept.account_at(text) {
        Some((account, rest)) => Some((account, 0, rest)),
        None => read_account(text),
    }
}

// The same where the account is not of the domain that is kept. Apart, so that the way of most accounts is short.
#[inline(never)]
fn read_account(text: &[u8]) -> Option<(Account, usize, &[u8])>
    ensures found { IfSome result (λ r. AccountAt text.now r.0 r.2.now) }
    ensures within { IfSome result (λ r. r.1 ≤ length text.now) }
    ensures domain { IfSome result (λ r. IsKept (take r.1 text.now) r.0) }
{
    let rest = behind_domain(text)?;
    let (first, rest) = number_and_dash(rest)?;
    let (second, rest) = number_and_dash(rest)?;
    let (third, own) = number_and_dash(rest)?;
    let (last, rest) = number(own)?;
    let account = Account {
        first,
        second,
        third,
        last,
    };
    Some((account, text.len() - own.len(), rest))
}

// A number, and what follows the dash behind it.
#[inline(always)]
fn number_and_dash(text: &[u8]) -> Option<(u32, &[u8])>
    ensures { IfSome result (λ r. NumberAt text.now r.0 (char "-" ∷ r.1.now)) }
{
    let (number, rest) = number(text)?;
    match rest.split_first() {
        Some((b'-', next)) => Some((number, next)),
        _ => None,
    }
}

// The number that the digits at the front write, and what follows these.
#[inline(always)]
fn number(text: &[u8]) -> Option<(u32, &[u8])>
    ensures { IfSome result (λ r. NumberAt text.now r.0 r.1.now) }
{
    let (number, count) = front_decimal(text);
    if count == 0 || number >= 1 << 32 {
        return None;
    }
    Some((number as u32, &text[count..]))
}

// What follows `S-1-5-21-` at the front, or the same with a small `s`. The capital is more usual, so it is tried first.
#[inline(always)]
fn behind_domain(text: &[u8]) -> Option<&[u8]>
    ensures { IfSome result (λ r. (text.now ≡ codes "S-1-5-21-" ++ r.now) ⊎ (text.now ≡ codes "s-1-5-21-" ++ r.now)) }
{
    if !has_front::<DOMAIN_TEXT_SIZE>(text, DOMAIN_TEXT)
        && !has_front::<DOMAIN_TEXT_SIZE>(text, SMALL_DOMAIN_TEXT)
    {
        return None;
    }
    Some(&text[DOMAIN_TEXT_SIZE..])
}
