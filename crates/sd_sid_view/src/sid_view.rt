//! SIDs read in place.

ghost use Rattle.std.specs.Prelude.{◌≡◌, ◌≤◌, ◌<◌, ◌+◌, ◌-◌, ◌*◌, ◌^◌, ◌==◌, ◌&&◌, ◌||◌, drop, length, nat_le};
ghost use Rattle.std.specs.Prelude.{slice_index, take};
ghost use Rattle.std.specs.Str.{bytes_eq};
ghost use Rattle.byteorder.specs.Endian.{little_number};
ghost use Rattle.std.specs.List.{flat_map};
ghost use Rattle.sd_sink.specs.Print.{Prints};
ghost use Rattle.sd_sid.specs.Sid.{sid_of, words};
ghost use Rattle.sd_sid.specs.SidText.{alias_of, known_alias, relative_alias, same_sid, sid_text, sub_text};
ghost use Rattle.sd_sid.specs.Naming.{alias_by};
ghost use Rattle.sd_text.specs.Limits.{most_subs};

use byteorder::{BigEndian, ByteOrder, LittleEndian};
use sd_alias::{MOST_KNOWN, name_for};
use sd_sid::{Naming, Sid, print_authority, relative_alias, usable};
use sd_sink::Print;
use sd_text::print_decimal_behind;
use std::marker::Model;

/// The bytes of a SID without sub-authorities.
const HEADER_SIZE: usize = 8;

/// The authority of Windows itself, and the first sub-authority of a domain's SIDs: `S-1-5-21`.
const NT: u64 = 5;

const DOMAIN: u32 = 21;

/// The first sub-authority of the SID of user-mode drivers, `S-1-5-84-0-0-0-0-0`. No other name has six.
const USER_MODE_DRIVERS: u32 = 84;

/// The last sub-authorities of the SIDs that have a name in a domain lie from this one to that one.
const FIRST_RELATIVE: u32 = 498;

const LAST_RELATIVE: u32 = 553;

/// A SID in the bytes that show it (MS-DTYP 2.4.2.2).
#[derive(Drop)]
pub struct SidView<'a> {
    // They begin with it. What follows it is not looked at.
    bytes: &'a [u8],
}

impl<'a> Model for SidView<'a> {
    ghost use Rattle.std.specs.Prelude.{◌≤◌, ◌+◌, ◌*◌, length, slice_index};
    ghost use Rattle.sd_text.specs.Limits.{most_subs};
    ghost use Rattle.sd_sid.specs.Sid.{SecurityId, sid_of};

    ghost Value = { SecurityId };

    ghost view = { λ v. sid_of v.bytes.now };

    ghost invariant = { λ v. (slice_index v.bytes.now 1 ≤ most_subs)
        × (8 + 4 * slice_index v.bytes.now 1 ≤ length v.bytes.now) };
}

impl<'a> SidView<'a> {
    /// The SID at the front of bytes that begin with one, as `Sid::at_front` reads it.
    #[inline(always)]
    pub fn at_front(bytes: &'a [u8]) -> SidView<'a>
        requires count { slice_index bytes.now 1 ≤ most_subs }
        requires whole { 8 + 4 * slice_index bytes.now 1 ≤ length bytes.now }
        ensures exact { result ≡ sid_of bytes.now }
    {
        SidView { bytes }
    }

    /// The SID by value.
    // Inlined, since `AceView::sid` and `SdView::owner` are little else.
    #[inline(always)]
    pub fn sid(&self) -> Sid
        ensures { result ≡ self.now }
    {
        Sid::at_front(self.bytes)
    }

    /// The identifier authority, below 2^48.
    #[inline(always)]
    pub fn authority(&self) -> u64
        ensures value { result ≡ self.now.authority }
        ensures limit { self.now.authority < 2 ^ 48 }
    {
        authority_at_front(self.bytes)
    }

    /// How many sub-authorities it has, at most 15.
    #[inline(always)]
    pub fn count(&self) -> usize
        ensures value { result ≡ length self.now.subs }
        ensures limit { length self.now.subs ≤ most_subs }
    {
        usize::from(self.bytes[1])
    }

    /// The last sub-authority, or 0 where there is none.
    #[inline(always)]
    pub fn last(&self) -> u32
        ensures { result ≡ slice_index self.now.subs (length self.now.subs - 1) }
    {
        match self.count() {
            0 => 0,
            count => self.sub(count - 1),
        }
    }

    /// Whether it has this authority and exactly these sub-authorities, as `Sid::is` finds it.
    #[inline(always)]
    pub fn is(&self, authority: u64, subs: &[u32]) -> bool
        ensures { result ≡ same_sid self.now (record { authority = authority; subs = subs.now }) }
    {
        // Most SIDs have one authority, so it is compared last.
        self.count() == subs.len() && self.has_subs(subs) && self.authority() == authority
    }

    // Whether these are the sub-authorities, where there are as many. Fewer than four are compared one by one. Else the
    // first four and the last four are compared in one step, which is all for up to eight. Those between take one step
    // more, or two.
    #[inline(always)]
    fn has_subs(&self, subs: &[u32]) -> bool
        requires { length subs.now ≡ length self.now.subs }
        ensures { result ≡ bytes_eq self.now.subs subs.now }
    {
        let count = self.count();
        if count < 4 {
            return self.has_few(subs);
        }
        let last = count - 4;
        if !(self.has_four(subs, 0) & self.has_four(subs, last)) {
            return false;
        }
        if last <= 4 {
            return true;
        }
        if !self.has_four(subs, 4) {
            return false;
        }
        // There are at most 15, so four more are all.
        last <= 8 || self.has_four(subs, 8)
    }

    // The same, one by one.
    #[inline(always)]
    fn has_few(&self, subs: &[u32]) -> bool
        requires { length subs.now ≡ length self.now.subs }
        ensures { result ≡ bytes_eq self.now.subs subs.now }
    {
        for i in 0..subs.len() {
            if self.sub(i) != subs[i] {
                return false;
            }
        }
        true
    }

    // Whether the four numbers from a place on are the sub-authorities there. All are compared, without a branch
    // between.
    #[inline(always)]
    fn has_four(&self, subs: &[u32], at: usize) -> bool
        requires many { length subs.now ≡ length self.now.subs }
        requires within { at + 4 ≤ length subs.now }
        ensures { result ≡ bytes_eq (take 4 (drop at self.now.subs)) (take 4 (drop at subs.now)) }
    {
        (self.sub(at) == subs[at])
            & (self.sub(at + 1) == subs[at + 1])
            & (self.sub(at + 2) == subs[at + 2])
            & (self.sub(at + 3) == subs[at + 3])
    }

    #[inline(always)]
    fn sub(&self, at: usize) -> u32
        requires { at < length self.now.subs }
        ensures { result ≡ slice_index self.now.subs at }
    {
        word_at(self.bytes, HEADER_SIZE + 4 * at)
    }

    /// Prints the text, as `Sid::print_text` does.
    #[inline(always)]
    pub fn print_text<P: Print>(&self, out: &mut P)
        ensures put { Prints (P.told out.old) (P.told out.new) (sid_text self.now) }
    {
        // Most SIDs are of a domain.
        if self.is_of_domain() {
            out.put(b"S-1-5-21");
            print_subs(
                &self.bytes[HEADER_SIZE + 4..],
                usize::from(self.bytes[1]) - 1,
                out,
            );
        } else {
            self.print_any(out);
        }
    }

    #[inline(always)]
    fn is_of_domain(&self) -> bool
        ensures { result ≡ (nat_le 1 (length self.now.subs) && self.now.authority == 5
            && slice_index self.now.subs 0 == 21) }
    {
        self.count() >= 1 && self.authority() == NT && self.sub(0) == DOMAIN
    }

    #[inline(never)]
    fn print_any<P: Print>(&self, out: &mut P)
        ensures { Prints (P.told out.old) (P.told out.new) (sid_text self.now) }
    {
        out.put(b"S-1-");
        print_authority(self.authority(), out);
        print_subs(&self.bytes[HEADER_SIZE..], usize::from(self.bytes[1]), out);
    }

    /// The alias by which it is printed, as `Naming::alias` finds it.
    #[inline(always)]
    #[tactic(auto, unfolding(sd_sid::specs::SidText::alias_of))]
    pub fn alias_by(&self, naming: &Naming) -> Option<[u8; 2]>
        ensures { result ≡ alias_by naming.now self.now }
    {
        if naming.numeric {
            return None;
        }
        match self.known_alias() {
            Some(name) => Some(name),
            None => self.relative_alias(usable(naming.domain.as_ref())?),
        }
    }

    // Most SIDs have more sub-authorities than those with a name, so this is tested first.
    #[inline(always)]
    fn known_alias(&self) -> Option<[u8; 2]>
        ensures { result ≡ known_alias self.now }
    {
        if !self.may_be_known() {
            return None;
        }
        self.find_alias()
    }

    // Whether the SID of a name has as many sub-authorities: one, two, or six with this first one.
    #[inline(always)]
    fn may_be_known(&self) -> bool
        ensures { result ≡ (length self.now.subs == 1 || length self.now.subs == 2
            || (length self.now.subs == 6 && slice_index self.now.subs 0 == 84)) }
    {
        let count = self.count();
        count == 1 || count == 2 || count == MOST_KNOWN && self.sub(0) == USER_MODE_DRIVERS
    }

    #[inline(always)]
    fn find_alias(&self) -> Option<[u8; 2]>
        ensures { result ≡ known_alias self.now }
    {
        let entry = name_for(self.authority(), self.last())?;
        if !self.is(u64::from(entry.authority), entry.sub_authorities()) {
            return None;
        }
        Some([entry.first, entry.second])
    }

    // Most accounts have a higher number than those with a name in their domain. So the test for these is inlined, and
    // the search is a call.
    #[inline(always)]
    fn relative_alias(&self, domain: &Sid) -> Option<[u8; 2]>
        ensures { result ≡ relative_alias self.now domain.now }
    {
        if !self.may_be_relative() {
            return None;
        }
        self.find_relative(domain)
    }

    // Whether a SID with this last sub-authority may have a name in a domain.
    #[inline(always)]
    fn may_be_relative(&self) -> bool
        ensures { result ≡ (nat_le 498 (slice_index self.now.subs (length self.now.subs - 1))
            && nat_le (slice_index self.now.subs (length self.now.subs - 1)) 553) }
    {
        let last = self.last();
        FIRST_RELATIVE <= last && last <= LAST_RELATIVE
    }

    // Few SIDs come here, so the SID is copied.
    #[inline(never)]
    fn find_relative(&self, domain: &Sid) -> Option<[u8; 2]>
        ensures { result ≡ relative_alias self.now domain.now }
    {
        relative_alias(&self.sid(), domain)
    }
}

// The authority of the SID at the front of the bytes.
#[inline(always)]
fn authority_at_front(bytes: &[u8]) -> u64
    requires { 8 ≤ length bytes.now }
    ensures value { result ≡ (sid_of bytes.now).authority }
    ensures limit { result < 2 ^ 48 }
{
    BigEndian::read_u48(&bytes[2..])
}

#[inline(always)]
fn word_at(bytes: &[u8], offset: usize) -> u32
    requires { offset + 4 ≤ length bytes.now }
    ensures { result ≡ little_number 4 (drop offset bytes.now) }
{
    LittleEndian::read_u32(&bytes[offset..])
}

// Prints a dash and a number for each sub-authority at the front of the bytes.
#[inline(never)]
fn print_subs<P: Print>(bytes: &[u8], count: usize, out: &mut P)
    requires { 4 * count ≤ length bytes.now }
    ensures { Prints (P.told out.old) (P.told out.new) (flat_map sub_text (words count bytes.now)) }
{
    for i in 0..count {
        print_decimal_behind(b'-', word_at(bytes, 4 * i), out);
    }
}
