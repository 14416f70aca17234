//! Security identifiers (MS-DTYP 2.4.2).

ghost use Rattle.std.specs.Prelude.{◌≡◌, ◌≤◌, ◌<◌, ◌+◌, ◌*◌, ◌^◌, ◌↔◌, [], ◌∷◌, ◌++◌, length, slice_index, IsSome};
ghost use Rattle.std.specs.Prelude.{IfSome, Some};
ghost use Rattle.std.specs.Option.{option_map};
ghost use Rattle.byteorder.specs.Endian.{big_bytes};
ghost use Rattle.sd_text.specs.Limits.{most_subs};
ghost use Rattle.sd_sid.specs.Sid.{SecurityId, IsSid, BeginsWithSid, sid_at, sid_of, sid_size};
ghost use Rattle.sd_sid.specs.SidText.{same_sid};

use byteorder::{BigEndian, ByteOrder, LittleEndian};
use sd_text::MOST_SUBS;
use std::marker::Model;

/// The bytes of a SID without sub-authorities: revision, count and identifier authority.
const HEADER_SIZE: usize = 8;

/// A security identifier (MS-DTYP 2.4.2): an identifier authority below 2^48 and at most 15 sub-authorities.
#[derive(Clone, Copy, Debug, PartialEq, Eq)]
pub struct Sid {
    authority: u64,
    count: usize,
    // Zeros from `count` on, so that equal SIDs have equal fields.
    subs: [u32; MOST_SUBS],
}

impl Model for Sid {
    ghost use Rattle.std.specs.Prelude.{◌≡◌, ◌≤◌, ◌<◌, ◌-◌, ◌^◌, ◌++◌, length, take, drop, replicate};
    ghost use Rattle.sd_text.specs.Limits.{most_subs};
    ghost use Rattle.sd_sid.specs.Sid.{SecurityId, AreWords};
    ghost use Rattle.sd_sid.specs.Inner.SidFields.{refilled, kept_length};

    ghost Value = { SecurityId };

    ghost view = { λ s. record { authority = s.authority; subs = take s.count s.subs } };

    ghost invariant = { λ s. (s.authority < 2 ^ 48) × (s.count ≤ most_subs) × (length s.subs ≡ most_subs)
        × (drop s.count s.subs ≡ replicate (most_subs - s.count) 0) × AreWords s.subs };

    ghost inverse = { λ s. record {
      authority = s.authority;
      count = length s.subs;
      subs = s.subs ++ replicate (most_subs - length s.subs) 0;
    } };

    ghost inverse_ok = { λ s h i. record {
      authority = s.authority;
      count = kept_length s.count s.subs h.1 h.2 i;
      subs = refilled s.count s.subs h.1 h.2 h.3 i;
    } };
}

impl Sid {
    /// The SID of these parts. None if the authority is 2^48 or more, or if there are more than 15 sub-authorities.
    ///
    /// ```
    /// assert!(rt; Sid::new(5, &[32, 544]).map(|sid| sid.size()) == Some(16));
    /// ```
    pub fn new(authority: u64, subs: &[u32]) -> Option<Sid>
        ensures found { IsSome result ↔ ((authority < 2 ^ 48) × (length subs.now ≤ most_subs)) }
        ensures value { IfSome result (λ s. s ≡ record { authority = authority; subs = subs.now }) }
    {
        if authority >= 1 << 48 || subs.len() > MOST_SUBS {
            return None;
        }
        let mut sid = Sid::blank();
        sid.set(authority, subs);
        Some(sid)
    }

    /// A SID of authority 0 and without sub-authorities, to be filled in.
    pub fn blank() -> Sid
        ensures { result ≡ record { authority = 0; subs = [] } }
    {
        Sid {
            authority: 0,
            count: 0,
            subs: [0; MOST_SUBS],
        }
    }

    /// Gives it these parts.
    pub(crate) fn set(&mut self, authority: u64, subs: &[u32])
        requires authority { authority < 2 ^ 48 }
        requires few { length subs.now ≤ most_subs }
        ensures { self.new ≡ record { authority = authority; subs = subs.now } }
    {
        *self = Sid {
            authority,
            ..Sid::blank()
        };
        // Most names mean SIDs of one or two sub-authorities, which are written faster than copied.
        for sub in subs {
            self.push(*sub);
        }
    }

    pub(crate) fn set_authority(&mut self, authority: u32)
        ensures { self.new ≡ record self.old { authority = authority } }
    {
        *self = Sid {
            authority: u64::from(authority),
            ..*self
        };
    }

    /// Appends a sub-authority.
    pub(crate) fn push(&mut self, sub: u32)
        requires { length self.old.subs < most_subs }
        ensures { self.new ≡ record self.old { subs = self.old.subs ++ sub ∷ [] } }
    {
        self.subs[self.count] = sub;
        self.count += 1;
    }

    /// The SID at the front of the bytes, and its size in bytes (MS-DTYP 2.4.2.2). None where the
    /// revision is not 1, the count is over 15 or the bytes end too soon.
    pub fn read(bytes: &[u8]) -> Option<(Sid, usize)>
        // What is found is there.
        ensures found { IfSome result (λ r. BeginsWithSid bytes.now r.0 × (r.1 ≡ sid_size r.0)) }
        // What is there is found, and nothing else is there.
        ensures only { (s : SecurityId) → BeginsWithSid bytes.now s → result ≡ Some (s, sid_size s) }
        // The same as a function of the bytes.
        ensures exact { result ≡ sid_at bytes.now }
    {
        let size = Sid::size_at_front(bytes)?;
        Some((Sid::at_front(bytes), size))
    }

    /// The size in bytes of the SID at the front of the bytes, as `read` finds it. None where there is none.
    #[tactic(auto, unfolding(crate::specs::Sid::sid_at))]
    pub fn size_at_front(bytes: &[u8]) -> Option<usize>
        ensures exact { result ≡ option_map (λ r. r.1) (sid_at bytes.now) }
        // Where there is one, it is the one that `at_front` gives.
        ensures found { IfSome result (λ n. BeginsWithSid bytes.now (sid_of bytes.now)
            × (n ≡ sid_size (sid_of bytes.now)) × (sid_at bytes.now ≡ Some (sid_of bytes.now, n))) }
    {
        if bytes.len() < HEADER_SIZE || bytes[0] != 1 {
            return None;
        }
        let count = usize::from(bytes[1]);
        if count > MOST_SUBS || bytes.len() < HEADER_SIZE + 4 * count {
            return None;
        }
        Some(HEADER_SIZE + 4 * count)
    }

    /// The SID that `read` finds at the front. The count is at most 15, and there are as many sub-authorities.
    pub fn at_front(bytes: &[u8]) -> Sid
        requires count { slice_index bytes.now 1 ≤ most_subs }
        requires whole { 8 + 4 * slice_index bytes.now 1 ≤ length bytes.now }
        ensures exact { result ≡ sid_of bytes.now }
    {
        let count = usize::from(bytes[1]);
        let authority = BigEndian::read_u48(&bytes[2..]);
        let mut sid = Sid {
            authority,
            count,
            subs: [0; MOST_SUBS],
        };
        for i in 0..count {
            sid.subs[i] = LittleEndian::read_u32(&bytes[HEADER_SIZE + 4 * i..]);
        }
        sid
    }

    /// The size in bytes: 8, and 4 for each sub-authority.
    pub fn size(&self) -> usize
        ensures value { result ≡ sid_size self.now }
        ensures limits { IsSid self.now }
    {
        HEADER_SIZE + 4 * self.count
    }

    /// The bytes before the sub-authorities (MS-DTYP 2.4.2.2): revision, count and identifier authority.
    pub fn header(&self) -> [u8; HEADER_SIZE]
        ensures { result ≡ 1 ∷ length self.now.subs ∷ big_bytes 6 self.now.authority }
    {
        let mut header = [0; HEADER_SIZE];
        header[0] = 1;
        header[1] = self.count as u8;
        BigEndian::write_u48(&mut header[2..], self.authority);
        header
    }

    /// The identifier authority, below 2^48.
    pub fn authority(&self) -> u64
        ensures value { result ≡ self.now.authority }
        ensures limits { IsSid self.now }
    {
        self.authority
    }

    /// The sub-authorities, at most 15.
    pub fn subs(&self) -> &[u32]
        ensures value { result.now ≡ self.now.subs }
        ensures limits { IsSid self.now }
    {
        &self.subs[..self.count]
    }

    /// Whether it has this authority and exactly these sub-authorities.
    // Inlined, so that a caller with constant sub-authorities compares a known number of them.
    #[inline(always)]
    pub fn is(&self, authority: u64, subs: &[u32]) -> bool
        ensures { result ≡ same_sid self.now (record { authority = authority; subs = subs.now }) }
    {
        authority == self.authority() && subs == self.subs()
    }
}
