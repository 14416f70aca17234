//! A SID that a token's entries are compared with.

ghost use Rattle.std.specs.Prelude.{◌≡◌, ◌<◌, ◌^◌};
ghost use Rattle.sd_sid.specs.Sid.{SecurityId};
ghost use Rattle.sd_sid.specs.SidText.{same_sid};
ghost use Rattle.sd_token.specs.TokenWords.{sid_key};

use crate::words::{key_in_place, key_of};
use sd_sid::Sid;
use sd_sid_view::SidView;

/// A SID by value, or one that is read in place.
pub(crate) trait Sought {
    /// The SID.
    ghost sid: { Self → SecurityId };

    /// Its key.
    fn key(&self) -> u32
        ensures value { result ≡ sid_key (sid self.now) }
        ensures limit { (sid self.now).authority < 2 ^ 48 };

    /// Whether it has this authority and exactly these sub-authorities.
    fn is(&self, authority: u64, subs: &[u32]) -> bool
        ensures { result ≡ same_sid (sid self.now) (record { authority = authority; subs = subs.now }) };
}

impl Sought for Sid {
    ghost sid = { λ s. s };

    #[inline(always)]
    fn key(&self) -> u32 {
        key_of(self)
    }

    #[inline(always)]
    fn is(&self, authority: u64, subs: &[u32]) -> bool {
        Sid::is(self, authority, subs)
    }
}

impl<'a> Sought for SidView<'a> {
    ghost sid = { λ s. s };

    #[inline(always)]
    fn key(&self) -> u32 {
        key_in_place(self)
    }

    #[inline(always)]
    fn is(&self, authority: u64, subs: &[u32]) -> bool {
        SidView::is(self, authority, subs)
    }
}
