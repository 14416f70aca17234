//! Who an ACE is for, or the owner or the group of a descriptor.

ghost use Rattle.std.specs.Prelude.{◌≡◌, ◌≤◌, length};
ghost use Rattle.sd_builder.specs.Trustee.{IsTrustee, trustee_sid};
ghost use Rattle.sd_sid.specs.Sid.{IsSid, sid_size};

use sd_alias::{MOST_KNOWN, WellKnown};
use sd_sid::{Account, Sid};

/// The sub-authorities of an account of a domain: most SIDs have as many.
pub const ACCOUNT_SUBS: usize = 5;

/// The size of the SID of such an account.
pub const ACCOUNT_SID_SIZE: usize = 8 + 4 * ACCOUNT_SUBS;

/// A SID, in the form in which it was read.
#[derive(Clone, Copy)]
pub enum Trustee<'a> {
    /// An account of a domain. Its numbers go into a buffer from where they were read.
    Account(Account),
    /// A SID that two letters name everywhere. Its numbers go there from the table of names.
    Named(&'a WellKnown),
    Sid(&'a Sid),
}

impl<'a> Trustee<'a> {
    // The size of its SID (MS-DTYP 2.4.2.2), which shows that it keeps the limits of SIDs.
    #[inline(always)]
    pub(crate) fn size(self) -> u16
        requires { IsTrustee self }
        ensures value { result ≡ sid_size (trustee_sid self.entry) }
        ensures limits { IsSid (trustee_sid self.entry) }
    {
        match self {
            Trustee::Account(account) => {
                account.note_limits();
                ACCOUNT_SID_SIZE as u16
            }
            Trustee::Named(name) => {
                let subs = &name.subs[..name.count];
                note_limits(name.authority, subs);
                (8 + 4 * subs.len()) as u16
            }
            Trustee::Sid(sid) => sid.size() as u16,
        }
    }
}

// Shows that a SID of these parts keeps the limits of SIDs, and does nothing. A slice shows that each number is below
// 2^32; an array does not.
#[inline(always)]
fn note_limits(authority: u8, subs: &[u32])
    requires { length subs.now ≤ MOST_KNOWN }
    ensures { IsSid (record { authority = authority; subs = subs.now }) }
{
    let _ = (authority, subs.len());
}
