//! Whether a token has a SID, and the SIDs that stand for others.

ghost use Rattle.std.specs.Prelude.{◌≡◌};
ghost use Rattle.sd_sid.specs.SidText.{same_sid};
ghost use Rattle.sd_token.specs.Token.{Asks, meets};
ghost use Rattle.sd_check.specs.Applies.{owner_rights, principal_self, some_meets};

use sd_sid::Sid;
use sd_sid_view::SidView;
use sd_token::{Memory, TokenIn};

/// Whether an entry of the token meets the SID. Entries are compared up to the first that does, or to the end of its
/// block.
// Not inlined, so the loop gets enough registers.
#[inline(never)]
pub fn meets_any<M: Memory>(token: &mut TokenIn<M>, sid: &Sid, deny: bool) -> bool
    ensures value { result ≡ meets sid.now deny token.old.holder.entries }
    ensures asks { Asks token.old token.new 1 }
{
    token.meets_any(sid, deny)
}

/// The same for a SID that is read in place.
// Not inlined, for the same reason.
#[inline(never)]
pub fn meets_any_in_place<M: Memory>(token: &mut TokenIn<M>, sid: &SidView<'_>, deny: bool) -> bool
    ensures value { result ≡ meets sid.now deny token.old.holder.entries }
    ensures asks { Asks token.old token.new 1 }
{
    token.meets_any_in_place(sid, deny)
}

/// The same for one that may be missing; without one, nothing is compared.
pub fn some_meets<M: Memory>(token: &mut TokenIn<M>, sid: Option<SidView<'_>>, deny: bool) -> bool
    ensures value { result ≡ some_meets sid.entry deny token.old.holder.entries }
    ensures asks { Asks token.old token.new 1 }
{
    match sid {
        None => false,
        Some(sid) => meets_any_in_place(token, &sid, deny),
    }
}

/// Whether it is PRINCIPAL SELF, S-1-5-10 (MS-DTYP 2.4.2.4).
pub fn is_principal_self(sid: &SidView<'_>) -> bool
    ensures { result ≡ same_sid sid.now principal_self }
{
    sid.is(5, &[10])
}

/// Whether it is OWNER RIGHTS, S-1-3-4 (MS-DTYP 2.4.2.4).
pub fn is_owner_rights(sid: &SidView<'_>) -> bool
    ensures { result ≡ same_sid sid.now owner_rights }
{
    sid.is(3, &[4])
}
