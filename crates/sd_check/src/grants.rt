//! The rights that are granted without an ACE.

ghost use Rattle.std.specs.Prelude.{◌≡◌, false};
ghost use Rattle.sd_token.specs.Token.{Asks};
ghost use Rattle.sd_check.specs.Granted.{is_for_owner_rights, is_open, is_owned, names_owner_rights};
ghost use Rattle.sd_check.specs.Inner.Scan.{asks_owner, without_ace_mask};

use crate::applies::is_effective;
use crate::ask::Ask;
use crate::trustee::{is_owner_rights, some_meets};
use sd_acl_view::{AceView, AclView};
use sd_rights::{
    ACCESS_SYSTEM_SECURITY, BELOW_SYSTEM_SECURITY, READ_CONTROL, WRITE_DAC, WRITE_OWNER, mask_if,
};
use sd_token::{Memory, TokenIn};
use sd_view::{AclPart, SdView};

/// The rights that are granted whatever the ACEs say, as far as they are in question.
#[tactic(auto, unfolding(crate::specs::Inner::Scan::without_ace_mask))]
pub fn granted_without_ace<M: Memory>(
    view: &SdView,
    token: &mut TokenIn<M>,
    ask: &Ask,
    question: u32,
) -> u32
    ensures value { result ≡ without_ace_mask question view.now token.old.holder.entries ask.now }
    ensures asks { Asks token.old token.new 1 }
    ensures spared { asks_owner question view.now.dacl ≡ false → token.new.compared ≡ token.old.compared }
{
    let owned = asks_owner(view, question) && is_owned(view, token);
    mask_if(ask.security(), ACCESS_SYSTEM_SECURITY)
        | mask_if(ask.take_ownership(), WRITE_OWNER)
        | mask_if(owned, READ_CONTROL | WRITE_DAC)
        | mask_if(is_open(view), BELOW_SYSTEM_SECURITY)
}

// Whether the DACL is null or absent.
pub fn is_open(view: &SdView) -> bool
    ensures { result ≡ is_open view.now.dacl }
{
    matches!(view.dacl(), AclPart::Absent | AclPart::Null)
}

// Whether it matters who the owner is: a right that an owner has is in question, and no null or absent DACL grants it.
fn asks_owner(view: &SdView, question: u32) -> bool
    ensures { result ≡ asks_owner question view.now.dacl }
{
    !is_open(view) && question & (READ_CONTROL | WRITE_DAC) != 0
}

// Whether the owner is one of the token's, and no ACE says what an owner may do.
fn is_owned<M: Memory>(view: &SdView, token: &mut TokenIn<M>) -> bool
    ensures value { result ≡ is_owned view.now token.old.holder.entries }
    ensures asks { Asks token.old token.new 1 }
{
    some_meets(token, view.owner_in_place(), false)
        && match view.dacl() {
            AclPart::List(acl) => !names_owner_rights(&acl),
            AclPart::Absent | AclPart::Null => true,
        }
}

// Whether an ACE is for OWNER RIGHTS. No entry of a token is looked at.
fn names_owner_rights(acl: &AclView) -> bool
    ensures { result ≡ names_owner_rights acl.now }
{
    for ace in acl.aces() {
        if is_for_owner_rights(&ace) {
            return true;
        }
    }
    false
}

fn is_for_owner_rights(ace: &AceView) -> bool
    ensures { result ≡ is_for_owner_rights ace.now }
{
    is_effective(ace) && is_owner_rights(&ace.sid_in_place())
}
