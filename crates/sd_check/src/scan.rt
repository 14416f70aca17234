//! The one walk through the DACL.

ghost use Rattle.std.specs.Prelude.{◌≡◌, ◌<◌, ◌≤◌, ◌^◌, ◌&&◌, ℕ, bit_and};
ghost use Rattle.std.specs.List.{find};
ghost use Rattle.sd_rights.specs.Mapping.{carries, mapped};
ghost use Rattle.sd_token.specs.Token.{Asks};
ghost use Rattle.sd_check.specs.Acl.{listed_aces};
ghost use Rattle.sd_check.specs.Granted.{allows, decides, is_allowed};
ghost use Rattle.sd_check.specs.Inner.Scan.{scan_need};

use crate::applies::{applies, is_allow};
use crate::ask::Ask;
use sd_acl_view::{AceView, AclView};
use sd_token::{Memory, TokenIn};
use sd_view::{AclPart, SdView};

/// The rights of a mask that the ACEs grant.
pub fn scan<M: Memory>(view: &SdView, token: &mut TokenIn<M>, ask: &Ask, question: u32) -> u32
    requires { question < 2 ^ 25 }
    ensures rights { (right : ℕ) → carries result right
        ≡ (carries question right && is_allowed right view.now token.old.holder.entries ask.now) }
    ensures asks { Asks token.old token.new
        (scan_need question view.now token.old.holder.entries ask.now (listed_aces view.now.dacl)) }
{
    match view.dacl() {
        AclPart::List(acl) => scan_aces(&acl, view, token, ask, question),
        AclPart::Absent | AclPart::Null => 0,
    }
}

// An ACE decides the rights that none before it did; where no right is left, no further ACE is looked at.
fn scan_aces<M: Memory>(
    acl: &AclView,
    view: &SdView,
    token: &mut TokenIn<M>,
    ask: &Ask,
    question: u32,
) -> u32
    requires { question < 2 ^ 25 }
    ensures rights { (right : ℕ) → carries result right ≡ (carries question right
        && allows (find (decides right view.now token.old.holder.entries ask.now) acl.now)) }
    ensures asks { Asks token.old token.new (scan_need question view.now token.old.holder.entries ask.now acl.now) }
{
    let mut undecided = question;
    let mut granted = 0;
    for ace in acl.aces() {
        if undecided == 0 {
            return granted;
        }
        let decided = decided(&ace, view, token, ask, undecided);
        if is_allow(ace.kind()) {
            granted |= decided;
        }
        undecided &= !decided;
    }
    granted
}

// The rights of a mask that the ACE decides. One that has none of them is not compared.
pub fn decided<M: Memory>(
    ace: &AceView,
    view: &SdView,
    token: &mut TokenIn<M>,
    ask: &Ask,
    undecided: u32,
) -> u32
    ensures rights { (right : ℕ) → carries result right
        ≡ (carries undecided right && decides right view.now token.old.holder.entries ask.now ace.now) }
    ensures fewer { result ≤ undecided }
    ensures asks { Asks token.old token.new 1 }
    ensures spared { bit_and undecided (mapped ask.now.mapping ace.now.mask) ≡ 0
        → token.new.compared ≡ token.old.compared }
{
    let rights = undecided & ask.mapping().map(ace.mask());
    if rights == 0 {
        return 0;
    }
    if applies(ace, view, token, ask) {
        rights
    } else {
        0
    }
}
