//! When an ACE applies.

ghost use Rattle.std.specs.Prelude.{◌≡◌};
ghost use Rattle.sd_token.specs.Token.{Asks};
ghost use Rattle.sd_check.specs.Applies.{applies, is_access, is_allow, is_deny, is_effective, is_for, some_meets};
ghost use Rattle.sd_check.specs.Applies.{subject};

use crate::ask::Ask;
use crate::trustee::{
    is_owner_rights, is_principal_self, meets_any, meets_any_in_place, some_meets,
};
use sd_acl_view::AceView;
use sd_kinds::{AceKind, INHERIT_ONLY, has_flag};
use sd_token::{Memory, TokenIn};
use sd_view::SdView;
use uuid::Uuid;

/// Whether the ACE speaks of the token, and of the object that is asked for.
#[tactic(auto, unfolding(crate::specs::Applies::applies))]
pub fn applies<M: Memory>(ace: &AceView, view: &SdView, token: &mut TokenIn<M>, ask: &Ask) -> bool
    ensures value { result ≡ applies ace.now view.now token.old.holder.entries ask.now }
    ensures asks { Asks token.old token.new 1 }
{
    is_effective(ace) && is_for(ace.object(), ask.object()) && meets_subject(ace, view, token, ask)
}

// Whether an entry of the token meets whom the ACE's SID means. One replacement is made.
fn meets_subject<M: Memory>(ace: &AceView, view: &SdView, token: &mut TokenIn<M>, ask: &Ask) -> bool
    ensures value { result ≡ some_meets (subject view.now.owner ask.now.principal_self ace.now.sid)
        (is_deny ace.now.kind) token.old.holder.entries }
    ensures asks { Asks token.old token.new 1 }
{
    // Most SIDs are compared in place. A copy would take longer than a short search.
    let sid = ace.sid_in_place();
    let deny = is_deny(ace.kind());
    if is_principal_self(&sid) {
        return meets_any(token, &ask.principal_self().unwrap_or(sid.sid()), deny);
    }
    if is_owner_rights(&sid) {
        return some_meets(token, view.owner_in_place(), deny);
    }
    meets_any_in_place(token, &sid, deny)
}

/// Whether it grants or denies on the object itself.
pub fn is_effective(ace: &AceView) -> bool
    ensures { result ≡ is_effective ace.now }
{
    is_access(ace.kind()) && !has_flag(ace.flags(), INHERIT_ONLY)
}

/// Whether what it decides is granted.
pub fn is_allow(kind: AceKind) -> bool
    ensures { result ≡ is_allow kind }
{
    matches!(kind, AceKind::Allow | AceKind::ObjectAllow)
}

fn is_deny(kind: AceKind) -> bool
    ensures { result ≡ is_deny kind }
{
    matches!(kind, AceKind::Deny | AceKind::ObjectDeny)
}

fn is_access(kind: AceKind) -> bool
    ensures { result ≡ is_access kind }
{
    is_allow(kind) || is_deny(kind)
}

// Whether the object type is absent or the one that is asked for.
fn is_for(object: Option<Uuid>, asked: Option<Uuid>) -> bool
    ensures { result ≡ is_for object asked }
{
    match (object, asked) {
        (None, _) => true,
        (Some(_), None) => false,
        (Some(object), Some(asked)) => object == asked,
    }
}
