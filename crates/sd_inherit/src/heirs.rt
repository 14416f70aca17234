//! The SID and the mask of a copied ACE: CREATOR_OWNER, CREATOR_GROUP and generic rights are replaced.

ghost use Rattle.std.specs.Prelude.{◌≡◌, ◌||◌, unwrap_or};
ghost use Rattle.std.specs.Option.{option_copied};
ghost use Rattle.sd_sid.specs.SidText.{same_sid};
ghost use Rattle.sd_inherit.specs.Copies.{creator_group, creator_owner, has_generic, heir, heir_mask, differs};

use crate::plan::Plan;
use sd_acl_view::AceView;
use sd_rights::{GENERIC_RIGHTS, is_label};
use sd_sid::Sid;

/// The SIDs that are replaced have one sub-authority, and most others more. So no other is read.
const CREATOR_SUBS: usize = 1;

/// The new object's owner or group, which replaces CREATOR_OWNER or CREATOR_GROUP; any other SID stays.
pub fn heir<'a>(plan: &'a Plan, ace: &AceView<'_>) -> Option<&'a Sid>
    ensures { unwrap_or (option_copied result) ace.now.sid ≡ heir plan.now ace.now.sid }
{
    if ace.sub_count() != CREATOR_SUBS {
        return None;
    }
    let sid = ace.sid();
    if is_creator_owner(&sid) {
        return Some(&plan.owner);
    }
    if is_creator_group(&sid) {
        return Some(&plan.group);
    }
    None
}

/// The mask with its generic rights replaced. The mask of a label has no rights of an object.
pub fn heir_mask(plan: &Plan, ace: &AceView<'_>) -> u32
    ensures { result ≡ heir_mask plan.now ace.now }
{
    if is_label(ace.kind()) {
        return ace.mask();
    }
    plan.mapping.map(ace.mask())
}

/// Whether the effective copy differs from what goes on.
pub fn differs(ace: &AceView<'_>) -> bool
    ensures { result ≡ differs ace.now }
{
    has_heir(ace) || !is_label(ace.kind()) && has_generic(ace.mask())
}

fn has_heir(ace: &AceView<'_>) -> bool
    ensures { result ≡ (same_sid ace.now.sid creator_owner || same_sid ace.now.sid creator_group) }
{
    if ace.sub_count() != CREATOR_SUBS {
        return false;
    }
    let sid = ace.sid();
    is_creator_owner(&sid) || is_creator_group(&sid)
}

// S-1-3-0 (MS-DTYP 2.4.2.4).
fn is_creator_owner(sid: &Sid) -> bool
    ensures { result ≡ same_sid sid.now creator_owner }
{
    sid.is(3, &[0])
}

// S-1-3-1 (MS-DTYP 2.4.2.4).
fn is_creator_group(sid: &Sid) -> bool
    ensures { result ≡ same_sid sid.now creator_group }
{
    sid.is(3, &[1])
}

fn has_generic(mask: u32) -> bool
    ensures { result ≡ has_generic mask }
{
    mask & GENERIC_RIGHTS != 0
}
