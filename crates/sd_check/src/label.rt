//! Mandatory labels (MS-DTYP 2.4.4.13).

ghost use Rattle.std.specs.Prelude.{◌≡◌};
ghost use Rattle.std.specs.List.{find};
ghost use Rattle.sd_check.specs.Inner.Scan.{left_mask, permitted_mask};
ghost use Rattle.sd_check.specs.Label.{is_mandatory_label, label, label_of, names_level};

use crate::ask::Ask;
use sd_acl_view::{AceView, AclView};
use sd_kinds::{INHERIT_ONLY, has_flag};
use sd_rights::{ACCESS_SYSTEM_SECURITY, ALL_RIGHTS, Mapping, has_right, is_label, mask_if};
use sd_sid::Sid;
use sd_token::{Memory, TokenIn};
use sd_view::{AclPart, SdView};

/// What a mandatory label says: the integrity level of the object, and what a token of a lower level may not do.
#[derive(Clone, Copy, Debug, PartialEq, Eq)]
pub struct Label {
    pub level: u32,
    /// The bits of the access mask: 0 for NO_WRITE_UP, 1 for NO_READ_UP, 2 for NO_EXECUTE_UP.
    pub policy: u32,
}

/// The bits of a policy, which stand where a mask has rights.
const NO_WRITE_UP: u32 = 0x1;

const NO_READ_UP: u32 = 0x2;

const NO_EXECUTE_UP: u32 = 0x4;

const MANDATORY_LABEL_AUTHORITY: u64 = 16;

/// The level of S-1-16-8192.
const MEDIUM_LEVEL: u32 = 8192;

/// The label of an object without one: medium level, not to be written from below (MS-DTYP 2.5.3.3).
const DEFAULT: Label = Label {
    level: MEDIUM_LEVEL,
    policy: NO_WRITE_UP,
};

/// The rights that the label leaves to the token, ACCESS_SYSTEM_SECURITY among them: no label limits that one. The
/// SACL is searched only for a token with a level.
#[tactic(auto, unfolding(crate::specs::Inner::Scan::permitted_mask))]
pub fn permitted<M: Memory>(view: &SdView, token: &TokenIn<M>, ask: &Ask) -> u32
    ensures { result ≡ permitted_mask view.now token.now.holder ask.now }
{
    match token.level() {
        None => ALL_RIGHTS,
        Some(level) => {
            let label = mandatory_label(view);
            if level < label.level {
                left(label, ask.mapping())
            } else {
                ALL_RIGHTS
            }
        }
    }
}

// What a label leaves to a token of a lower level.
fn left(label: Label, mapping: Mapping) -> u32
    ensures { result ≡ left_mask label mapping }
{
    ACCESS_SYSTEM_SECURITY
        | (mask_if(!has_right(label.policy, NO_READ_UP), mapping.read())
            | mask_if(!has_right(label.policy, NO_WRITE_UP), mapping.write())
            | mask_if(!has_right(label.policy, NO_EXECUTE_UP), mapping.execute()))
}

// The first label of the SACL, or the default.
fn mandatory_label(view: &SdView) -> Label
    ensures { result ≡ label view.now }
{
    match view.sacl() {
        AclPart::List(acl) => first_label(&acl),
        AclPart::Absent | AclPart::Null => DEFAULT,
    }
}

fn first_label(acl: &AclView) -> Label
    ensures { result ≡ label_of (find is_mandatory_label acl.now) }
{
    for ace in acl.aces() {
        if is_mandatory_label(&ace) {
            return Label {
                level: ace.sid().subs().first().copied().unwrap_or(0),
                policy: ace.mask() % 8,
            };
        }
    }
    DEFAULT
}

pub fn is_mandatory_label(ace: &AceView) -> bool
    ensures { result ≡ is_mandatory_label ace.now }
{
    is_label(ace.kind()) && !has_flag(ace.flags(), INHERIT_ONLY) && names_level(&ace.sid())
}

// Whether it is a SID of the label authority with one number (MS-DTYP 2.4.2.4).
fn names_level(sid: &Sid) -> bool
    ensures { result ≡ names_level sid.now }
{
    sid.authority() == MANDATORY_LABEL_AUTHORITY && sid.subs().len() == 1
}
