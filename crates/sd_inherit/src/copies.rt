//! The copies of one ACE.

ghost use Rattle.std.specs.Prelude.{◌≡◌, ◌<◌, ◌/◌, ◌%◌, not, None, Some};
ghost use Rattle.sd_builder.specs.Draft.{is_present};
ghost use Rattle.sd_inherit.specs.Inner.Building.{listed};
ghost use Rattle.sd_inherit.specs.Copies.{copies, copies_for, effective_copy, for_itself, inherit_only_copy};
ghost use Rattle.sd_inherit.specs.Derived.{sacl_of};

use crate::flags::{copied_flags, onward_flags};
use crate::heirs::{differs, heir, heir_mask};
use crate::plan::{Plan, Target};
use sd_acl_view::AceView;
use sd_builder::ChangedAce;
use sd_kinds::{CONTAINER_INHERIT, INHERIT_ONLY, NO_PROPAGATE, OBJECT_INHERIT, has_flag};

/// What a new object gets from one ACE: none, one, or one for itself and then one to hand on.
#[derive(Drop)]
pub struct Copies<'a> {
    pub first: Option<ChangedAce<'a>>,
    pub second: Option<ChangedAce<'a>>,
}

impl Copies<'_> {
    /// Whether there is no copy.
    pub fn is_empty(&self) -> bool
        ensures { result ≡ not (is_present (sacl_of (listed self.now))) }
    {
        self.first.is_none() && self.second.is_none()
    }
}

/// The copies of an ACE.
#[tactic(auto, unfolding(crate::specs::Copies::copies))]
pub fn copies_of<'a>(plan: &'a Plan, ace: &'a AceView<'a>) -> Copies<'a>
    ensures { listed result ≡ copies plan.now ace.now }
{
    match plan.target {
        Target::File => file_copies(plan, ace),
        Target::Container => container_copies(plan, ace),
    }
}

fn file_copies<'a>(plan: &'a Plan, ace: &'a AceView<'a>) -> Copies<'a>
    ensures { listed result ≡ copies_for Target.File plan.now ace.now }
{
    if has_flag(ace.flags(), OBJECT_INHERIT) {
        return one_copy(effective_copy(plan, ace, 0));
    }
    no_copy()
}

fn container_copies<'a>(plan: &'a Plan, ace: &'a AceView<'a>) -> Copies<'a>
    ensures { listed result ≡ copies_for Target.Container plan.now ace.now }
{
    let flags = ace.flags();
    let one_level = has_flag(flags, NO_PROPAGATE);
    if has_flag(flags, CONTAINER_INHERIT) {
        if one_level {
            return one_copy(effective_copy(plan, ace, 0));
        }
        if !differs(ace) {
            return one_copy(effective_copy(plan, ace, onward_flags(flags)));
        }
        return Copies {
            first: Some(effective_copy(plan, ace, 0)),
            second: Some(inherit_only_copy(ace)),
        };
    }
    if has_flag(flags, OBJECT_INHERIT) && !one_level {
        return one_copy(inherit_only_copy(ace));
    }
    no_copy()
}

/// No ACE.
pub fn no_copy<'a>() -> Copies<'a>
    ensures value { result ≡ record { first = None; second = None } }
{
    Copies {
        first: None,
        second: None,
    }
}

/// One ACE: for the new object alone, with flags for what is made in it, or to hand on.
pub fn one_copy(ace: ChangedAce<'_>) -> Copies<'_>
    ensures value { result ≡ record { first = Some ace.entry; second = None } }
{
    Copies {
        first: Some(ace),
        second: None,
    }
}

// The copy for the new object itself, with the flags that go on.
fn effective_copy<'a>(plan: &'a Plan, ace: &'a AceView<'a>, onward: u8) -> ChangedAce<'a>
    requires { onward < 4 }
    ensures { result ≡ effective_copy plan.now ace.now onward }
{
    for_itself(plan, ace, copied_flags(ace.flags(), onward))
}

/// The ACE for the new object itself, with these flags.
pub fn for_itself<'a>(plan: &'a Plan, ace: &'a AceView<'a>, flags: u8) -> ChangedAce<'a>
    requires { flags / 0x20 % 2 ≡ 0 }
    ensures { result ≡ for_itself plan.now ace.now flags }
{
    ChangedAce::new(ace, flags, heir_mask(plan, ace), heir(plan, ace))
}

// The copy to hand on.
fn inherit_only_copy<'a>(ace: &'a AceView<'a>) -> ChangedAce<'a>
    ensures { result ≡ inherit_only_copy ace.now }
{
    let added = INHERIT_ONLY + onward_flags(ace.flags());
    with_flags(ace, copied_flags(ace.flags(), added))
}

/// The same ACE with other flags.
pub fn with_flags<'a>(ace: &'a AceView<'a>, flags: u8) -> ChangedAce<'a>
    requires { flags / 0x20 % 2 ≡ 0 }
    ensures { result ≡ record ace.now { flags = flags } }
{
    ChangedAce::new(ace, flags, ace.mask(), None)
}
