//! What is taken from one ACE of the creator's descriptor.

ghost use Rattle.std.specs.Prelude.{◌≡◌, false};
ghost use Rattle.sd_inherit.specs.Inner.Building.{listed};
ghost use Rattle.sd_inherit.specs.Taken.{handed_on, is_inherit_only, own_ace, taken, taken_for};

use crate::copies::{Copies, for_itself, no_copy, one_copy, with_flags};
use crate::flags::{audit_flags, inherit_only_flags};
use crate::heirs::differs;
use crate::plan::{Plan, Target};
use sd_acl_view::AceView;
use sd_builder::ChangedAce;
use sd_kinds::{CONTAINER_INHERIT, INHERIT_ONLY, INHERITED, OBJECT_INHERIT, has_flag};

/// What a new object takes from an ACE of its creator's descriptor.
#[tactic(auto, unfolding(crate::specs::Taken::taken))]
pub fn taken_of<'a>(plan: &'a Plan, ace: &'a AceView<'a>) -> Copies<'a>
    ensures { listed result ≡ taken plan.now ace.now }
{
    if has_flag(ace.flags(), INHERITED) {
        return no_copy();
    }
    match plan.target {
        Target::File => taken_by_file(plan, ace),
        Target::Container => taken_by_container(plan, ace),
    }
}

fn taken_by_file<'a>(plan: &'a Plan, ace: &'a AceView<'a>) -> Copies<'a>
    ensures { listed result ≡ taken_for Target.File plan.now ace.now }
{
    if has_flag(ace.flags(), INHERIT_ONLY) {
        return no_copy();
    }
    one_copy(own_ace(plan, ace))
}

fn taken_by_container<'a>(plan: &'a Plan, ace: &'a AceView<'a>) -> Copies<'a>
    ensures { listed result ≡ taken_for Target.Container plan.now ace.now }
{
    let flags = ace.flags();
    if has_flag(flags, INHERIT_ONLY) {
        return one_copy(as_it_is(ace));
    }
    if !has_flag(flags, OBJECT_INHERIT) && !has_flag(flags, CONTAINER_INHERIT) {
        return one_copy(own_ace(plan, ace));
    }
    if !differs(ace) {
        return one_copy(as_it_is(ace));
    }
    Copies {
        first: Some(own_ace(plan, ace)),
        second: Some(handed_on(ace)),
    }
}

// With the flags that it has.
fn as_it_is<'a>(ace: &'a AceView<'a>) -> ChangedAce<'a>
    ensures { result ≡ ace.now }
{
    // Flag 0x20 is clear in an ACE, as its kind shows.
    let _ = ace.kind();
    with_flags(ace, ace.flags())
}

// For the new object itself.
fn own_ace<'a>(plan: &'a Plan, ace: &'a AceView<'a>) -> ChangedAce<'a>
    ensures { result ≡ own_ace plan.now ace.now }
{
    for_itself(plan, ace, audit_flags(ace.flags()))
}

// To hand on.
fn handed_on<'a>(ace: &'a AceView<'a>) -> ChangedAce<'a>
    requires { is_inherit_only ace.now ≡ false }
    ensures { result ≡ handed_on ace.now }
{
    // Flag 0x20 is clear in an ACE, as its kind shows.
    let _ = ace.kind();
    with_flags(ace, inherit_only_flags(ace.flags()))
}
