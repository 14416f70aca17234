//! A descriptor by value, which changes are made to.

ghost use Rattle.std.specs.Prelude.{◌≡◌, ◌<◌, ◌^◌, IfOk, OnOk, Ok, Err};
ghost use Rattle.sd_builder.specs.Draft.{is_present};
ghost use Rattle.sd_view.specs.Layout.{acl_part_size};
ghost use Rattle.sd_view.specs.declared.acl_part.AclPart.TheVariants as acl;
ghost use Rattle.sd_acl_view.specs.Acl.{acl_size};
ghost use Rattle.sd_parts.specs.Control.{control_of};
ghost use Rattle.sd_edit.specs.declared.change.Change.TheVariants as changes;
ghost use Rattle.sd_edit.specs.Edits.{acl_edited, acl_ordered, acl_state, edited, sized_if};
ghost use Rattle.sd_edit.specs.Lists.{list_edited};
ghost use Rattle.sd_edit.specs.Shown.{AclsFit, Gives, acl_shown, shown};

use crate::acl::{acl_size, change_list, ordered, push};
use crate::change::{AclChange, AclState, Change, ListChange};
use crate::setting::with_control_bits;
use sd_ace::Ace;
use sd_acl_view::Aces;
use sd_parts::{Which, control_of};
use sd_sid::Sid;
use sd_sink::NoMemory;
use sd_view::{AclPart, SdView};
use std::alloc::Global;

/// Why a change can't be made.
#[derive(Clone, Copy, Debug, PartialEq, Eq)]
pub enum ChangeFault {
    /// 73: this ACL is no list, has no such place, or is out of order.
    Impossible(Which),
    /// 30: this ACL would pass 65,535 bytes.
    TooLarge(Which),
}

/// An ACL of a descriptor that is edited.
#[derive(Drop)]
pub enum EditedAcl {
    Absent,
    Null,
    List(Vec<Ace>),
}

/// A descriptor that is edited.
#[derive(Drop)]
pub struct Edited {
    pub control: u16,
    pub rm: u8,
    pub owner: Option<Sid>,
    pub group: Option<Sid>,
    pub sacl: EditedAcl,
    pub dacl: EditedAcl,
}

impl Edited {
    /// The descriptor of a view.
    pub fn of(alloc: Global, view: &SdView<'_>) -> Result<Edited, NoMemory>
        ensures value { IfOk result (λ e. shown e ≡ view.now) }
        ensures fits { IfOk result AclsFit }
    {
        let sacl = acl_of(alloc, &view.sacl())?;
        let dacl = acl_of(alloc, &view.dacl())?;
        Ok(Edited {
            control: view.control(),
            rm: view.rm(),
            owner: view.owner(),
            group: view.group(),
            sacl,
            dacl,
        })
    }

    /// Makes a change, and says how many ACEs it put, took or set. Behind a fault the descriptor is of no use.
    #[tactic(auto, unfolding(crate::specs::Edits::edited))]
    pub fn make(
        &mut self,
        alloc: Global,
        change: &Change,
    ) -> Result<Result<u32, ChangeFault>, NoMemory>
        requires { AclsFit self.old }
        ensures value { IfOk result (λ made. Gives (edited change.now (shown self.old)) (shown self.new) made) }
        ensures fits { IfOk result (λ made. OnOk made (AclsFit self.new)) }
    {
        match change {
            Change::Acl(which, change) => self.change_acl(alloc, *which, change),
            Change::Owner(sid) => {
                self.owner = *sid;
                Ok(Ok(0))
            }
            Change::Group(sid) => {
                self.group = *sid;
                Ok(Ok(0))
            }
            Change::Control(set, clear) => {
                self.set_control(with_control_bits(*set, *clear, self.control));
                Ok(Ok(0))
            }
        }
    }

    #[tactic(auto, unfolding(crate::specs::Edits::edited))]
    fn change_acl(
        &mut self,
        alloc: Global,
        which: Which,
        change: &AclChange,
    ) -> Result<Result<u32, ChangeFault>, NoMemory>
        requires { AclsFit self.old }
        ensures value { IfOk result
            (λ made. Gives (edited (changes.Acl which change.now) (shown self.old)) (shown self.new) made) }
        ensures fits { IfOk result (λ made. OnOk made (AclsFit self.new)) }
    {
        let made = match which {
            Which::Sacl => change_acl(alloc, which, change, &mut self.sacl)?,
            Which::Dacl => change_acl(alloc, which, change, &mut self.dacl)?,
        };
        self.set_control(self.control);
        Ok(made)
    }

    // The control word has these bits, but the present bits follow the ACLs.
    fn set_control(&mut self, control: u16)
        ensures { self.new ≡ record self.old {
          control = control_of control (is_present (acl_shown self.old.sacl)) (is_present (acl_shown self.old.dacl));
        } }
    {
        self.control = control_of(control, is_present(&self.sacl), is_present(&self.dacl));
    }
}

fn is_present(acl: &EditedAcl) -> bool
    ensures { result ≡ is_present (acl_shown acl.now) }
{
    !matches!(acl, EditedAcl::Absent)
}

// An ACL by value.
fn acl_of(alloc: Global, part: &AclPart<'_>) -> Result<EditedAcl, NoMemory>
    ensures { IfOk result (λ a. acl_shown a ≡ part.now) }
{
    match part {
        AclPart::Absent => Ok(EditedAcl::Absent),
        AclPart::Null => Ok(EditedAcl::Null),
        AclPart::List(acl) => {
            let aces = aces_of(alloc, acl.aces())?;
            Ok(EditedAcl::List(aces))
        }
    }
}

#[tactic(auto, using(crate::proofs::WalkLemmas::all_yielded, crate::proofs::WalkLemmas::parts_one))]
fn aces_of(alloc: Global, aces: Aces<'_>) -> Result<Vec<Ace>, NoMemory>
    ensures { IfOk result (λ v. v.items ≡ aces.entry) }
{
    let mut held = Vec::new(alloc);
    for ace in aces {
        push(&mut held, &ace.ace())?;
    }
    Ok(held)
}

// Changes an ACL.
#[tactic(auto, unfolding(crate::specs::Edits::acl_edited, crate::specs::Edits::aces_edited))]
fn change_acl(
    alloc: Global,
    which: Which,
    change: &AclChange,
    acl: &mut EditedAcl,
) -> Result<Result<u32, ChangeFault>, NoMemory>
    requires { acl_part_size (acl_shown acl.old) < 2 ^ 16 }
    ensures value { IfOk result
        (λ made. Gives (acl_edited which change.now (acl_shown acl.old)) (acl_shown acl.new) made) }
    ensures fits { IfOk result (λ made. OnOk made (acl_part_size (acl_shown acl.new) < 2 ^ 16)) }
{
    match change {
        AclChange::List(change) => match acl {
            EditedAcl::Absent | EditedAcl::Null => Ok(Err(ChangeFault::Impossible(which))),
            EditedAcl::List(aces) => change_sized(alloc, which, change, aces),
        },
        AclChange::Order => {
            order_acl(alloc, which, acl)?;
            Ok(Ok(0))
        }
        AclChange::State(state) => {
            *acl = acl_state(alloc, *state);
            Ok(Ok(0))
        }
    }
}

fn acl_state(alloc: Global, state: AclState) -> EditedAcl
    ensures { acl_shown result ≡ acl_state state }
{
    match state {
        AclState::Absent => EditedAcl::Absent,
        AclState::Null => EditedAcl::Null,
        AclState::List => EditedAcl::List(Vec::new(alloc)),
    }
}

#[tactic(auto, using(crate::proofs::SizeLemmas::ordered_size))]
fn order_acl(alloc: Global, which: Which, acl: &mut EditedAcl) -> Result<(), NoMemory>
    ensures value { OnOk result (acl_shown acl.new ≡ acl_ordered which (acl_shown acl.old)) }
    ensures size { OnOk result (acl_part_size (acl_shown acl.new) ≡ acl_part_size (acl_shown acl.old)) }
{
    if let EditedAcl::List(aces) = acl {
        *aces = ordered(alloc, which, aces)?;
    }
    Ok(())
}

// Changes the ACEs of an ACL that is a list.
fn change_sized(
    alloc: Global,
    which: Which,
    change: &ListChange,
    aces: &mut Vec<Ace>,
) -> Result<Result<u32, ChangeFault>, NoMemory>
    requires { acl_size aces.old.items < 2 ^ 16 }
    ensures value { IfOk result (λ made.
        Gives (sized_if which (list_edited which change.now aces.old.items)) (acl.List aces.new.items) made) }
    ensures fits { IfOk result (λ made. OnOk made (acl_size aces.new.items < 2 ^ 16)) }
{
    let Some(count) = change_list(alloc, which, change, aces)? else {
        return Ok(Err(ChangeFault::Impossible(which)));
    };
    if acl_size(aces).is_none() {
        return Ok(Err(ChangeFault::TooLarge(which)));
    }
    Ok(Ok(count))
}
