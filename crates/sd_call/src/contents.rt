//! What is found in a descriptor (MS-DTYP 2.4.6): its header, and where its parts lie.

ghost use Rattle.std.specs.Prelude.{◌≡◌};
ghost use Rattle.sd_call.specs.Contents.{ace_count, acl_place, acl_state, contents_in, contents_of, place_of, refused};

use crate::outcome::{CallFault, Outcome, done, failed};
use crate::place::{Place, nowhere};
use sd_faults::LineFault;
use sd_parts::{CAPACITY, Parts};
use sd_view::{AclPart, Extent, SdView, read_extents};

/// Where an ACL of a descriptor lies: `struct sdtool_acl_place` of the header.
#[repr(C)]
#[derive(Clone, Copy)]
pub struct AclPlace {
    /// 0 if it is absent, 1 if it is null, and 2 if it is a list.
    pub state: u32,
    pub ace_count: u32,
    pub place: Place,
}

/// What is found in a descriptor: `struct sdtool_contents` of the header.
#[repr(C)]
#[derive(Clone, Copy)]
pub struct Contents {
    /// Its length is 0.
    pub outcome: Outcome,
    /// The control word.
    pub control: u16,
    pub resource_manager: u8,
    pub owner: Place,
    pub group: Place,
    pub sacl: AclPlace,
    pub dacl: AclPlace,
}

/// What is found in the descriptor that some bytes show.
#[tactic(auto, unfolding(crate::specs::Arguments::descriptor_in))]
pub fn parts_of(bytes: &[u8]) -> Contents
    ensures { result ≡ contents_in bytes.now }
{
    if bytes.len() > CAPACITY {
        return refused(CallFault::Line(LineFault::TooLong));
    }
    match read_extents(bytes) {
        Ok((view, extents)) => contents_of(&view, &extents),
        Err(fault) => refused(CallFault::Line(LineFault::Sd(fault))),
    }
}

// The bytes show no descriptor.
fn refused(fault: CallFault) -> Contents
    ensures { result ≡ refused fault }
{
    Contents {
        outcome: failed(fault),
        control: 0,
        resource_manager: 0,
        owner: nowhere(),
        group: nowhere(),
        sacl: acl_place(None, &AclPart::Absent),
        dacl: acl_place(None, &AclPart::Absent),
    }
}

// What is told of a descriptor whose parts lie there.
fn contents_of(view: &SdView<'_>, extents: &Parts<Extent>) -> Contents
    ensures { result ≡ contents_of extents.now view.now }
{
    Contents {
        outcome: done(0),
        control: view.control(),
        resource_manager: view.rm(),
        owner: place_of(extents.owner),
        group: place_of(extents.group),
        sacl: acl_place(extents.sacl, &view.sacl()),
        dacl: acl_place(extents.dacl, &view.dacl()),
    }
}

fn place_of(extent: Extent) -> Place
    ensures { result ≡ place_of extent }
{
    match extent {
        None => nowhere(),
        Some((start, end)) => Place {
            offset: start as usize,
            size: end.saturating_sub(start) as usize,
        },
    }
}

fn acl_place(extent: Extent, acl: &AclPart<'_>) -> AclPlace
    ensures { result ≡ acl_place extent acl.now }
{
    AclPlace {
        state: acl_state(acl),
        ace_count: ace_count(acl),
        place: place_of(extent),
    }
}

fn acl_state(acl: &AclPart<'_>) -> u32
    ensures { result ≡ acl_state acl.now }
{
    match acl {
        AclPart::Absent => 0,
        AclPart::Null => 1,
        AclPart::List(_) => 2,
    }
}

fn ace_count(acl: &AclPart<'_>) -> u32
    ensures { result ≡ ace_count acl.now }
{
    match acl {
        AclPart::Absent | AclPart::Null => 0,
        AclPart::List(acl) => u32::from(acl.count()),
    }
}
