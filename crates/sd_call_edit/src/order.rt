//! The call that says whether the ACLs of a descriptor are in order.

ghost use Rattle.std.specs.Prelude.{◌≡◌, ◌<◌, ◌^◌, length};
ghost use Rattle.sd_edit.specs.Order.{Seen, first_fall, ranks};
ghost use Rattle.sd_call_edit.specs.OrderTold.{fall_in, order_told, place_or_none};

use sd_acl_view::Aces;
use sd_call::{Outcome, descriptor_in, done, failed};
use sd_edit::{Order, rank_of};
use sd_parts::Which;
use sd_view::AclPart;

/// There is no such ACE.
const NO_ACE: u32 = 0xffff_ffff;

/// Where the order of each ACL ends: `struct sdtool_acl_order` of the header.
#[repr(C)]
#[derive(Clone, Copy)]
pub struct OrderTold {
    pub outcome: Outcome,
    /// The place of the first ACE whose rank is below that of the one before, or NO_ACE. 0 after a fault.
    pub sacl: u32,
    pub dacl: u32,
}

/// Says where the order of each ACL ends.
pub fn order_of(bytes: &[u8]) -> OrderTold
    ensures { result ≡ order_told bytes.now }
{
    match descriptor_in(bytes) {
        Ok(view) => OrderTold {
            outcome: done(0),
            sacl: fall_in(Which::Sacl, &view.sacl()),
            dacl: fall_in(Which::Dacl, &view.dacl()),
        },
        Err(fault) => OrderTold {
            outcome: failed(fault),
            sacl: 0,
            dacl: 0,
        },
    }
}

fn fall_in(which: Which, part: &AclPart<'_>) -> u32
    ensures { result ≡ fall_in which part.now }
{
    match part {
        AclPart::Absent | AclPart::Null => NO_ACE,
        AclPart::List(acl) => first_fall(which, acl.aces()),
    }
}

fn first_fall(which: Which, aces: Aces<'_>) -> u32
    requires { length aces < 2 ^ 16 }
    ensures { result ≡ place_or_none (first_fall (ranks which aces.entry)) }
{
    let mut order = Order::new();
    for ace in aces {
        order = order.see(rank_of(which, ace.kind(), ace.flags()));
    }
    match order.fall() {
        Some(place) => place as u32,
        None => NO_ACE,
    }
}
