//! The calls that walk an ACL, and read one ACE.

ghost use Rattle.std.specs.Prelude.{◌≡◌};
ghost use Rattle.sd_call.specs.Walk.{at_front, fault_number, next, nothing_found, steps_to};

use crate::ace::AceFound;
use crate::outcome::{CallFault, failed};
use crate::place::nowhere;
use crate::walk::{find_next, front_found};
use sd_faults::LineFault;
use sd_view::SdFault;

/// Goes on to the next ACE of an ACL, and says whether there is one.
pub fn next_ace(acl: &[u8], ace: &mut AceFound) -> bool
    ensures there { result ≡ (steps_to ace.old (next acl.now ace.old)).0 }
    ensures ace { ace.new ≡ (steps_to ace.old (next acl.now ace.old)).1 }
{
    match find_next(acl, ace) {
        Ok(Some(found)) => {
            *ace = found;
            true
        }
        Ok(None) => {
            ace.fault = 0;
            false
        }
        Err(fault) => {
            ace.fault = fault_number(fault);
            false
        }
    }
}

/// Says where the parts of the ACE at the front of some bytes are.
pub fn read_ace(bytes: &[u8]) -> AceFound
    ensures { result ≡ at_front bytes.now }
{
    match front_found(1, 0, bytes) {
        Ok(found) => found,
        Err(fault) => AceFound {
            fault: fault_number(fault),
            ..nothing_found()
        },
    }
}

// What a walk begins with.
fn nothing_found() -> AceFound
    ensures { result ≡ nothing_found }
{
    AceFound {
        fault: 0,
        mask: 0,
        number: 0,
        kind: 0,
        flags: 0,
        place: nowhere(),
        object_type: nowhere(),
        inherited_object_type: nowhere(),
        sid: nowhere(),
    }
}

fn fault_number(fault: SdFault) -> u32
    ensures { result ≡ fault_number fault }
{
    failed(CallFault::Line(LineFault::Sd(fault))).fault.value()
}
