//! The calls that say where the parts of a descriptor or an ACE lie, and walk ACLs.

ghost use Rattle.std.specs.Prelude.{◌≡◌};
ghost use Rattle.sd_call.specs.Contents.{contents_in};
ghost use Rattle.sd_call.specs.Walk.{at_front, next, steps_to};

use sd_call::{AceFound, Contents, next_ace, parts_of, read_ace};

/// Says what is in a descriptor, and where its parts lie.
#[unsafe(no_mangle)]
pub extern "C" fn sdtool_parts(bytes: &[u8]) -> Contents
    ensures { result ≡ contents_in bytes.now }
{
    parts_of(bytes)
}

/// Goes on to the next ACE of an ACL, and says whether there is one.
#[unsafe(no_mangle)]
pub extern "C" fn sdtool_next_ace(acl: &[u8], ace: &mut AceFound) -> bool
    ensures there { result ≡ (steps_to ace.old (next acl.now ace.old)).0 }
    ensures ace { ace.new ≡ (steps_to ace.old (next acl.now ace.old)).1 }
{
    next_ace(acl, ace)
}

/// Says where the parts of the ACE at the front of some bytes are.
#[unsafe(no_mangle)]
pub extern "C" fn sdtool_ace_read(bytes: &[u8]) -> AceFound
    ensures { result ≡ at_front bytes.now }
{
    read_ace(bytes)
}
