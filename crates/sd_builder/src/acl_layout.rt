//! The written form of an ACL.

ghost use Rattle.std.specs.Prelude.{◌≡◌, ◌++◌, ◌∷◌, []};
ghost use Rattle.std.specs.List.{flat_map};
ghost use Rattle.byteorder.specs.Endian.{little_bytes};
ghost use Rattle.sd_sink.specs.Print.{Prints};
ghost use Rattle.sd_ace.specs.AceLayout.{ace_bytes};
ghost use Rattle.sd_acl_view.specs.AclLayout.{acl_bytes, acl_header as header_bytes, revision_if};

use sd_ace::AceFront;
use sd_acl_view::{AceView, AclView};
use sd_parts::{ACL_HEADER_SIZE, ACL_REVISION, ACL_REVISION_DS};
use sd_sink::Print;

/// Prints an ACL: its header, and its ACEs one after the other; at once if it has this form already.
#[inline(always)]
pub(crate) fn print_acl<P: Print>(acl: &AclView<'_>, out: &mut P)
    ensures { Prints (P.told out.old) (P.told out.new) (acl_bytes acl.now) }
{
    match acl.written_bytes() {
        Some(bytes) => out.put(bytes),
        None => {
            out.put(&header_of(acl));
            print_aces(acl, out);
        }
    }
}

fn header_of(acl: &AclView<'_>) -> [u8; ACL_HEADER_SIZE]
    ensures { result ≡ header_bytes acl.now }
{
    let written = acl.written();
    acl_header(written.object, written.size as u16, acl.count())
}

/// The header of an ACL (MS-DTYP 2.4.5), by whether it has an object ACE, its size in bytes and the number of its ACEs.
pub fn acl_header(object: bool, size: u16, count: u16) -> [u8; ACL_HEADER_SIZE]
    ensures { result ≡ revision_if object ∷ 0 ∷ little_bytes 2 size ++ (little_bytes 2 count ++ (0 ∷ 0 ∷ [])) }
{
    let revision = if object {
        ACL_REVISION_DS
    } else {
        ACL_REVISION
    };
    let s = size.to_le_bytes();
    let c = count.to_le_bytes();
    [revision, 0, s[0], s[1], c[0], c[1], 0, 0]
}

#[inline(never)]
fn print_aces<P: Print>(acl: &AclView<'_>, out: &mut P)
    ensures { Prints (P.told out.old) (P.told out.new) (flat_map ace_bytes acl.now) }
{
    for ace in acl.aces() {
        print_ace(&ace, out);
    }
}

fn print_ace<P: Print>(ace: &AceView<'_>, out: &mut P)
    ensures { Prints (P.told out.old) (P.told out.new) (ace_bytes ace.now) }
{
    let front = AceFront::of_ace(&ace.ace());
    out.put(front.as_slice());
    out.put(ace.body());
}
