//! ACLs as SDDL (MS-DTYP 2.5.1.1).

ghost use Rattle.std.specs.List.{flat_map};
ghost use Rattle.sd_sink.specs.Print.{Prints};
ghost use Rattle.sd_sddl_printer.specs.Printed.{ace_text, acl_flags_text, acl_text, text_if};

use crate::ace::print_ace;
use sd_acl_view::AclView;
use sd_parts::AclFlags;
use sd_sid::Naming;
use sd_sink::Print;
use sd_view::AclPart;

/// The characters of a head. As many as are known are written at once.
pub const HEAD_SIZE: usize = 2;

/// Prints an ACL behind its head, `D:` or `S:`; nothing for one that is absent.
pub fn print_acl<P: Print>(
    naming: &Naming,
    head: &[u8; HEAD_SIZE],
    flags: AclFlags,
    part: &AclPart<'_>,
    out: &mut P,
)
    ensures { Prints (P.told out.old) (P.told out.new)
        (acl_text naming.now head.now (acl_flags_text flags) part.now) }
{
    match part {
        AclPart::Absent => {}
        AclPart::Null => {
            out.put(head);
            print_acl_flags(flags, out);
            out.put(b"NO_ACCESS_CONTROL");
        }
        AclPart::List(acl) => {
            out.put(head);
            print_acl_flags(flags, out);
            print_aces(naming, acl, out);
        }
    }
}

fn print_aces<P: Print>(naming: &Naming, acl: &AclView<'_>, out: &mut P)
    ensures { Prints (P.told out.old) (P.told out.new) (flat_map (ace_text naming.now) acl.now) }
{
    for ace in acl.aces() {
        print_ace(naming, &ace, out);
    }
}

#[tactic(auto, unfolding(crate::specs::Printed::acl_flags_text))]
fn print_acl_flags<P: Print>(flags: AclFlags, out: &mut P)
    ensures { Prints (P.told out.old) (P.told out.new) (acl_flags_text flags) }
{
    print_if(flags.protected, b"P", out);
    print_if(flags.auto_inherit_required, b"AR", out);
    print_if(flags.auto_inherited, b"AI", out);
}

// Prints a text that may be left out. Inlined, so that the text is known, and nothing is copied where it is left out.
#[inline(always)]
fn print_if<P: Print>(present: bool, text: &[u8], out: &mut P)
    ensures { Prints (P.told out.old) (P.told out.new) (text_if present text.now) }
{
    if present {
        out.put(text);
    }
}
