//! The lines of an ACL (MS-DTYP 2.4.5).
ghost use Rattle.std.specs.Prelude.{◌<◌};
ghost use Rattle.sd_sink.specs.Print.{Prints};
ghost use Rattle.sd_explain.specs.Explain.{ace_lines, acl_lines, count_line};

use crate::ace::print_ace;
use sd_acl_view::AclView;
use sd_sid::Naming;
use sd_sink::Print;
use sd_text::print_decimal;
use sd_view::AclPart;

/// The characters of a part's name, with the blank behind it. As many as are known are written at once.
pub const PART_SIZE: usize = 5;

/// Prints the lines of an ACL: that it is absent or null, or how many ACEs it has, and then a line for each.
pub fn print_acl<P: Print>(naming: &Naming, part: &[u8; PART_SIZE], acl: &AclPart<'_>, out: &mut P)
    ensures { Prints (P.told out.old) (P.told out.new) (acl_lines naming.now part.now acl.now) }
{
    match acl {
        AclPart::Absent => {
            out.put(part);
            out.put(b"absent\n");
        }
        AclPart::Null => {
            out.put(part);
            out.put(b"null\n");
        }
        AclPart::List(acl) => {
            print_count(part, acl.count(), out);
            print_aces(naming, part, acl, out);
        }
    }
}

fn print_count<P: Print>(part: &[u8; PART_SIZE], count: u16, out: &mut P)
    ensures { Prints (P.told out.old) (P.told out.new) (count_line part.now count) }
{
    out.put(part);
    out.put(b"list ");
    print_decimal(u32::from(count), out);
    out.put(b"\n");
}

fn print_aces<P: Print>(naming: &Naming, part: &[u8; PART_SIZE], acl: &AclView<'_>, out: &mut P)
    ensures { Prints (P.told out.old) (P.told out.new) (ace_lines naming.now part.now acl.now) }
{
    let mut number = 0;
    for ace in acl.aces() {
        number += 1;
        print_ace(naming, part, number, &ace, out);
    }
}
