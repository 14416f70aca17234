//! The explanation of a descriptor (MS-DTYP 2.4.6).
ghost use Rattle.std.specs.Prelude.{◌≤◌, ◌+◌, ◌*◌, Bool, length, Option};
ghost use Rattle.std.specs.Option.{option_copied};
ghost use Rattle.sd_sid.specs.Naming.{naming_by};
ghost use Rattle.sd_sink.specs.Print.{Prints};
ghost use Rattle.sd_sid.specs.Sid.{SecurityId};
ghost use Rattle.sd_sink.specs.Sink.{Puts};
ghost use Rattle.sd_view.specs.Descriptor.{IsDescriptor};
ghost use Rattle.sd_view.specs.Layout.{size};
ghost use Rattle.sd_explain.specs.Explain.{explain};

use crate::acl::print_acl;
use crate::control::{print_control, print_rm};
use crate::sid::print_sid_line;
use sd_sid::{Naming, Sid};
use sd_sink::{Gather, Print, Sink, SinkFault};
use sd_view::SdView;

/// Puts what a descriptor has, as a block of lines that ends with `end`: the control word with the codes of its
/// bits, the resource manager byte, owner, group, DACL and SACL, each ACE on a line of its own, numbered from 1.
/// Each line ends with an LF, the last one too. At most eight characters for each byte of the written layout,
/// and 64. SIDs have their aliases beside them, those of the domain too, unless numbers alone are asked for; a
/// domain of 15 sub-authorities counts as none.
///
/// ```
/// let mut buf = SdBuf::new(rt.alloc()).expect(&rt, "memory");
/// assert!(rt; read_sddl(b"D:NO_ACCESS_CONTROL", None, &mut buf) == Ok(()));
/// let view = read(buf.bytes()).expect(&rt, "a descriptor");
/// let mut sink = TextSink::new(&rt);
/// let text = b"control 0x8004 DP SR\nrm 0x00\nowner none\ngroup none\ndacl null\nsacl absent\nend\n";
/// assert!(rt; put_explain(&view, None, false, &mut sink) == Ok(()));
/// assert!(rt; sink.bytes() == text.as_slice());
/// ```
pub fn put_explain<S: Sink>(
    view: &SdView<'_>,
    domain: Option<&Sid>,
    numeric: bool,
    sink: &mut S,
) -> Result<(), SinkFault>
    ensures put { Puts (S.told sink.old) (S.told sink.new)
        (explain (naming_by (option_copied domain.entry) numeric) view.now) result }
    // Under any domain, and with numbers alone too.
    ensures short { (any : Option SecurityId) (numbers : Bool)
        → length (explain (naming_by any numbers) view.now) ≤ 8 * size view.now + 64 }
{
    let mut out = Gather::new(sink);
    print_explain(view, domain, numeric, &mut out);
    out.finish()
}

/// Prints what a descriptor has, as `put_explain` puts it.
pub fn print_explain<P: Print>(view: &SdView<'_>, domain: Option<&Sid>, numeric: bool, out: &mut P)
    ensures printed { Prints (P.told out.old) (P.told out.new)
        (explain (naming_by (option_copied domain.entry) numeric) view.now) }
    ensures limits { IsDescriptor view.now }
{
    let naming = Naming {
        domain: domain.copied(),
        numeric,
    };
    print_control(view.control(), out);
    print_rm(view.rm(), out);
    print_sid_line(&naming, b"owner ", view.owner_in_place(), out);
    print_sid_line(&naming, b"group ", view.group_in_place(), out);
    print_acl(&naming, b"dacl ", &view.dacl(), out);
    print_acl(&naming, b"sacl ", &view.sacl(), out);
    out.put(b"end\n");
}
