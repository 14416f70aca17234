//! Descriptors as SDDL (MS-DTYP 2.5.1).

ghost use Rattle.std.specs.Prelude.{◌≡◌, ◌≤◌, ◌+◌, ◌*◌, Bool, length, Ok, Option};
ghost use Rattle.sd_sink.specs.Print.{Prints};
ghost use Rattle.sd_sid.specs.Sid.{SecurityId};
ghost use Rattle.sd_sink.specs.Sink.{Puts};
ghost use Rattle.std.specs.Option.{option_copied};
ghost use Rattle.sd_view.specs.Descriptor.{IsDescriptor};
ghost use Rattle.sd_view.specs.Layout.{size};
ghost use Rattle.sd_sddl_builder.specs.Meaning.{means};
ghost use Rattle.sd_sddl_printer.specs.Printed.{plain, sddl, sid_text_of};
ghost use Rattle.sd_sid.specs.Naming.{naming_by};

use crate::acl::{HEAD_SIZE, print_acl};
use crate::trustee::print_trustee;
use sd_parts::{AclFlags, Which};
use sd_sid::{Naming, Sid};
use sd_sid_view::SidView;
use sd_sink::{Gather, Print, Sink, SinkFault};
use sd_view::SdView;

/// Puts a descriptor as SDDL: owner, group, DACL and SACL, as far as they are there, without blanks, in at most
/// eight characters for each byte of its written layout, and 63. SIDs have their aliases, those of the
/// domain too, unless numbers alone are asked for; a domain of 15 sub-authorities counts as none. What SDDL
/// has no letters for is dropped: the resource manager byte, and of the control word all but the present
/// bits and the flags of ACLs that are not absent. As `O:BAD:(A;;FA;;;WD)`.
///
/// ```
/// let mut buf = SdBuf::new(rt.alloc()).expect(&rt, "memory");
/// assert!(rt; buf.from_hex(b"0100049500000000000000000000000000000000") == Ok(()));
/// let view = read(buf.bytes()).expect(&rt, "a descriptor");
/// let mut sink = TextSink::new(&rt);
/// assert!(rt; put_sddl(&view, None, false, &mut sink) == Ok(()));
/// assert!(rt; sink.bytes() == b"D:PARAINO_ACCESS_CONTROL".as_slice());
/// ```
pub fn put_sddl<S: Sink>(
    view: &SdView<'_>,
    domain: Option<&Sid>,
    numeric: bool,
    sink: &mut S,
) -> Result<(), SinkFault>
    ensures put { Puts (S.told sink.old) (S.told sink.new)
        (sddl (naming_by (option_copied domain.entry) numeric) view.now) result }
    // Under any domain, and with numbers alone too.
    ensures short { (any : Option SecurityId) (numbers : Bool)
        → length (sddl (naming_by any numbers) view.now) ≤ 8 * size view.now + 63 }
    // The text means the descriptor, but for what is dropped.
    ensures back { means (sddl (naming_by (option_copied domain.entry) numeric) view.now) (option_copied domain.entry)
        ≡ Ok (plain view.now) }
{
    let mut out = Gather::new(sink);
    print_sddl(view, domain, numeric, &mut out);
    out.finish()
}

/// Prints a descriptor as SDDL, as `put_sddl` puts it.
pub fn print_sddl<P: Print>(view: &SdView<'_>, domain: Option<&Sid>, numeric: bool, out: &mut P)
    ensures printed { Prints (P.told out.old) (P.told out.new)
        (sddl (naming_by (option_copied domain.entry) numeric) view.now) }
    ensures limits { IsDescriptor view.now }
{
    let naming = Naming {
        domain: domain.copied(),
        numeric,
    };
    let control = view.control();
    print_sid(&naming, b"O:", view.owner_in_place(), out);
    print_sid(&naming, b"G:", view.group_in_place(), out);
    let dacl_flags = AclFlags::of(Which::Dacl, control);
    let sacl_flags = AclFlags::of(Which::Sacl, control);
    print_acl(&naming, b"D:", dacl_flags, &view.dacl(), out);
    print_acl(&naming, b"S:", sacl_flags, &view.sacl(), out);
}

// Prints a SID behind its head; nothing where there is none.
fn print_sid<P: Print>(
    naming: &Naming,
    head: &[u8; HEAD_SIZE],
    sid: Option<SidView<'_>>,
    out: &mut P,
)
    ensures { Prints (P.told out.old) (P.told out.new) (sid_text_of naming.now head.now sid.entry) }
{
    if let Some(sid) = sid {
        out.put(head);
        print_trustee(naming, &sid, out);
    }
}
