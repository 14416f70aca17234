//! The written form of a descriptor.

ghost use Rattle.std.specs.Prelude.{◌≡◌, ◌≤◌, ◌<◌, ◌+◌, ◌^◌, ℕ, List, length};
ghost use Rattle.sd_sink.specs.Print.{Prints};
ghost use Rattle.sd_sink.specs.Sink.{Puts};
ghost use Rattle.sd_view.specs.Descriptor.{IsDescriptor, Shows};
ghost use Rattle.sd_parts.specs.Limits.{AreLimits};
ghost use Rattle.sd_view.specs.Layout.{acl_part, acl_part_size, descriptor_header, layout, offset_if, size};

use crate::acl_layout::print_acl;
use sd_parts::{HEADER_SIZE, Parts, header};
use sd_sink::{Print, Printer, Sink, SinkFault};
use sd_view::{AclPart, SdView};

/// Puts the one layout of a descriptor (MS-DTYP 2.4.6): header, owner, group, SACL, DACL, without
/// gaps. A part that is absent has offset 0.
///
/// ```
/// let mut buf = SdBuf::new(rt.alloc()).expect(&rt, "memory");
/// let gap = b"010000800000000000000000140000001c00000002000800000000000200080000000000";
/// assert!(rt; buf.from_hex(gap) == Ok(()));
/// let view = read(buf.bytes()).expect(&rt, "a descriptor");
/// let mut sink = TextSink::new(&rt);
/// assert!(rt; put_layout(&view, &mut sink) == Ok(()));
/// assert!(rt; buf.bytes().len() == 36 && sink.bytes().len() == 20);
/// ```
pub fn put_layout<S: Sink>(view: &SdView<'_>, sink: &mut S) -> Result<(), SinkFault>
    ensures put { Puts (S.told sink.old) (S.told sink.new) (layout view.now) result }
    // What is put shows the descriptor.
    ensures shows { Shows (layout view.now) view.now }
    ensures size { length (layout view.now) ≡ size view.now }
    ensures most { size view.now ≤ 131220 }
    // No bytes that show the descriptor are fewer.
    ensures least { (bytes : List ℕ) → Shows bytes view.now → size view.now ≤ length bytes }
    // What the constants of sizes and revisions are.
    ensures limits { AreLimits }
{
    let mut out = Printer::new(sink);
    print_layout(view, &mut out);
    out.finish()
}

/// Prints the layout of a descriptor, as `put_layout` puts it; at once if it was read in this layout.
pub fn print_layout<P: Print>(view: &SdView<'_>, out: &mut P)
    ensures printed { Prints (P.told out.old) (P.told out.new) (layout view.now) }
    ensures limits { IsDescriptor view.now }
{
    match view.laid_out() {
        Some(bytes) => out.put(bytes),
        None => print_parts(view, out),
    }
}

// Prints the header and the parts one by one.
fn print_parts<P: Print>(view: &SdView<'_>, out: &mut P)
    ensures { Prints (P.told out.old) (P.told out.new) (layout view.now) }
{
    let sacl = view.sacl();
    let dacl = view.dacl();
    out.put(&header_of(view, size_of(&sacl), size_of(&dacl)));
    out.put(view.owner_bytes());
    out.put(view.group_bytes());
    print_acl_part(&sacl, out);
    print_acl_part(&dacl, out);
}

#[inline(always)]
fn print_acl_part<P: Print>(part: &AclPart<'_>, out: &mut P)
    ensures { Prints (P.told out.old) (P.told out.new) (acl_part part.now) }
{
    if let AclPart::List(acl) = part {
        print_acl(acl, out);
    }
}

// The header, by the sizes of the two ACLs.
fn header_of(view: &SdView<'_>, sacl: u32, dacl: u32) -> [u8; HEADER_SIZE]
    requires sacl { sacl ≡ acl_part_size view.now.sacl }
    requires dacl { dacl ≡ acl_part_size view.now.dacl }
    ensures value { result ≡ descriptor_header view.now }
    ensures limits { IsDescriptor view.now }
{
    let sizes = Parts {
        owner: view.owner_bytes().len() as u32,
        group: view.group_bytes().len() as u32,
        sacl,
        dacl,
    };
    header(view.rm(), view.control(), offsets_of(&sizes))
}

/// The offsets of parts of these sizes: owner, group, SACL and DACL without gaps, and 0 for what has no bytes.
pub fn offsets_of(sizes: &Parts<u32>) -> Parts<u32>
    requires { sizes.now.owner + sizes.now.group + sizes.now.sacl < 2 ^ 31 }
    ensures { result ≡ record {
      owner = offset_if 20 sizes.now.owner;
      group = offset_if (20 + sizes.now.owner) sizes.now.group;
      sacl = offset_if (20 + sizes.now.owner + sizes.now.group) sizes.now.sacl;
      dacl = offset_if (20 + sizes.now.owner + sizes.now.group + sizes.now.sacl) sizes.now.dacl;
    } }
{
    let group = HEADER_SIZE as u32 + sizes.owner;
    let sacl = group + sizes.group;
    let dacl = sacl + sizes.sacl;
    Parts {
        owner: offset_if(HEADER_SIZE as u32, sizes.owner),
        group: offset_if(group, sizes.group),
        sacl: offset_if(sacl, sizes.sacl),
        dacl: offset_if(dacl, sizes.dacl),
    }
}

// The written size of an ACL, and 0 where there is none.
fn size_of(part: &AclPart<'_>) -> u32
    ensures value { result ≡ acl_part_size part.now }
{
    match part {
        AclPart::List(acl) => acl.written().size as u32,
        _ => 0,
    }
}

// The offset of a part of this size that begins there.
fn offset_if(start: u32, size: u32) -> u32
    ensures { result ≡ offset_if start size }
{
    if size == 0 { 0 } else { start }
}
