//! An edited descriptor in its one layout (MS-DTYP 2.4.6).

ghost use Rattle.std.specs.Prelude.{◌≡◌, ◌<◌, ◌+◌, ◌^◌, length};
ghost use Rattle.std.specs.List.{flat_map};
ghost use Rattle.sd_ace.specs.AceLayout.{ace_bytes};
ghost use Rattle.sd_acl_view.specs.Acl.{acl_size, has_object};
ghost use Rattle.sd_acl_view.specs.AclLayout.{acl_bytes};
ghost use Rattle.sd_call.specs.Outcomes.{Gives};
ghost use Rattle.sd_call_build.specs.New.{AreSmall, part_sizes};
ghost use Rattle.sd_edit.specs.Shown.{AclsFit, acl_shown, shown};
ghost use Rattle.sd_sink.specs.Print.{Prints};
ghost use Rattle.sd_sink.specs.Sink.{Puts};
ghost use Rattle.sd_view.specs.Layout.{acl_part, acl_part_size, descriptor_header, layout};

use sd_ace::Ace;
use sd_builder::{acl_header, offsets_of};
use sd_call::{Front, Outcome, done, too_small};
use sd_call_build::{print_ace, print_sid_part, sid_part_size, whole_size};
use sd_edit::{Edited, EditedAcl, acl_size};
use sd_parts::{HEADER_SIZE, Parts, header};
use sd_sink::{Print, Printer, Sink, SinkFault};

/// Gives the layout.
pub fn give_layout(edited: &Edited, output: &mut [u8]) -> Outcome
    requires { AclsFit edited.now }
    ensures { Gives (layout (shown edited.now)) output.old output.new result }
{
    let sizes = part_sizes(edited);
    let size = whole_size(&sizes);
    let mut sink = Front {
        cells: output,
        held: 0,
        failures: 0,
    };
    match put_edited(edited, &sizes, &mut sink) {
        Ok(()) => done(size),
        Err(_) => too_small(size),
    }
}

fn part_sizes(edited: &Edited) -> Parts<u32>
    requires { AclsFit edited.now }
    ensures value { result ≡ part_sizes (shown edited.now) }
    ensures small { AreSmall result }
{
    Parts {
        owner: sid_part_size(&edited.owner),
        group: sid_part_size(&edited.group),
        sacl: acl_part_size(&edited.sacl),
        dacl: acl_part_size(&edited.dacl),
    }
}

fn acl_part_size(acl: &EditedAcl) -> u32
    requires { acl_part_size (acl_shown acl.now) < 2 ^ 16 }
    ensures { result ≡ acl_part_size (acl_shown acl.now) }
{
    match acl {
        EditedAcl::Absent | EditedAcl::Null => 0,
        EditedAcl::List(aces) => acl_size(aces).unwrap() as u32,
    }
}

fn put_edited<S: Sink>(edited: &Edited, sizes: &Parts<u32>, sink: &mut S) -> Result<(), SinkFault>
    requires sizes { sizes.now ≡ part_sizes (shown edited.now) }
    requires small { AreSmall sizes.now }
    ensures put { Puts (S.told sink.old) (S.told sink.new) (layout (shown edited.now)) result }
    ensures size { length (layout (shown edited.now))
        ≡ 20 + sizes.now.owner + sizes.now.group + sizes.now.sacl + sizes.now.dacl }
{
    let mut out = Printer::new(sink);
    print_edited(edited, sizes, &mut out);
    out.finish()
}

fn print_edited<P: Print>(edited: &Edited, sizes: &Parts<u32>, out: &mut P)
    requires sizes { sizes.now ≡ part_sizes (shown edited.now) }
    requires small { AreSmall sizes.now }
    ensures { Prints (P.told out.old) (P.told out.new) (layout (shown edited.now)) }
{
    out.put(&header_of(edited, sizes));
    print_sid_part(&edited.owner, out);
    print_sid_part(&edited.group, out);
    print_acl_part(&edited.sacl, sizes.sacl, out);
    print_acl_part(&edited.dacl, sizes.dacl, out);
}

fn header_of(edited: &Edited, sizes: &Parts<u32>) -> [u8; HEADER_SIZE]
    requires sizes { sizes.now ≡ part_sizes (shown edited.now) }
    requires small { AreSmall sizes.now }
    ensures { result ≡ descriptor_header (shown edited.now) }
{
    header(edited.rm, edited.control, offsets_of(sizes))
}

fn print_acl_part<P: Print>(acl: &EditedAcl, size: u32, out: &mut P)
    requires size { size ≡ acl_part_size (acl_shown acl.now) }
    requires small { size < 2 ^ 16 }
    ensures { Prints (P.told out.old) (P.told out.new) (acl_part (acl_shown acl.now)) }
{
    if let EditedAcl::List(aces) = acl {
        print_list(aces, size as u16, out);
    }
}

// Prints an ACL that is a list (MS-DTYP 2.4.5).
fn print_list<P: Print>(aces: &[Ace], size: u16, out: &mut P)
    requires { size ≡ acl_size aces.now }
    ensures { Prints (P.told out.old) (P.told out.new) (acl_bytes aces.now) }
{
    let count = aces.len() as u16;
    out.put(&acl_header(has_object(aces), size, count));
    print_aces(aces, out);
}

fn has_object(aces: &[Ace]) -> bool
    ensures { result ≡ has_object aces.now }
{
    aces.iter().any(|ace| ace.kind().is_object())
}

fn print_aces<P: Print>(aces: &[Ace], out: &mut P)
    ensures { Prints (P.told out.old) (P.told out.new) (flat_map ace_bytes aces.now) }
{
    for ace in aces {
        print_ace(ace, out);
    }
}
