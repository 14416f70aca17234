//! New descriptors printed in their one layout (MS-DTYP 2.4.6).

ghost use Rattle.std.specs.Prelude.{◌≡◌, ◌<◌, ◌+◌, ◌^◌, length, map};
ghost use Rattle.std.specs.List.{AllPass};
ghost use Rattle.sd_sink.specs.Print.{Prints};
ghost use Rattle.sd_sink.specs.Sink.{Puts};
ghost use Rattle.sd_builder.specs.Draft.{is_present};
ghost use Rattle.sd_acl_view.specs.Acl.{acl_size};
ghost use Rattle.sd_acl_view.specs.AclLayout.{acl_bytes};
ghost use Rattle.sd_view.specs.Layout.{acl_part, acl_part_size, descriptor_header, layout};
ghost use Rattle.sd_call_build.specs.New.{AreSmall, acl_shown, is_ace, new_descriptor, part_sizes, shown_ace};

use crate::new::{LIST, NewAce, NewAcl, NewDescriptor};
use crate::printing::{print_aces, print_sid_part};
use crate::reading::whole_sid;
use crate::sizes::has_object;
use sd_builder::{acl_header, offsets_of};
use sd_parts::{HEADER_SIZE, Parts, control_of, header};
use sd_sink::{Print, Printer, Sink, SinkFault};

/// Puts the layout of a new descriptor whose parts have these sizes.
pub fn put_new<S: Sink>(
    new: &NewDescriptor<'_>,
    sizes: &Parts<u32>,
    sink: &mut S,
) -> Result<(), SinkFault>
    requires sacl { AllPass is_ace new.now.sacl.aces.now }
    requires dacl { AllPass is_ace new.now.dacl.aces.now }
    requires sizes { sizes.now ≡ part_sizes (new_descriptor new.now) }
    requires small { AreSmall sizes.now }
    ensures put { Puts (S.told sink.old) (S.told sink.new) (layout (new_descriptor new.now)) result }
    ensures size { length (layout (new_descriptor new.now))
        ≡ 20 + sizes.now.owner + sizes.now.group + sizes.now.sacl + sizes.now.dacl }
{
    let mut out = Printer::new(sink);
    print_new(new, sizes, &mut out);
    out.finish()
}

// Prints it.
fn print_new<P: Print>(new: &NewDescriptor<'_>, sizes: &Parts<u32>, out: &mut P)
    requires sacl { AllPass is_ace new.now.sacl.aces.now }
    requires dacl { AllPass is_ace new.now.dacl.aces.now }
    requires sizes { sizes.now ≡ part_sizes (new_descriptor new.now) }
    requires small { AreSmall sizes.now }
    ensures { Prints (P.told out.old) (P.told out.new) (layout (new_descriptor new.now)) }
{
    let owner = whole_sid(new.owner);
    let group = whole_sid(new.group);
    out.put(&header_of(new, sizes));
    print_sid_part(&owner, out);
    print_sid_part(&group, out);
    print_acl_part(&new.sacl, sizes.sacl, out);
    print_acl_part(&new.dacl, sizes.dacl, out);
}

fn header_of(new: &NewDescriptor<'_>, sizes: &Parts<u32>) -> [u8; HEADER_SIZE]
    requires sizes { sizes.now ≡ part_sizes (new_descriptor new.now) }
    requires small { AreSmall sizes.now }
    ensures { result ≡ descriptor_header (new_descriptor new.now) }
{
    let control = control_of(new.control, is_present(&new.sacl), is_present(&new.dacl));
    header(new.resource_manager, control, offsets_of(sizes))
}

fn is_present(acl: &NewAcl<'_>) -> bool
    ensures { result ≡ is_present (acl_shown acl.now) }
{
    acl.state != 0
}

#[tactic(auto, using(crate::proofs::ListLemmas::list_shown))]
fn print_acl_part<P: Print>(acl: &NewAcl<'_>, size: u32, out: &mut P)
    requires aces { AllPass is_ace acl.now.aces.now }
    requires size { size ≡ acl_part_size (acl_shown acl.now) }
    requires small { size < 2 ^ 16 }
    ensures { Prints (P.told out.old) (P.told out.new) (acl_part (acl_shown acl.now)) }
{
    if acl.state >= LIST {
        print_list(acl.aces, size as u16, out);
    }
}

// Prints an ACL that is a list (MS-DTYP 2.4.5).
fn print_list<P: Print>(aces: &[NewAce<'_>], size: u16, out: &mut P)
    requires aces { AllPass is_ace aces.now }
    requires size { size ≡ acl_size (map shown_ace aces.now) }
    ensures { Prints (P.told out.old) (P.told out.new) (acl_bytes (map shown_ace aces.now)) }
{
    let count = aces.len() as u16;
    out.put(&acl_header(has_object(aces), size, count));
    print_aces(aces, out);
}
