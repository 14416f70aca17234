//! Trustees, owners and groups in SDDL.

ghost use Rattle.sd_sink.specs.Print.{Prints};
ghost use Rattle.sd_sddl_printer.specs.Printed.{trustee_text};

use sd_sid::Naming;
use sd_sid_view::SidView;
use sd_sink::Print;

/// Prints the alias of a SID, or its text.
#[inline(always)]
#[tactic(auto, unfolding(crate::specs::Printed::trustee_text))]
pub fn print_trustee<P: Print>(naming: &Naming, sid: &SidView<'_>, out: &mut P)
    ensures { Prints (P.told out.old) (P.told out.new) (trustee_text naming.now sid.now) }
{
    match sid.alias_by(naming) {
        Some(alias) => out.put(&alias),
        None => sid.print_text(out),
    }
}
