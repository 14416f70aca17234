//! SIDs with their aliases, and the lines of owner and group (MS-DTYP 2.4.2).
ghost use Rattle.sd_sink.specs.Print.{Prints};
ghost use Rattle.sd_explain.specs.Explain.{name_after, sid_line, sid_or_none, sid_words};

use sd_sid::Naming;
use sd_sid_view::SidView;
use sd_sink::Print;

/// Prints the line of an owner or a group, which may be absent.
pub fn print_sid_line<P: Print>(
    naming: &Naming,
    part: &[u8; 6],
    sid: Option<SidView<'_>>,
    out: &mut P,
)
    ensures { Prints (P.told out.old) (P.told out.new) (sid_line naming.now part.now sid.entry) }
{
    out.put(part);
    print_sid_or_none(naming, sid, out);
    out.put(b"\n");
}

fn print_sid_or_none<P: Print>(naming: &Naming, sid: Option<SidView<'_>>, out: &mut P)
    ensures { Prints (P.told out.old) (P.told out.new) (sid_or_none naming.now sid.entry) }
{
    match sid {
        Some(sid) => print_sid(naming, &sid, out),
        None => out.put(b"none"),
    }
}

/// Prints the text of a SID, and its alias behind it.
#[inline(always)]
pub fn print_sid<P: Print>(naming: &Naming, sid: &SidView<'_>, out: &mut P)
    ensures { Prints (P.told out.old) (P.told out.new) (sid_words naming.now sid.now) }
{
    sid.print_text(out);
    print_alias(sid.alias_by(naming), out);
}

// Prints a blank and the alias, where there is one.
fn print_alias<P: Print>(alias: Option<[u8; 2]>, out: &mut P)
    ensures { Prints (P.told out.old) (P.told out.new) (name_after alias) }
{
    if let Some(alias) = alias {
        out.put(b" ");
        out.put(&alias);
    }
}
