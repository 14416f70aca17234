//! New ACEs printed in their written form (MS-DTYP 2.4.4).

ghost use Rattle.std.specs.Prelude.{map};
ghost use Rattle.std.specs.List.{AllPass, flat_map};
ghost use Rattle.sd_ace.specs.AceLayout.{ace_bytes, guid_part, guids};
ghost use Rattle.sd_kinds.specs.Kinds.{is_object};
ghost use Rattle.sd_sid.specs.Sid.{sid_bytes};
ghost use Rattle.sd_sink.specs.Print.{Prints};
ghost use Rattle.sd_view.specs.Layout.{sid_part};
ghost use Rattle.sd_call_build.specs.New.{is_ace, shown_ace};

use crate::new::NewAce;
use crate::reading::shown_ace;
use sd_ace::{Ace, AceFront, guid_bytes};
use sd_call::write_sid;
use sd_parts::MOST_SID_SIZE;
use sd_sid::Sid;
use sd_sink::Print;
use uuid::Uuid;

/// Prints ACEs one after the other.
pub fn print_aces<P: Print>(aces: &[NewAce<'_>], out: &mut P)
    requires { AllPass is_ace aces.now }
    ensures { Prints (P.told out.old) (P.told out.new) (flat_map ace_bytes (map shown_ace aces.now)) }
{
    for new in aces {
        print_ace(&shown_ace(new), out);
    }
}

/// Prints an ACE.
pub fn print_ace<P: Print>(ace: &Ace, out: &mut P)
    ensures { Prints (P.told out.old) (P.told out.new) (ace_bytes ace.now) }
{
    let front = AceFront::of_ace(ace);
    out.put(front.as_slice());
    print_guids(ace, out);
    print_sid(ace.trustee(), out);
}

// The GUIDs, which only object kinds have.
fn print_guids<P: Print>(ace: &Ace, out: &mut P)
    ensures { Prints (P.told out.old) (P.told out.new)
        (guids (is_object ace.now.kind) ace.now.object ace.now.inherited) }
{
    if ace.kind().is_object() {
        print_guid(&ace.object(), out);
        print_guid(&ace.inherited(), out);
    }
}

// A GUID that may be there (MS-DTYP 2.3.4.2).
fn print_guid<P: Print>(guid: &Option<Uuid>, out: &mut P)
    ensures { Prints (P.told out.old) (P.told out.new) (guid_part guid.now) }
{
    if let Some(guid) = guid {
        out.put(&guid_bytes(guid));
    }
}

/// Prints the bytes of an owner or a group, if there is one.
pub fn print_sid_part<P: Print>(sid: &Option<Sid>, out: &mut P)
    ensures { Prints (P.told out.old) (P.told out.new) (sid_part sid.now) }
{
    if let Some(sid) = sid {
        print_sid(sid, out);
    }
}

// Prints the bytes of a SID.
fn print_sid<P: Print>(sid: &Sid, out: &mut P)
    ensures { Prints (P.told out.old) (P.told out.new) (sid_bytes sid.now) }
{
    let mut cells = [0; MOST_SID_SIZE];
    let cells = &mut cells[..sid.size()];
    write_sid(sid, cells);
    out.put(cells);
}
