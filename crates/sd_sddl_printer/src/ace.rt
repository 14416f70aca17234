//! ACEs as SDDL: six fields in parentheses (MS-DTYP 2.5.1.1).

ghost use Rattle.std.specs.Prelude.{◌++◌, codes};
ghost use Rattle.sd_sink.specs.Print.{Prints};
ghost use Rattle.sd_sddl_printer.specs.Printed.{ace_text, kind_field, object_field, object_text};

use crate::trustee::print_trustee;
use sd_ace::print_guid;
use sd_acl_view::AceView;
use sd_kinds::{AceKind, print_flags};
use sd_rights::print_rights;
use sd_sid::Naming;
use sd_sink::Print;
use uuid::Uuid;

/// Prints an ACE.
pub fn print_ace<P: Print>(naming: &Naming, ace: &AceView<'_>, out: &mut P)
    ensures { Prints (P.told out.old) (P.told out.new) (ace_text naming.now ace.now) }
{
    let kind = ace.kind();
    print_kind(kind, out);
    print_flags(ace.flags(), out);
    out.put(b";");
    print_rights(kind, ace.mask(), out);
    print_objects(ace, out);
    print_trustee(naming, &ace.sid_in_place(), out);
    out.put(b")");
}

// The opening parenthesis and the kind.
fn print_kind<P: Print>(kind: AceKind, out: &mut P)
    ensures { Prints (P.told out.old) (P.told out.new) (kind_field kind) }
{
    let letters = kind.letters();
    if letters.len() == 1 {
        return out.put(&[b'(', letters[0], b';']);
    }
    out.put(&[b'(', letters[0], letters[1], b';']);
}

// The object types, each with the semicolon before it, and the one behind them. Most ACEs are of a kind that has none.
fn print_objects<P: Print>(ace: &AceView<'_>, out: &mut P)
    ensures { Prints (P.told out.old) (P.told out.new)
        (codes ";" ++ (object_field ace.now.object ++ object_field ace.now.inherited)) }
{
    if !ace.kind().is_object() {
        return out.put(b";;;");
    }
    let object = ace.object();
    let inherited = ace.inherited();
    out.put(b";");
    print_object(object, out);
    out.put(b";");
    print_object(inherited, out);
    out.put(b";");
}

fn print_object<P: Print>(object: Option<Uuid>, out: &mut P)
    ensures { Prints (P.told out.old) (P.told out.new) (object_text object) }
{
    if let Some(guid) = object {
        print_guid(&guid, out);
    }
}
