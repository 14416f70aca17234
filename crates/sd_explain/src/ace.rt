//! The line of an ACE (MS-DTYP 2.4.4).
ghost use Rattle.std.specs.Prelude.{◌≡◌, ◌/◌, ◌%◌, ◌++◌, codes};
ghost use Rattle.sd_sink.specs.Print.{Prints};
ghost use Rattle.sd_kinds.specs.Flags.{flags_text};
ghost use Rattle.sd_kinds.specs.Kinds.{kind_letters};
ghost use Rattle.sd_explain.specs.Explain.{ace_head, ace_line, ace_rights, ace_trustee, guid_words, or_none};

use crate::acl::PART_SIZE;
use crate::sid::print_sid;
use sd_ace::print_guid;
use sd_acl_view::AceView;
use sd_kinds::{AceKind, print_flags};
use sd_rights::print_rights;
use sd_sid::Naming;
use sd_sid_view::SidView;
use sd_sink::Print;
use sd_text::{print_decimal, print_hex};
use uuid::Uuid;

/// Prints the line of an ACE.
pub fn print_ace<P: Print>(
    naming: &Naming,
    part: &[u8; PART_SIZE],
    number: u32,
    ace: &AceView<'_>,
    out: &mut P,
)
    ensures { Prints (P.told out.old) (P.told out.new) (ace_line naming.now part.now number ace.now) }
{
    let kind = ace.kind();
    print_head(part, number, kind, out);
    print_access(kind, ace.flags(), ace.mask(), out);
    print_object(b" object ", ace.object(), out);
    print_object(b" inherited ", ace.inherited(), out);
    print_trustee(naming, &ace.sid_in_place(), out);
}

// The part, the number and the kind.
fn print_head<P: Print>(part: &[u8; PART_SIZE], number: u32, kind: AceKind, out: &mut P)
    ensures { Prints (P.told out.old) (P.told out.new) (ace_head part.now number kind) }
{
    out.put(part);
    print_decimal(number, out);
    print_kind(kind, out);
}

// A blank and the letters of a kind.
fn print_kind<P: Print>(kind: AceKind, out: &mut P)
    ensures { Prints (P.told out.old) (P.told out.new) (codes " " ++ kind_letters kind) }
{
    let letters = kind.letters();
    if letters.len() == 1 {
        return out.put(&[b' ', letters[0]]);
    }
    out.put(&[b' ', letters[0], letters[1]]);
}

// The flags, and the access mask as a number and as rights.
fn print_access<P: Print>(kind: AceKind, flags: u8, mask: u32, out: &mut P)
    requires { flags / 0x20 % 2 ≡ 0 }
    ensures { Prints (P.told out.old) (P.told out.new) (ace_rights kind flags mask) }
{
    out.put(b" flags ");
    print_flags_or_none(flags, out);
    out.put(b" mask 0x");
    print_hex(8, u64::from(mask), out);
    out.put(b" rights ");
    print_rights(kind, mask, out);
}

// Without bit 0x20, which has no name, there are names but for 0.
fn print_flags_or_none<P: Print>(flags: u8, out: &mut P)
    requires { flags / 0x20 % 2 ≡ 0 }
    ensures { Prints (P.told out.old) (P.told out.new) (or_none (flags_text flags)) }
{
    if flags == 0 {
        return out.put(b"none");
    }
    print_flags(flags, out);
}

// An object type or an inherited object type behind its name, where there is one. Most ACEs have none.
#[inline(always)]
fn print_object<P: Print>(name: &[u8], guid: Option<Uuid>, out: &mut P)
    ensures { Prints (P.told out.old) (P.told out.new) (guid_words name.now guid) }
{
    if let Some(guid) = guid {
        out.put(name);
        print_guid(&guid, out);
    }
}

fn print_trustee<P: Print>(naming: &Naming, sid: &SidView<'_>, out: &mut P)
    ensures { Prints (P.told out.old) (P.told out.new) (ace_trustee naming.now sid.now) }
{
    out.put(b" sid ");
    print_sid(naming, sid, out);
    out.put(b"\n");
}
