//! The texts of fields that only SDDL has (MS-DTYP 2.5.1.1).

ghost use Rattle.std.specs.Prelude.{◌≡◌, Some, None};
ghost use Rattle.std.specs.Str.{str_eq_ignore_ascii_case};
ghost use Rattle.sd_parts.specs.Control.{no_flags};
ghost use Rattle.sd_sddl_fields.specs.FieldTexts.{ends_with_null, flags_after, front_reads, object_reads, two_letters};

use sd_ace::guid_from_text;
use sd_kinds::AceKind;
use sd_parts::AclFlags;
use uuid::Uuid;

/// The text of an ACL before its ACEs: its flags, and whether it is null.
#[derive(Clone, Copy)]
pub struct AclFront {
    pub flags: AclFlags,
    pub null: bool,
}

/// The text of an ACL that is null.
const NULL_NAME: &str = "NO_ACCESS_CONTROL";

/// No flag of an ACL.
pub const NO_FLAGS: AclFlags = AclFlags {
    protected: false,
    auto_inherit_required: false,
    auto_inherited: false,
};

// Two texts that differ in the case of letters at most.
fn is_same(first: &[u8], second: &[u8]) -> bool
    ensures { result ≡ str_eq_ignore_ascii_case first.now second.now }
{
    first.eq_ignore_ascii_case(second)
}

/// The object type, or the inherited object type, of an ACE of this kind: nothing for an empty text, and else a GUID,
/// which only object kinds may have.
#[tactic(auto, unfolding(crate::specs::FieldTexts::object_reads))]
pub fn object_from_text(kind: AceKind, text: &[u8]) -> Option<Option<Uuid>>
    ensures { result ≡ object_reads kind text.now }
{
    if text.is_empty() {
        return Some(None);
    }
    if !kind.is_object() {
        return None;
    }
    guid_from_text(text).map(Some)
}

/// The text of an ACL before its ACEs: flags, and `NO_ACCESS_CONTROL` if the ACL is null.
#[tactic(auto, unfolding(crate::specs::FieldTexts::front_reads))]
pub fn front_from_text(text: &[u8]) -> Option<AclFront>
    ensures { result ≡ front_reads text.now }
{
    let null = ends_with_null(text);
    let run = if null {
        &text[..text.len() - NULL_NAME.len()]
    } else {
        text
    };
    let flags = flags_from_run(run)?;
    Some(AclFront { flags, null })
}

#[tactic(auto, using(std::proofs::lemmas::Bool::Decides::nat_tests, std::proofs::lemmas::List::take_rest))]
fn ends_with_null(text: &[u8]) -> bool
    ensures { result ≡ ends_with_null text.now }
{
    if text.len() < NULL_NAME.len() {
        return false;
    }
    is_same(&text[text.len() - NULL_NAME.len()..], NULL_NAME.as_bytes())
}

// The flags of a run of P, AR and AI.
fn flags_from_run(text: &[u8]) -> Option<AclFlags>
    ensures { result ≡ flags_after no_flags text.now }
{
    let mut flags = NO_FLAGS;
    let mut rest = text;
    while let Some((first, tail)) = rest.split_first() {
        if first.to_ascii_uppercase() == b'P' {
            flags.protected = true;
            rest = tail;
            continue;
        }
        let (second, tail) = tail.split_first()?;
        flags = two_letters(flags, *first, *second)?;
        rest = tail;
    }
    Some(flags)
}

// The flags with AR or AI.
fn two_letters(flags: AclFlags, first: u8, second: u8) -> Option<AclFlags>
    ensures { result ≡ two_letters flags first second }
{
    if first.to_ascii_uppercase() != b'A' {
        return None;
    }
    match second.to_ascii_uppercase() {
        b'R' => Some(AclFlags {
            auto_inherit_required: true,
            ..flags
        }),
        b'I' => Some(AclFlags {
            auto_inherited: true,
            ..flags
        }),
        _ => None,
    }
}
