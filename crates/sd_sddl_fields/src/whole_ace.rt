//! The fields of an ACE that is whole at the front of a text, read in place.

ghost use Rattle.std.specs.Prelude.{◌≡◌, ◌≤◌, ◌/◌, ◌%◌, ◌∷◌, ◌++◌, take, IfSome, Some};
ghost use Rattle.std.specs.Str.{byte as char};
ghost use Rattle.sd_kinds.specs.Flags.{flags_reads};
ghost use Rattle.sd_rights.specs.Rights.{rights_reads};
ghost use Rattle.sd_text.specs.Limits.{most_field};
ghost use Rattle.sd_sddl_fields.specs.FieldTexts.{kind_reads, object_reads};
ghost use Rattle.sd_sddl_fields.specs.FieldFronts.{FieldAt, ObjectsAt};

use crate::field_texts::object_from_text;
use sd_ace::GUID_TEXT_SIZE;
use sd_kinds::{AceKind, flags_from_text};
use sd_rights::{front_mask, rights_from_text};
use sd_text::MOST_FIELD_SIZE;
use uuid::Uuid;

/// The kind at the front of a text, and what follows its semicolon. None where there is none.
#[inline(always)]
pub fn front_kind(text: &[u8]) -> Option<(AceKind, &[u8])>
    ensures { IfSome result (λ r. FieldAt (λ t. kind_reads t ≡ Some r.0) (char ";") text.now r.1.now) }
{
    if let Some(usual) = usual_kind(text) {
        return Some(usual);
    }
    let (field, rest) = cut(text)?;
    let kind = AceKind::from_text(field)?;
    Some((kind, rest))
}

// The same, for the kinds that most ACEs are of.
#[inline(always)]
fn usual_kind(text: &[u8]) -> Option<(AceKind, &[u8])>
    ensures { IfSome result (λ r. FieldAt (λ t. kind_reads t ≡ Some r.0) (char ";") text.now r.1.now) }
{
    if let Some(rest) = after(text, b"A;") {
        return Some((AceKind::Allow, rest));
    }
    if let Some(rest) = after(text, b"OA;") {
        return Some((AceKind::ObjectAllow, rest));
    }
    if let Some(rest) = after(text, b"D;") {
        return Some((AceKind::Deny, rest));
    }
    let rest = after(text, b"AU;")?;
    Some((AceKind::Audit, rest))
}

/// The flags, and what follows their semicolon.
#[inline(always)]
pub fn front_flags(text: &[u8]) -> Option<(u8, &[u8])>
    ensures found { IfSome result (λ r. FieldAt (λ t. flags_reads t ≡ Some r.0) (char ";") text.now r.1.now) }
    ensures clear { IfSome result (λ r. r.0 / 0x20 % 2 ≡ 0) }
{
    if let Some(usual) = usual_flags(text) {
        return Some(usual);
    }
    let (field, rest) = cut(text)?;
    let flags = flags_from_text(field)?;
    Some((flags, rest))
}

// The same, for the flags that most ACEs have.
#[inline(always)]
fn usual_flags(text: &[u8]) -> Option<(u8, &[u8])>
    ensures found { IfSome result (λ r. FieldAt (λ t. flags_reads t ≡ Some r.0) (char ";") text.now r.1.now) }
    ensures clear { IfSome result (λ r. r.0 / 0x20 % 2 ≡ 0) }
{
    let (flags, count) = sd_kinds::usual_flags(text)?;
    let rest = behind_byte(text, count, b';')?;
    Some((flags, rest))
}

/// The access mask, and what follows its semicolon.
#[inline(always)]
pub fn front_rights(text: &[u8]) -> Option<(u32, &[u8])>
    ensures { IfSome result (λ r. FieldAt (λ t. rights_reads t ≡ Some r.0) (char ";") text.now r.1.now) }
{
    if let Some(usual) = usual_rights(text) {
        return Some(usual);
    }
    let (field, rest) = cut(text)?;
    let mask = rights_from_text(field)?;
    Some((mask, rest))
}

// The same, for the forms that most masks have: names, or hex digits.
#[inline(always)]
fn usual_rights(text: &[u8]) -> Option<(u32, &[u8])>
    ensures { IfSome result (λ r. FieldAt (λ t. rights_reads t ≡ Some r.0) (char ";") text.now r.1.now) }
{
    let (mask, size) = front_mask(text)?;
    let rest = behind_byte(text, size, b';')?;
    Some((mask, rest))
}

/// What follows this text at the front.
#[inline(always)]
pub fn after<'a>(text: &'a [u8], front: &[u8]) -> Option<&'a [u8]>
    ensures { IfSome result (λ r. text.now ≡ front.now ++ r.now) }
{
    let rest = text.strip_prefix(front)?;
    Some(rest)
}

/// The object type, the inherited object type, and what follows the semicolon of the second.
pub fn front_objects(kind: AceKind, text: &[u8]) -> Option<(Option<Uuid>, Option<Uuid>, &[u8])>
    ensures { IfSome result (λ r. ObjectsAt kind r.0 r.1 text.now r.2.now) }
{
    let Some((object, rest)) = front_object(kind, text) else {
        return None;
    };
    let Some((inherited, rest)) = front_object(kind, rest) else {
        return None;
    };
    Some((object, inherited, rest))
}

// An object type, and what follows its semicolon: nothing, or a GUID.
fn front_object(kind: AceKind, text: &[u8]) -> Option<(Option<Uuid>, &[u8])>
    ensures { IfSome result (λ r. FieldAt (λ t. object_reads kind t ≡ Some r.0) (char ";") text.now r.1.now) }
{
    let empty = text.len() > 0 && text[0] == b';';
    let size = if empty { 0 } else { GUID_TEXT_SIZE };
    if text.len() <= size || text[size] != b';' {
        return None;
    }
    let Some(object) = object_from_text(kind, &text[..size]) else {
        return None;
    };
    Some((object, &text[size + 1..]))
}

// The text before the first semicolon, and what follows it. None if the semicolon is further than a field reaches.
#[inline(always)]
fn cut(text: &[u8]) -> Option<(&[u8], &[u8])>
    ensures { IfSome result (λ r. text.now ≡ r.0.now ++ char ";" ∷ r.1.now) }
{
    for place in 0..text.len().min(MOST_FIELD_SIZE + 1) {
        if text[place] == b';' {
            return Some((&text[..place], &text[place + 1..]));
        }
    }
    None
}

/// The text after a parenthesis at offset `size`. `None` if none is there or `size` exceeds a field.
#[inline(always)]
pub fn behind(text: &[u8], size: usize) -> Option<&[u8]>
    ensures { IfSome result (λ r. (size ≤ most_field) × (text.now ≡ take size text.now ++ char ")" ∷ r.now)) }
{
    if size > MOST_FIELD_SIZE {
        return None;
    }
    behind_byte(text, size, b')')
}

// What follows this byte at offset `size`. `None` if it isn't there.
#[inline(always)]
fn behind_byte(text: &[u8], size: usize, byte: u8) -> Option<&[u8]>
    ensures { IfSome result (λ r. text.now ≡ take size text.now ++ byte ∷ r.now) }
{
    if text.len() <= size || text[size] != byte {
        return None;
    }
    Some(&text[size + 1..])
}
