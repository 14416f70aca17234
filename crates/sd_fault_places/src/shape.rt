//! How far a text goes as a line of SDDL may go.

ghost use Rattle.std.specs.Prelude.{◌≡◌, ◌≤◌, ◌<◌, ◌+◌, ◌^◌, length};
ghost use Rattle.sd_sddl_builder.specs.Line.{head_of};
ghost use Rattle.sd_fault_places.specs.Shape.{at_stand, is_between, is_ended, is_inside, is_last, next_stand, reach};
ghost use Rattle.sd_fault_places.specs.Shape.{stand_of, start, step, stop};
ghost use Rattle.sd_fault_places.specs.declared.shape.Stand.TheVariants as stand;
ghost use Rattle.sd_fault_places.specs.Inner.Counted.{aces_before};

use sd_parts::{SidPart, Which};
use sd_sddl_builder::{AceField, Head, next_field};
use sd_sddl_fields::is_blank;

/// Where in a line the next byte is. An ACE has the number of the ACEs before it in its part.
#[derive(Clone, Copy)]
pub enum Stand {
    /// Before the first head.
    Before,
    /// In the text of an owner or a group.
    Sid(SidPart),
    /// In an ACL, before its first ACE.
    Flags(Which),
    /// In an ACL, behind so many ACEs.
    Behind(Which, u32),
    /// In a field of an ACE.
    Ace(Which, u32, AceField),
}

/// The front of a line: where it stands, and its last byte if that may be the letter of a head.
#[derive(Clone, Copy)]
pub struct Front {
    pub stand: Stand,
    pub letter: Option<u8>,
}

/// How many bytes some line begins with, and what stands open behind them.
pub(crate) fn walk(text: &[u8]) -> (usize, Front)
    requires small { length text.now < 2 ^ 32 }
    ensures reach { result.0 ≡ reach start text.now }
    ensures within { result.0 ≤ length text.now }
    ensures stop { result.1 ≡ stop start text.now }
{
    let mut front = at_stand(Stand::Before);
    let mut rest = text;
    while let Some((byte, tail)) = rest.split_first() {
        let Some(next) = step(front, *byte) else {
            return (text.len() - rest.len(), front);
        };
        front = next;
        rest = tail;
    }
    (text.len(), front)
}

/// No parenthesis is open, and no letter lacks its colon.
pub(crate) fn is_ended(front: Front) -> bool
    ensures { result ≡ is_ended front }
{
    !(is_inside(front.stand) || (is_between(front.stand) && front.letter.is_some()))
}

fn step(front: Front, byte: u8) -> Option<Front>
    requires { aces_before front + 1 < 2 ^ 32 }
    ensures { result ≡ step front byte }
{
    if is_inside(front.stand) {
        return Some(at_stand(next_stand(front.stand, byte)?));
    }
    if byte == b':' {
        return Some(at_stand(stand_of(head_of(front.letter?)?)));
    }
    if is_between(front.stand) && front.letter.is_some() {
        return None;
    }
    if head_of(byte).is_some() {
        return Some(Front {
            stand: front.stand,
            letter: Some(byte),
        });
    }
    Some(at_stand(next_stand(front.stand, byte)?))
}

fn at_stand(stand: Stand) -> Front
    ensures { result ≡ at_stand stand }
{
    Front {
        stand,
        letter: None,
    }
}

fn is_inside(stand: Stand) -> bool
    ensures { result ≡ is_inside stand }
{
    match stand {
        Stand::Ace(_, _, _) => true,
        Stand::Before | Stand::Sid(_) | Stand::Flags(_) | Stand::Behind(_, _) => false,
    }
}

fn is_between(stand: Stand) -> bool
    ensures { result ≡ is_between stand }
{
    match stand {
        Stand::Before | Stand::Behind(_, _) => true,
        Stand::Sid(_) | Stand::Flags(_) | Stand::Ace(_, _, _) => false,
    }
}

/// What a letter announces, in either case.
pub(crate) fn head_of(byte: u8) -> Option<Head>
    ensures { result ≡ head_of byte }
{
    match byte {
        b'O' | b'o' => Some(Head::Sid(SidPart::Owner)),
        b'G' | b'g' => Some(Head::Sid(SidPart::Group)),
        b'D' | b'd' => Some(Head::Acl(Which::Dacl)),
        b'S' | b's' => Some(Head::Acl(Which::Sacl)),
        _ => None,
    }
}

fn stand_of(head: Head) -> Stand
    ensures { result ≡ stand_of head }
{
    match head {
        Head::Sid(part) => Stand::Sid(part),
        Head::Acl(which) => Stand::Flags(which),
    }
}

fn is_last(field: AceField) -> bool
    ensures { result ≡ is_last field }
{
    match field {
        AceField::Sid => true,
        _ => false,
    }
}

fn next_stand(stand: Stand, byte: u8) -> Option<Stand>
    requires { aces_before (at_stand stand) + 1 < 2 ^ 32 }
    ensures { result ≡ next_stand stand byte }
{
    match stand {
        Stand::Before => { if is_blank(byte) { Some(stand) } else { None } }
        Stand::Sid(_) => {
            if byte == b'(' || byte == b')' {
                None
            } else {
                Some(stand)
            }
        }
        Stand::Flags(which) => next_in_flags(which, byte),
        Stand::Behind(which, number) => next_behind(which, number, byte),
        Stand::Ace(which, number, field) => next_in_ace(which, number, field, byte),
    }
}

fn next_in_flags(which: Which, byte: u8) -> Option<Stand>
    ensures { result ≡ next_stand (stand.Flags which) byte }
{
    match byte {
        b'(' => Some(Stand::Ace(which, 0, AceField::Kind)),
        b')' => None,
        _ => Some(Stand::Flags(which)),
    }
}

fn next_behind(which: Which, number: u32, byte: u8) -> Option<Stand>
    ensures { result ≡ next_stand (stand.Behind which number) byte }
{
    if byte == b'(' {
        return Some(Stand::Ace(which, number, AceField::Kind));
    }
    if is_blank(byte) {
        return Some(Stand::Behind(which, number));
    }
    None
}

fn next_in_ace(which: Which, number: u32, field: AceField, byte: u8) -> Option<Stand>
    requires { number + 1 < 2 ^ 32 }
    ensures { result ≡ next_stand (stand.Ace which number field) byte }
{
    match byte {
        b'(' => None,
        b')' => {
            if is_last(field) {
                Some(Stand::Behind(which, number + 1))
            } else {
                None
            }
        }
        b';' => {
            if is_last(field) {
                None
            } else {
                Some(Stand::Ace(which, number, next_field(field)))
            }
        }
        _ => Some(Stand::Ace(which, number, field)),
    }
}
