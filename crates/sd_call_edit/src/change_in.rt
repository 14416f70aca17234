//! The change that is spelled by the members of a struct.

ghost use Rattle.std.specs.Prelude.{◌≡◌, length, Some};
ghost use Rattle.sd_call_edit.specs.Input.{ace_in, ace_type_in, acl_change_in, are_flags, change_in, change_of};
ghost use Rattle.sd_call_edit.specs.Input.{compares, control_in, is_apart, kind_if, list_change_in, mask_if};
ghost use Rattle.sd_call_edit.specs.Input.{match_in, match_of, optional_sid_in, place_in, setting_in, setting_of};
ghost use Rattle.sd_call_edit.specs.Input.{sid_in, state_in, type_in, unused_of, which_in, without_ace};
ghost use Rattle.sd_call_edit.specs.Input.{without_match, without_setting};
ghost use Rattle.sd_call_edit.specs.Edit.{is_change, shown_change};

use crate::input::{ChangeInput, is_zero};
use sd_ace::{Ace, UNUSED_FLAG, guid_read};
use sd_edit::{AclChange, AclState, Change, ListChange, Match, Place, Setting};
use sd_kinds::AceKind;
use sd_parts::{DACL_PRESENT, MOST_SID_SIZE, SACL_PRESENT, SELF_RELATIVE, Which};
use sd_sid::Sid;
use uuid::Uuid;

/// What a change may be: enum sdtool_change_kind.
const PUT: u32 = 1;

const TAKE: u32 = 2;

const REPLACE: u32 = 3;

const TAKE_EACH: u32 = 4;

const SET_EACH: u32 = 5;

const ORDER: u32 = 6;

const STATE: u32 = 7;

const SET_OWNER: u32 = 8;

const SET_GROUP: u32 = 9;

const CONTROL: u32 = 10;

const AT_END: u32 = 0xffff_ffff;

const BY_ORDER: u32 = 0xffff_fffe;

const COMPARE_KIND: u32 = 1;

const COMPARE_MASK: u32 = 2;

const TYPE_NONE: u8 = 1;

const TYPE_GIVEN: u8 = 2;

/// The bits of the control word that no change names.
const FIXED: u16 = SELF_RELATIVE | SACL_PRESENT | DACL_PRESENT;

/// The change that is meant. None where a member that the change doesn't use is not 0, or one that it uses can't be.
fn change_in(input: &ChangeInput) -> Option<Change>
    ensures { result ≡ change_in input.now }
{
    if !unused_of(input).is_nothing() {
        return None;
    }
    change_of(input)
}

/// Whether a change is meant.
pub fn is_change(input: &ChangeInput) -> bool
    ensures { result ≡ is_change input.now }
{
    change_in(input).is_some()
}

/// The change that is meant. One that is none stands for nothing.
pub fn shown_change(input: &ChangeInput) -> Change
    ensures { result ≡ shown_change input.now }
{
    match change_in(input) {
        Some(change) => change,
        None => Change::Control(0, 0),
    }
}

#[tactic(auto, unfolding(crate::specs::Input::unused_of))]
fn unused_of(input: &ChangeInput) -> ChangeInput
    ensures { result ≡ unused_of input.now }
{
    match input.kind {
        PUT | REPLACE => ChangeInput {
            kind: 0,
            part: 0,
            place: 0,
            ..without_ace(input)
        },
        TAKE => ChangeInput {
            kind: 0,
            part: 0,
            place: 0,
            ..*input
        },
        TAKE_EACH => ChangeInput {
            kind: 0,
            part: 0,
            ..without_match(input)
        },
        SET_EACH => ChangeInput {
            kind: 0,
            part: 0,
            ..without_setting(&without_match(input))
        },
        ORDER => ChangeInput {
            kind: 0,
            part: 0,
            ..*input
        },
        STATE => ChangeInput {
            kind: 0,
            part: 0,
            state: 0,
            ..*input
        },
        SET_OWNER | SET_GROUP => ChangeInput {
            kind: 0,
            sid: [0; MOST_SID_SIZE],
            ..*input
        },
        CONTROL => ChangeInput {
            kind: 0,
            set_control: 0,
            clear_control: 0,
            ..*input
        },
        _ => *input,
    }
}

fn without_ace(input: &ChangeInput) -> ChangeInput
    ensures { result ≡ without_ace input.now }
{
    ChangeInput {
        mask: 0,
        ace_kind: 0,
        flags: 0,
        object_type_use: 0,
        inherited_object_type_use: 0,
        object_type: [0; 16],
        inherited_object_type: [0; 16],
        sid: [0; MOST_SID_SIZE],
        ..*input
    }
}

fn without_match(input: &ChangeInput) -> ChangeInput
    ensures { result ≡ without_match input.now }
{
    ChangeInput {
        compare: 0,
        flags_mask: 0,
        ..without_ace(input)
    }
}

fn without_setting(input: &ChangeInput) -> ChangeInput
    ensures { result ≡ without_setting input.now }
{
    ChangeInput {
        set_mask: 0,
        clear_mask: 0,
        set_flags: 0,
        clear_flags: 0,
        set_sid: [0; MOST_SID_SIZE],
        ..*input
    }
}

#[tactic(auto, unfolding(crate::specs::Input::change_of))]
fn change_of(input: &ChangeInput) -> Option<Change>
    ensures { result ≡ change_of input.now }
{
    match input.kind {
        SET_OWNER => Some(Change::Owner(optional_sid_in(&input.sid)?)),
        SET_GROUP => Some(Change::Group(optional_sid_in(&input.sid)?)),
        CONTROL => control_in(input.set_control, input.clear_control),
        _ => {
            let which = which_in(input.part)?;
            Some(Change::Acl(which, acl_change_in(input)?))
        }
    }
}

#[tactic(auto, unfolding(crate::specs::Input::acl_change_in))]
fn acl_change_in(input: &ChangeInput) -> Option<AclChange>
    ensures { result ≡ acl_change_in input.now }
{
    match input.kind {
        ORDER => Some(AclChange::Order),
        STATE => Some(AclChange::State(state_in(input.state)?)),
        _ => Some(AclChange::List(list_change_in(input)?)),
    }
}

#[tactic(auto, unfolding(crate::specs::Input::list_change_in))]
fn list_change_in(input: &ChangeInput) -> Option<ListChange>
    ensures { result ≡ list_change_in input.now }
{
    match input.kind {
        PUT => Some(ListChange::Put(place_in(input.place), ace_in(input)?)),
        TAKE => Some(ListChange::Take(input.place)),
        REPLACE => Some(ListChange::Replace(input.place, ace_in(input)?)),
        TAKE_EACH => Some(ListChange::TakeEach(match_in(input)?)),
        SET_EACH => {
            let matching = match_in(input)?;
            Some(ListChange::SetEach(matching, setting_in(input)?))
        }
        _ => None,
    }
}

fn which_in(part: u32) -> Option<Which>
    ensures { result ≡ which_in part }
{
    match part {
        3 => Some(Which::Sacl),
        4 => Some(Which::Dacl),
        _ => None,
    }
}

fn place_in(place: u32) -> Place
    ensures { result ≡ place_in place }
{
    match place {
        AT_END => Place::End,
        BY_ORDER => Place::ByOrder,
        _ => Place::At(place),
    }
}

fn state_in(state: u8) -> Option<AclState>
    ensures { result ≡ state_in state }
{
    match state {
        0 => Some(AclState::Absent),
        1 => Some(AclState::Null),
        2 => Some(AclState::List),
        _ => None,
    }
}

fn control_in(set: u16, clear: u16) -> Option<Change>
    ensures { result ≡ control_in set clear }
{
    if set & FIXED == 0 && clear & FIXED == 0 && set & clear == 0 {
        Some(Change::Control(set, clear))
    } else {
        None
    }
}

/// The ACE that is meant.
#[tactic(auto, unfolding(crate::specs::Input::ace_in))]
fn ace_in(input: &ChangeInput) -> Option<Ace>
    ensures { result ≡ ace_in input.now }
{
    let kind = AceKind::from_code(input.ace_kind)?;
    let object = ace_type_in(input.object_type_use, &input.object_type)?;
    let inherited = ace_type_in(
        input.inherited_object_type_use,
        &input.inherited_object_type,
    )?;
    let sid = sid_in(&input.sid)?;
    Ace::new(kind, input.flags, input.mask, object, inherited, sid)
}

#[tactic(auto, unfolding(crate::specs::Input::match_in))]
fn match_in(input: &ChangeInput) -> Option<Match>
    ensures { result ≡ match_in input.now }
{
    let sid = optional_sid_in(&input.sid)?;
    let kind = kind_if(input.compare % 2 == 1, input.ace_kind)?;
    let mask = mask_if(input.compare / COMPARE_MASK % 2 == 1, input.mask)?;
    let object = type_in(input.object_type_use, &input.object_type)?;
    let inherited = type_in(
        input.inherited_object_type_use,
        &input.inherited_object_type,
    )?;
    let matching = Match {
        sid,
        kind,
        mask,
        object,
        inherited,
        flags: input.flags,
        flags_mask: input.flags_mask,
    };
    match_of(input, matching)
}

fn match_of(input: &ChangeInput, matching: Match) -> Option<Match>
    ensures { result ≡ match_of input.now matching }
{
    if input.compare < 4
        && are_flags(matching.flags, matching.flags_mask)
        && compares(input, &matching)
    {
        return Some(matching);
    }
    None
}

fn are_flags(flags: u8, mask: u8) -> bool
    ensures { result ≡ are_flags flags mask }
{
    mask & UNUSED_FLAG == 0 && flags & mask == flags
}

fn compares(input: &ChangeInput, matching: &Match) -> bool
    ensures { result ≡ compares input.now matching.now }
{
    matching.sid.is_some()
        || input.compare != 0
        || matching.object.is_some()
        || matching.inherited.is_some()
        || matching.flags_mask != 0
}

fn kind_if(compared: bool, code: u8) -> Option<Option<AceKind>>
    ensures { result ≡ kind_if compared code }
{
    if compared {
        return Some(Some(AceKind::from_code(code)?));
    }
    if code == 0 { Some(None) } else { None }
}

fn mask_if(compared: bool, mask: u32) -> Option<Option<u32>>
    ensures { result ≡ mask_if compared mask }
{
    if compared {
        return Some(Some(mask));
    }
    if mask == 0 { Some(None) } else { None }
}

#[tactic(auto, unfolding(crate::specs::Input::setting_in))]
fn setting_in(input: &ChangeInput) -> Option<Setting>
    ensures { result ≡ setting_in input.now }
{
    let sid = optional_sid_in(&input.set_sid)?;
    if !is_apart(input) {
        return None;
    }
    Some(Setting {
        sid,
        set_mask: input.set_mask,
        clear_mask: input.clear_mask,
        set_flags: input.set_flags,
        clear_flags: input.clear_flags,
    })
}

// Whether no bit is both set and cleared, and 0x20 is neither.
fn is_apart(input: &ChangeInput) -> bool
    ensures { result ≡ is_apart input.now }
{
    input.set_mask & input.clear_mask == 0
        && input.set_flags & input.clear_flags == 0
        && (input.set_flags | input.clear_flags) & UNUSED_FLAG == 0
}

fn type_in(use_of: u8, bytes: &[u8; 16]) -> Option<Option<Option<Uuid>>>
    ensures { result ≡ type_in use_of bytes.now }
{
    if use_of == TYPE_GIVEN {
        return Some(Some(Some(guid_read(bytes))));
    }
    if !is_zero(bytes) {
        return None;
    }
    match use_of {
        0 => Some(None),
        TYPE_NONE => Some(Some(None)),
        _ => None,
    }
}

fn ace_type_in(use_of: u8, bytes: &[u8; 16]) -> Option<Option<Uuid>>
    ensures { result ≡ ace_type_in use_of bytes.now }
{
    if use_of == TYPE_GIVEN {
        return Some(Some(guid_read(bytes)));
    }
    if use_of == 0 && is_zero(bytes) {
        return Some(None);
    }
    None
}

// The SID at the front, with zeros behind it.
#[tactic(auto, using(sd_call::proofs::laws::SidSizes::sid_fits))]
fn sid_in(bytes: &[u8]) -> Option<Sid>
    ensures { result ≡ sid_in bytes.now }
{
    match Sid::read(bytes) {
        Some((sid, size)) if is_zero(&bytes[size..]) => Some(sid),
        _ => None,
    }
}

// The same, and none where there are zeros alone.
fn optional_sid_in(bytes: &[u8]) -> Option<Option<Sid>>
    ensures { result ≡ optional_sid_in bytes.now }
{
    if is_zero(bytes) {
        return Some(None);
    }
    Some(Some(sid_in(bytes)?))
}
