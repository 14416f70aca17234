//! Why each right is granted or denied.

ghost use Rattle.std.specs.Prelude.{◌≡◌, ◌<◌, ◌+◌, ◌^◌, ◌&&◌, ℕ, Some, if◌then◌else◌, length, slice_get};
ghost use Rattle.std.specs.List.{position};
ghost use Rattle.sd_rights.specs.Mapping.{carries};
ghost use Rattle.sd_token.specs.Token.{Asks, Compares};
ghost use Rattle.sd_check.specs.Acl.{listed_aces};
ghost use Rattle.sd_check.specs.Applies.{is_allow};
ghost use Rattle.sd_check.specs.Granted.{decides, granted};
ghost use Rattle.sd_check.specs.Label.{is_mandatory_label};
ghost use Rattle.sd_check.specs.Need.{check_bound};
ghost use Rattle.sd_check.specs.Reasons.{NamesAce, by_first, grants, label_place, reason_of, reasons, reasons_need};
ghost use Rattle.sd_check.specs.Inner.Scan.{scan_need};
ghost use Rattle.sd_check.specs.declared.reason.Reason.{Reason};
ghost use Rattle.sd_check.specs.declared.reason.Reason.TheVariants as reason_is;

use crate::applies::is_allow;
use crate::ask::Ask;
use crate::grants::{granted_without_ace, is_open};
use crate::label::{is_mandatory_label, permitted};
use crate::scan::decided;
use crate::verdict::undecided;
use sd_acl_view::AclView;
use sd_kinds::AceKind;
use sd_rights::{
    ACCESS_SYSTEM_SECURITY, BELOW_SYSTEM_SECURITY, READ_CONTROL, WRITE_DAC, WRITE_OWNER, mask_if,
};
use sd_token::{Memory, TokenIn};
use sd_view::{AclPart, SdView};

/// Why a right is granted or denied. A place counts from 0, among all ACEs of its ACL.
#[derive(Clone, Copy, Debug, PartialEq, Eq)]
pub enum Reason {
    /// Denied: nothing grants it.
    Nothing,
    /// Denied by the mandatory label, whatever else would grant it: by the ACE at this place of the SACL, or by the
    /// label of an object without one.
    Label(Option<u16>),
    /// Granted, since the DACL is null or absent.
    NoDacl,
    /// Granted to the owner.
    Owner,
    /// Granted by a privilege.
    Privilege,
    /// Granted by the ACE at this place of the DACL, the first that applies and has the right.
    Granted(u16),
    /// Denied by the ACE at this place of the DACL, the first that applies and has the right.
    Denied(u16),
}

/// Why each right is granted or denied, at its place in a mask. It does not matter which rights are wanted.
///
/// The token's entries are compared with the owner, unless the DACL is null or absent, and then with the ACEs in one
/// walk, only until each right has a reason. The first mandatory label and the ACEs for OWNER RIGHTS are looked for
/// without the token.
///
/// ```
/// let held = Privileges { security: false, take_ownership: false };
/// let ask = Ask::new(0, true, Mapping::FILE, None, None, held).expect(&rt, "rights");
/// let mut token = Token::new(rt.alloc()).expect(&rt, "memory");
/// let users = Sid::from_text(b"BU", None).expect(&rt, "a SID");
/// let _ = token.add(users, EntryKind::Enabled);
/// let mut buf = SdBuf::new(rt.alloc()).expect(&rt, "memory");
/// assert!(rt; read_sddl(b"D:(A;;FX;;;BA)(D;;WD;;;BU)(A;;FR;;;BU)", None, &mut buf) == Ok(()));
/// let view = read(buf.bytes()).expect(&rt, "a descriptor");
/// let reasons = reasons(&view, &mut token, &ask);
/// assert!(rt; reasons[0] == Reason::Granted(2));
/// assert!(rt; reasons[1] == Reason::Nothing);
/// assert!(rt; reasons[18] == Reason::Denied(1));
/// ```
pub fn reasons<M: Memory>(view: &SdView, token: &mut TokenIn<M>, ask: &Ask) -> [Reason; 25]
    ensures reasons { result ≡ reasons view.now token.old.holder ask.now }
    // A check grants exactly the rights whose reason grants.
    ensures granted { (right : ℕ) → right < 25 → grants (reason_of right view.now token.old.holder ask.now)
        ≡ granted right view.now token.old.holder ask.now }
    ensures aces { (right : ℕ) → right < 25 → NamesAce right view.now token.old.holder ask.now
        (reason_of right view.now token.old.holder ask.now) }
    // Each entry is compared at most once with the owner, and at most once for each ACE that is needed.
    ensures asks { Asks token.old token.new (reasons_need view.now token.old.holder ask.now + 1) }
    ensures bound { Compares token.old token.new (check_bound view.now (length token.old.holder.entries)) }
{
    let permitted = permitted(view, token, ask);
    let without_ace = granted_without_ace(view, token, ask, BELOW_SYSTEM_SECURITY);
    let undecided = undecided(BELOW_SYSTEM_SECURITY & permitted, without_ace);
    let mut reasons = reasons_by_aces(view, token, ask, undecided);
    give(
        &mut reasons,
        without_ace & (READ_CONTROL | WRITE_DAC),
        Reason::Owner,
    );
    give(
        &mut reasons,
        without_ace & (WRITE_OWNER | ACCESS_SYSTEM_SECURITY),
        Reason::Privilege,
    );
    give(
        &mut reasons,
        mask_if(is_open(view), BELOW_SYSTEM_SECURITY),
        Reason::NoDacl,
    );
    give_label(&mut reasons, view, BELOW_SYSTEM_SECURITY & !permitted);
    reasons
}

// The label is why these rights are denied.
fn give_label(reasons: &mut [Reason; 25], view: &SdView, refused: u32)
    requires { refused < 2 ^ 25 }
    ensures { (right : ℕ) (reason : Reason) → slice_get reasons.old right ≡ Some reason → slice_get reasons.new right
        ≡ Some (if carries refused right then reason_is.Label (label_place view.now) else reason) }
{
    if refused != 0 {
        give(reasons, refused, Reason::Label(label_place(view)));
    }
}

// Gives each right of a mask this reason.
fn give(reasons: &mut [Reason; 25], rights: u32, reason: Reason)
    requires { rights < 2 ^ 25 }
    ensures { (right : ℕ) (other : Reason) → slice_get reasons.old right ≡ Some other → slice_get reasons.new right
        ≡ Some (if carries rights right then reason else other) }
{
    let mut left = rights;
    while left != 0 {
        let right = left.trailing_zeros();
        reasons[right as usize] = reason;
        left &= !(1 << right);
    }
}

// The place of the first label among the ACEs of the SACL.
fn label_place(view: &SdView) -> Option<u16>
    ensures { result ≡ label_place view.now }
{
    match view.sacl() {
        AclPart::List(acl) => first_label_place(&acl),
        AclPart::Absent | AclPart::Null => None,
    }
}

fn first_label_place(acl: &AclView) -> Option<u16>
    ensures { result ≡ position is_mandatory_label acl.now }
{
    let mut place = 0;
    for ace in acl.aces() {
        if is_mandatory_label(&ace) {
            return Some(place);
        }
        place += 1;
    }
    None
}

// What the ACEs say of the rights of a mask. No other right has a reason yet.
fn reasons_by_aces<M: Memory>(
    view: &SdView,
    token: &mut TokenIn<M>,
    ask: &Ask,
    question: u32,
) -> [Reason; 25]
    requires { question < 2 ^ 25 }
    ensures reasons { (right : ℕ) → right < 25 → slice_get result right ≡ Some (if carries question right
        then by_first (decides right view.now token.old.holder.entries ask.now) (listed_aces view.now.dacl)
        else reason_is.Nothing) }
    ensures asks { Asks token.old token.new
        (scan_need question view.now token.old.holder.entries ask.now (listed_aces view.now.dacl)) }
{
    match view.dacl() {
        AclPart::List(acl) => scan_for_reasons(&acl, view, token, ask, question),
        AclPart::Absent | AclPart::Null => [Reason::Nothing; 25],
    }
}

// An ACE decides the rights that none before it did; where no right is left, no further ACE is looked at.
fn scan_for_reasons<M: Memory>(
    acl: &AclView,
    view: &SdView,
    token: &mut TokenIn<M>,
    ask: &Ask,
    question: u32,
) -> [Reason; 25]
    requires { question < 2 ^ 25 }
    ensures reasons { (right : ℕ) → right < 25 → slice_get result right ≡ Some (if carries question right
        then by_first (decides right view.now token.old.holder.entries ask.now) acl.now else reason_is.Nothing) }
    ensures asks { Asks token.old token.new (scan_need question view.now token.old.holder.entries ask.now acl.now) }
{
    let mut undecided = question;
    let mut reasons = [Reason::Nothing; 25];
    let mut place = 0;
    for ace in acl.aces() {
        if undecided == 0 {
            return reasons;
        }
        let decided = decided(&ace, view, token, ask, undecided);
        give(&mut reasons, decided, reason_at(ace.kind(), place));
        undecided &= !decided;
        place += 1;
    }
    reasons
}

// What an ACE of this kind at this place says of the rights that it decides.
fn reason_at(kind: AceKind, place: u16) -> Reason
    ensures { result ≡ if is_allow kind then reason_is.Granted place else reason_is.Denied place }
{
    if is_allow(kind) {
        Reason::Granted(place)
    } else {
        Reason::Denied(place)
    }
}
