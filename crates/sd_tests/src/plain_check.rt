//! The access check as its definition tells it (MS-DTYP 2.5.3.2): each right by itself, over the whole DACL. It is
//! slow, and stands beside `check` in the tests alone.

ghost use Rattle.std.specs.Prelude.{◌<◌};

use sd_access::{Privileges, Verdict};
use sd_binary::{AceView, AclPart, AclView, SdView};
use sd_core::{AceKind, EntryKind, Mapping, Sid};
use uuid::Uuid;

const READ_CONTROL: u32 = 17;

const WRITE_DAC: u32 = 18;

const WRITE_OWNER: u32 = 19;

const ACCESS_SYSTEM_SECURITY: u32 = 24;

const MAXIMUM_ALLOWED: u32 = 0x200_0000;

/// Who asks, and for what.
#[derive(Clone, Copy)]
pub struct Question<'a> {
    pub entries: &'a [(Sid, EntryKind)],
    pub desired: u32,
    pub maximum: bool,
    pub mapping: Mapping,
    pub object: Option<Uuid>,
    pub principal_self: Option<Sid>,
    pub privileges: Privileges,
    pub level: Option<u32>,
}

impl<'a> Question<'a> {
    // Whether an entry has the SID: an enabled one, or any where the ACE denies.
    fn has(&self, sid: Sid, denies: bool) -> bool {
        let mut entries = self.entries.iter();
        entries.any(|(held, kind)| *held == sid && (denies || *kind == EntryKind::Enabled))
    }

    fn applies(&self, view: &SdView, ace: &AceView) -> bool {
        let sid = ace.sid();
        let subject = if Sid::new(5, &[10]) == Some(sid) {
            Some(self.principal_self.unwrap_or(sid))
        } else if Sid::new(3, &[4]) == Some(sid) {
            view.owner()
        } else {
            Some(sid)
        };
        is_for_access(ace)
            && (ace.object().is_none() || ace.object() == self.object)
            && subject.is_some_and(|subject| self.has(subject, !allows(ace)))
    }

    fn decides(&self, view: &SdView, ace: &AceView, right: u32) -> bool
        requires { right < 32 }
    {
        self.applies(view, ace) && self.mapping.map(ace.mask()) >> right & 1 == 1
    }

    fn needs_no_ace(&self, view: &SdView, right: u32) -> bool {
        let is_owned = view.owner().is_some_and(|owner| self.has(owner, false));
        let (is_open, is_the_owners) = match view.dacl() {
            AclPart::Absent | AclPart::Null => (true, is_owned),
            AclPart::List(acl) => (false, is_owned && !names_owner_rights(&acl)),
        };
        is_open
            || (right == READ_CONTROL || right == WRITE_DAC) && is_the_owners
            || right == WRITE_OWNER && self.privileges.take_ownership
    }

    // Whether the object's label leaves the right to the token (MS-DTYP 2.5.3.3).
    fn is_left(&self, view: &SdView, right: u32) -> bool
        requires { right < 32 }
    {
        let (level, policy) = label_of(view);
        let mut left = 0;
        if policy & 1 == 0 {
            left |= self.mapping.write();
        }
        if policy & 2 == 0 {
            left |= self.mapping.read();
        }
        if policy & 4 == 0 {
            left |= self.mapping.execute();
        }
        let is_lower = self.level.is_some_and(|held| held < level);
        !is_lower || left >> right & 1 == 1
    }

    // Whether the right is granted, and how many first ACEs of the DACL have to be looked at for it.
    fn answer(&self, view: &SdView, right: u32) -> (bool, u64)
        requires { right < 32 }
    {
        if right == ACCESS_SYSTEM_SECURITY || self.needs_no_ace(view, right) {
            let granted = right != ACCESS_SYSTEM_SECURITY || self.privileges.security;
            return (granted, 0);
        }
        let mut place: u64 = 0;
        if let AclPart::List(acl) = view.dacl() {
            for ace in acl.aces() {
                place = place.saturating_add(1);
                if self.decides(view, &ace, right) {
                    return (allows(&ace), place);
                }
            }
        }
        (false, place)
    }

    /// The verdict, and how many first ACEs of the DACL decide all that only they can decide.
    pub fn verdict(&self, view: &SdView) -> (Verdict, u64) {
        let wanted = self.mapping.map(self.desired) & !MAXIMUM_ALLOWED;
        // The rights that the maximum is made from.
        let pool = if self.maximum || self.desired & MAXIMUM_ALLOWED != 0 {
            self.mapping.all()
        } else {
            0
        };
        let (mut missing, mut won, mut need) = (0, wanted, 0);
        for right in 0..25 {
            let bit = 1 << right;
            let (granted, place) = self.answer(view, right);
            let is_limited = right != ACCESS_SYSTEM_SECURITY && !self.is_left(view, right);
            if !granted || is_limited {
                missing |= wanted & bit;
            } else {
                won |= pool & bit;
            }
            if (wanted | pool) & bit != 0 {
                need = place.max(need);
            }
        }
        if missing == 0 && won != 0 {
            (Verdict::Granted(won), need)
        } else {
            (Verdict::Denied(missing), need)
        }
    }
}

// The level and the policy of the object's label: those of the first ACE of the SACL that is a label for the object
// itself and names one level (MS-DTYP 2.4.4.13), else medium and no write up.
fn label_of(view: &SdView) -> (u32, u32) {
    if let AclPart::List(acl) = view.sacl() {
        for ace in acl.aces() {
            let sid = ace.sid();
            if ace.kind() == AceKind::Label && ace.flags() & 0x8 == 0 && sid.authority() == 16 {
                if sid.subs().len() == 1 {
                    return (sid.subs().first().copied().unwrap_or(0), ace.mask() & 7);
                }
            }
        }
    }
    (8192, 1)
}

fn allows(ace: &AceView) -> bool {
    ace.kind() == AceKind::Allow || ace.kind() == AceKind::ObjectAllow
}

// Whether it allows or denies, and is not for heirs alone.
fn is_for_access(ace: &AceView) -> bool {
    let denies = ace.kind() == AceKind::Deny || ace.kind() == AceKind::ObjectDeny;
    (allows(ace) || denies) && ace.flags() & 0x8 == 0
}

// Whether an ACE says what an owner may do.
fn names_owner_rights(acl: &AclView) -> bool {
    let mut aces = acl.aces();
    aces.any(|ace| is_for_access(&ace) && Sid::new(3, &[4]) == Some(ace.sid()))
}
