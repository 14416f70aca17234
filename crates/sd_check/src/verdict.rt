//! The verdict of a check.

ghost use Rattle.std.specs.Prelude.{◌≡◌, ◌≤◌, ◌+◌, ◌*◌, ◌^◌, ◌-◌, bit_and, bit_or, false, length};
ghost use Rattle.sd_rights.specs.Mapping.{mask_if as mask_if_of};
ghost use Rattle.sd_token.specs.Token.{Asks, Compares};
ghost use Rattle.sd_rights.specs.AccessRights.{system_security_mask};
ghost use Rattle.sd_check.specs.Ask.{AreRights};
ghost use Rattle.sd_check.specs.Need.{check_bound, need, owner_matters};
ghost use Rattle.sd_check.specs.Inner.Scan.{HasGranted, question_of};
ghost use Rattle.sd_check.specs.Verdict.{verdict};

use crate::ask::Ask;
use crate::grants::granted_without_ace;
use crate::label::permitted;
use crate::scan::scan;
use sd_rights::{ACCESS_SYSTEM_SECURITY, mask_if};
use sd_token::{Memory, TokenIn};
use sd_view::SdView;

/// What a check answers.
#[derive(Clone, Copy, Debug, PartialEq, Eq)]
pub enum Verdict {
    /// Each wanted right is granted. The mask has the wanted rights and, with maximum, each right of the
    /// mapping that is granted; it is not 0.
    Granted(u32),
    /// The wanted rights that are not granted; or 0, where none was wanted and the maximum is no right.
    Denied(u32),
}

/// Whether the descriptor grants what is asked to the token (MS-DTYP 2.5.3).
///
/// If the token has an integrity level, the first mandatory label of the SACL is found first. It may leave a token of
/// lower level only some rights, whatever grants the others. If READ_CONTROL or WRITE_DAC is in question and the DACL
/// is neither null nor absent, the token's entries are compared with the owner. If one of them is the owner, the DACL
/// is also searched for an ACE for OWNER RIGHTS. Then the ACEs are walked once for the rights in question that the
/// label leaves, and only until each of them is decided.
///
/// ```
/// let held = Privileges { security: false, take_ownership: true };
/// let ask = Ask::new(WRITE_OWNER, false, Mapping::FILE, None, None, held).expect(&rt, "rights");
/// let mut token = Token::new(rt.alloc()).expect(&rt, "memory");
/// let mut buf = SdBuf::new(rt.alloc()).expect(&rt, "memory");
/// assert!(rt; read_sddl(b"D:", None, &mut buf) == Ok(()));
/// let view = read(buf.bytes()).expect(&rt, "a descriptor");
/// assert!(rt; check(&view, &mut token, &ask) == Verdict::Granted(WRITE_OWNER));
/// ```
pub fn check<M: Memory>(view: &SdView, token: &mut TokenIn<M>, ask: &Ask) -> Verdict
    ensures verdict { result ≡ verdict view.now token.old.holder ask.now }
    // Each entry is compared at most once with the owner, and at most once for each ACE that is needed.
    ensures asks { Asks token.old token.new (need view.now token.old.holder.entries ask.now + 1) }
    // Where it does not matter who the owner is, no entry is compared with it.
    ensures spared { owner_matters view.now ask.now ≡ false → token.new.compared
        ≤ token.old.compared + need view.now token.old.holder.entries ask.now * length token.old.holder.entries }
    ensures bound { Compares token.old token.new (check_bound view.now (length token.old.holder.entries)) }
{
    let granted = granted(view, token, ask);
    let missing = ask.wanted() & !granted;
    if missing != 0 {
        return Verdict::Denied(missing);
    }
    let won = ask.wanted() | (pool(ask) & granted);
    if won == 0 {
        return Verdict::Denied(0);
    }
    Verdict::Granted(won)
}

// A mask that has those rights in question that are granted.
fn granted<M: Memory>(view: &SdView, token: &mut TokenIn<M>, ask: &Ask) -> u32
    ensures rights { HasGranted view.now token.old.holder ask.now result }
    ensures asks { Asks token.old token.new (need view.now token.old.holder.entries ask.now + 1) }
    ensures spared { owner_matters view.now ask.now ≡ false → token.new.compared
        ≤ token.old.compared + need view.now token.old.holder.entries ask.now * length token.old.holder.entries }
{
    let question = question(ask);
    let permitted = permitted(view, token, ask);
    let without_ace = granted_without_ace(view, token, ask, question);
    // A right that needs no ACE is never looked for in the ACEs, not even where the label does not allow it.
    let undecided = undecided(question & permitted, without_ace);
    (without_ace | scan(view, token, ask, undecided)) & permitted
}

// The rights in question: those that are wanted and, with maximum, those of the mapping.
fn question(ask: &Ask) -> u32
    ensures value { result ≡ question_of ask.now }
    ensures limits { AreRights ask.now }
{
    ask.wanted() | pool(ask)
}

// Those of the rights in question that the ACEs alone can decide.
pub(crate) fn undecided(question: u32, without_ace: u32) -> u32
    ensures { result ≡ bit_and question (2 ^ 32 - 1 - bit_or without_ace system_security_mask) }
{
    question & !(without_ace | ACCESS_SYSTEM_SECURITY)
}

// The rights that the maximum is made from.
fn pool(ask: &Ask) -> u32
    ensures { result ≡ mask_if_of ask.now.maximum ask.now.mapping.all }
{
    mask_if(ask.maximum(), ask.mapping().all())
}
