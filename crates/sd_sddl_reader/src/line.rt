//! What the reader of a line looks for in its bytes, and the states of the reader.

ghost use Rattle.std.specs.Prelude.{◌≡◌, ◌≤◌, ◌<◌, ◌∷◌, ◌++◌, ℕ, List, length, take, slice_index, IfSome, Some, None};
ghost use Rattle.std.specs.Prelude.{true, false};
ghost use Rattle.std.specs.Str.{byte as char};
ghost use Rattle.std.specs.List.{list_all};
ghost use Rattle.sd_sddl_fields.specs.Held.{is_plain_text};
ghost use Rattle.sd_sddl_reader.specs.Inner.Progress.{is_in_field, is_plain_outside, state_of};
ghost use Rattle.sd_sddl_fields.specs.FieldTexts.{is_blank};
ghost use Rattle.sd_sddl_reader.specs.Inner.WholePart.{FrontBefore, HeadAfter, IsBehindBlanks, IsPlainText};
ghost use Rattle.sd_sddl_reader.specs.Inner.WholePart.{SidBefore};
ghost use Rattle.sd_sddl_builder.specs.Line.{head_of};
ghost use Rattle.sd_sddl_reader.specs.Inner.Heads.{have_heads};
ghost use Rattle.sd_sid.specs.Account.{account_sid};
ghost use Rattle.sd_sid.specs.SidText.{known_sid};
ghost use Rattle.sd_text.specs.Limits.{most_field};

use sd_alias::WellKnown;
use sd_parts::{AclFlags, SidPart, Which};
use sd_sddl_builder::{AceField, Head, KeptDomains, front_name};
use sd_sddl_fields::{AclFront, NO_FLAGS, after, is_blank, is_plain_text, plain_text};
use sd_sid::Account;
use sd_text::MOST_FIELD_SIZE;

/// Where in a line the next byte is.
#[derive(Clone, Copy)]
pub enum State {
    /// Before the first head.
    Before,
    /// In the text of an owner or a group.
    Sid(SidPart),
    /// In an ACL, before its first ACE.
    AclFlags(Which),
    /// In an ACL, after an ACE.
    AfterAce,
    /// In a field of an ACE.
    Ace(AceField),
}

/// What a letter announces, in either case. It is read from a table: which of five places a jump goes to is hard to
/// predict.
#[inline(always)]
pub fn head_of(byte: u8) -> Option<Head>
    ensures { result ≡ head_of byte }
{
    head_in(&HEADS, byte)
}

#[inline(always)]
fn head_in(heads: &[Option<Head>; 256], byte: u8) -> Option<Head>
    requires { have_heads heads.now ≡ true }
    ensures { result ≡ head_of byte }
{
    heads[usize::from(byte)]
}

const NONE: Option<Head> = None;

const OWNER: Option<Head> = Some(Head::Sid(SidPart::Owner));

const GROUP: Option<Head> = Some(Head::Sid(SidPart::Group));

const SACL: Option<Head> = Some(Head::Acl(Which::Sacl));

const DACL: Option<Head> = Some(Head::Acl(Which::Dacl));

/// The head of each byte.
static HEADS: [Option<Head>; 256] = [
    NONE, NONE, NONE, NONE, NONE, NONE, NONE, NONE, NONE, NONE, NONE, NONE, NONE, NONE, NONE, NONE,
    NONE, NONE, NONE, NONE, NONE, NONE, NONE, NONE, NONE, NONE, NONE, NONE, NONE, NONE, NONE, NONE,
    NONE, NONE, NONE, NONE, NONE, NONE, NONE, NONE, NONE, NONE, NONE, NONE, NONE, NONE, NONE, NONE,
    NONE, NONE, NONE, NONE, NONE, NONE, NONE, NONE, NONE, NONE, NONE, NONE, NONE, NONE, NONE, NONE,
    NONE, NONE, NONE, NONE, DACL, NONE, NONE, GROUP, NONE, NONE, NONE, NONE, NONE, NONE, NONE,
    OWNER, NONE, NONE, NONE, SACL, NONE, NONE, NONE, NONE, NONE, NONE, NONE, NONE, NONE, NONE,
    NONE, NONE, NONE, NONE, NONE, NONE, DACL, NONE, NONE, GROUP, NONE, NONE, NONE, NONE, NONE,
    NONE, NONE, OWNER, NONE, NONE, NONE, SACL, NONE, NONE, NONE, NONE, NONE, NONE, NONE, NONE,
    NONE, NONE, NONE, NONE, NONE, NONE, NONE, NONE, NONE, NONE, NONE, NONE, NONE, NONE, NONE, NONE,
    NONE, NONE, NONE, NONE, NONE, NONE, NONE, NONE, NONE, NONE, NONE, NONE, NONE, NONE, NONE, NONE,
    NONE, NONE, NONE, NONE, NONE, NONE, NONE, NONE, NONE, NONE, NONE, NONE, NONE, NONE, NONE, NONE,
    NONE, NONE, NONE, NONE, NONE, NONE, NONE, NONE, NONE, NONE, NONE, NONE, NONE, NONE, NONE, NONE,
    NONE, NONE, NONE, NONE, NONE, NONE, NONE, NONE, NONE, NONE, NONE, NONE, NONE, NONE, NONE, NONE,
    NONE, NONE, NONE, NONE, NONE, NONE, NONE, NONE, NONE, NONE, NONE, NONE, NONE, NONE, NONE, NONE,
    NONE, NONE, NONE, NONE, NONE, NONE, NONE, NONE, NONE, NONE, NONE, NONE, NONE, NONE, NONE, NONE,
    NONE, NONE, NONE, NONE, NONE, NONE, NONE, NONE, NONE, NONE, NONE, NONE, NONE, NONE, NONE, NONE,
    NONE, NONE, NONE, NONE,
];

/// Where the part of a head begins.
pub fn state_of(head: Head) -> State
    ensures { result ≡ state_of head }
{
    match head {
        Head::Sid(part) => State::Sid(part),
        Head::Acl(which) => State::AclFlags(which),
    }
}

/// A byte that only goes onto the text of a field outside parentheses.
fn is_plain_outside(byte: u8) -> bool
    ensures { result ≡ is_plain_outside byte }
{
    is_plain_text(byte) && head_of(byte).is_none()
}

/// How many bytes at the front only go onto the text of a field outside parentheses: all up to the first other one.
#[tactic(auto, using(std::proofs::lemmas::List::Folds::list_all_more))]
pub fn plain_outside(text: &[u8]) -> usize
    ensures within { result ≤ length text.now }
    ensures plain { list_all is_plain_outside (take result text.now) ≡ true }
    ensures ends { result < length text.now → is_plain_outside (slice_index text.now result) ≡ false }
{
    for (i, byte) in text.iter().enumerate() {
        if !is_plain_outside(*byte) {
            return i;
        }
    }
    text.len()
}

/// The letter and the head at the front of a text, and what follows its colon. `None` if no head is there.
pub fn front_head(text: &[u8]) -> Option<(u8, Head, &[u8])>
    ensures found { IfSome result (λ r. (head_of r.0 ≡ Some r.1) × (text.now ≡ r.0 ∷ char ":" ∷ r.2.now)) }
    ensures only { (letter : ℕ) (rest : List ℕ) → result ≡ None → text.now ≡ letter ∷ char ":" ∷ rest
        → head_of letter ≡ None }
{
    if text.len() < 2 || text[1] != b':' {
        return None;
    }
    let head = head_of(text[0])?;
    Some((text[0], head, &text[2..]))
}

/// How many bytes at the front are blanks.
#[tactic(auto, using(std::proofs::lemmas::List::Folds::list_all_more))]
#[inline(always)]
pub fn blanks(text: &[u8]) -> usize
    ensures within { result ≤ length text.now }
    ensures blank { list_all is_blank (take result text.now) ≡ true }
    ensures ends { result < length text.now → is_blank (slice_index text.now result) ≡ false }
{
    for (i, byte) in text.iter().enumerate() {
        if !is_blank(*byte) {
            return i;
        }
    }
    text.len()
}

/// A byte inside parentheses that ends no field.
fn is_in_field(byte: u8) -> bool
    ensures { result ≡ is_in_field byte }
{
    byte != b'(' && byte != b')' && byte != b';'
}

/// How many bytes at the front are in one field, for a text inside parentheses: all up to the first that ends it.
#[tactic(auto, using(std::proofs::lemmas::List::Folds::list_all_more))]
#[inline(always)]
pub fn in_field(text: &[u8]) -> usize
    ensures within { result ≤ length text.now }
    ensures inside { list_all is_in_field (take result text.now) ≡ true }
    ensures ends { result < length text.now → is_in_field (slice_index text.now result) ≡ false }
{
    for (i, byte) in text.iter().enumerate() {
        if !is_in_field(*byte) {
            return i;
        }
    }
    text.len()
}

/// What follows the blanks at the front of a text.
#[inline(always)]
pub fn behind_blanks(text: &[u8]) -> &[u8]
    ensures { IsBehindBlanks result.now text.now }
{
    &text[blanks(text)..]
}

// How many bytes at the front are plain, as far as a field may go and one byte more. So a look at what may be a whole
// field takes no longer for a longer line.
fn plain_front(text: &[u8]) -> usize
    ensures within { result ≤ length text.now }
    ensures plain { list_all is_plain_text (take result text.now) ≡ true }
    ensures ends { result < length text.now → result ≤ most_field
        → is_plain_text (slice_index text.now result) ≡ false }
{
    if text.len() > MOST_FIELD_SIZE {
        plain_text(&text[..MOST_FIELD_SIZE + 1])
    } else {
        plain_text(text)
    }
}

/// The text of an owner or a group at the front of a text, the head that ends it, and what follows its colon. `None`
/// if no such head is there, or if the text exceeds a field.
pub fn next_head(text: &[u8]) -> Option<(&[u8], Head, &[u8])>
    ensures found { IfSome result (λ r. HeadAfter r.0.now r.1 r.2.now text.now) }
    ensures only { (field : List ℕ) (head : Head) (rest : List ℕ) → result ≡ None
        → HeadAfter field head rest text.now → length field ≡ most_field }
{
    let end = plain_front(text);
    if end == 0 || end > MOST_FIELD_SIZE || end >= text.len() || text[end] != b':' {
        return None;
    }
    let head = head_of(text[end - 1])?;
    Some((&text[..end - 1], head, &text[end + 1..]))
}

/// The account of an owner or a group at the front of a text, the head behind it, and what follows its colon. Blanks
/// may stand before the head. Where it is `None`, `next_head` decides. A domain that is kept is not read again.
#[inline(always)]
pub fn next_account<'a>(text: &'a [u8], kept: &KeptDomains) -> Option<(Account, Head, &'a [u8])>
    ensures { IfSome result (λ r. SidBefore (account_sid r.0) r.1 r.2.now text.now) }
{
    let (account, _, behind) = kept.front_account(text)?;
    let (_, head, rest) = front_head(behind_blanks(behind))?;
    Some((account, head, rest))
}

/// The SID that two letters at the front of a text name everywhere, the head behind them, and what follows its colon.
/// Blanks may stand before the head. Where it is `None`, `next_head` decides.
#[inline(always)]
pub fn next_named(text: &[u8]) -> Option<(&'static WellKnown, Head, &[u8])>
    ensures found { IfSome result (λ r. SidBefore (known_sid r.0.now) r.1 r.2.now text.now) }
    ensures count { IfSome result (λ r. r.0.now.count ≤ 6) }
{
    let (name, end) = front_name(text)?;
    let (_, head, rest) = front_head(behind_blanks(end))?;
    Some((name, head, rest))
}

/// The flags of an ACL at the front of a text, if they are those that most ACLs have, and what follows the parenthesis
/// that ends them. Where it is `None`, `first_parenthesis` decides.
#[inline(always)]
pub fn usual_front(text: &[u8]) -> Option<(AclFront, &[u8])>
    ensures { IfSome result (λ r. FrontBefore r.0 r.1.now text.now) }
{
    if let Some(rest) = after(text, b"AI(") {
        return Some((list(INHERITED), rest));
    }
    if let Some(rest) = after(text, b"PAI(") {
        return Some((list(PROTECTED_AND_INHERITED), rest));
    }
    if let Some(rest) = after(text, b"P(") {
        return Some((list(PROTECTED), rest));
    }
    let rest = after(text, b"(")?;
    Some((list(NO_FLAGS), rest))
}

const INHERITED: AclFlags = AclFlags {
    auto_inherited: true,
    ..NO_FLAGS
};

const PROTECTED: AclFlags = AclFlags {
    protected: true,
    ..NO_FLAGS
};

const PROTECTED_AND_INHERITED: AclFlags = AclFlags {
    protected: true,
    ..INHERITED
};

// The flags of an ACL that is not null.
fn list(flags: AclFlags) -> AclFront
    ensures { result ≡ record { flags = flags; null = false } }
{
    AclFront { flags, null: false }
}

/// The flags of an ACL at the front of a text, and what follows the parenthesis that ends them. `None` if no such
/// parenthesis is there, or if the flags exceed a field.
pub fn first_parenthesis(text: &[u8]) -> Option<(&[u8], &[u8])>
    ensures found { IfSome result (λ r. IsPlainText r.0.now × (text.now ≡ r.0.now ++ char "(" ∷ r.1.now)) }
    ensures only { (field rest : List ℕ) → result ≡ None → IsPlainText field → text.now ≡ field ++ char "(" ∷ rest → ⊥ }
{
    let end = plain_front(text);
    if end > MOST_FIELD_SIZE || end >= text.len() || text[end] != b'(' {
        return None;
    }
    Some((&text[..end], &text[end + 1..]))
}
