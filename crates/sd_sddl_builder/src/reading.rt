//! The fields of a line, read one after the other.

ghost use Rattle.std.specs.Prelude.{◌≡◌, Option, Ok, None, false, MatchOption};
ghost use Rattle.sd_builder.specs.Trustee.{IsTrustee, trustee_sid};
ghost use Rattle.sd_sid.specs.SidText.{sid_reads};
ghost use Rattle.sd_sddl_builder.specs.FoldedReading.{FieldsRead, fault_of, plain_fields, no_fields, take_ace_field};
ghost use Rattle.sd_sddl_builder.specs.FoldedReading.{take_field, take_front, with_sid, with_trustee};
ghost use Rattle.sd_sddl_builder.specs.Meaning.{control_flags, is_unreadable};
ghost use Rattle.sd_sddl_fields.specs.FieldTexts.{front_reads};
ghost use Rattle.sd_sddl_builder.specs.Inner.AceEnds.{EndsAce, EndsWithObjects};
ghost use Rattle.sd_sddl_builder.specs.WholeAce.{TakesAce};

use crate::fault::SddlFault;
use crate::kept::KeptDomains;
use crate::name::front_name;
use crate::slot::{AceField, Slot};
use sd_ace::{AceFields, AceHead, AceParts};
use sd_buffer::SdBuf;
use sd_builder::{Builder, Trustee};
use sd_kinds::{AceKind, flags_from_text};
use sd_parts::{AclFlags, SidPart, Which};
use sd_rights::rights_from_text;
use sd_sddl_fields::{
    AclFront, NO_FLAGS, after, behind, front_flags, front_from_text, front_kind, front_objects,
    front_rights, object_from_text,
};
use sd_sid::{Sid, SidFault};

/// Reads fields, and builds the descriptor in a buffer beside it.
#[derive(Drop)]
pub struct FieldReader {
    /// The domain under which aliases read.
    pub domain: Option<Sid>,
    builder: Builder,
    open_acl: Option<Which>,
    sacl: AclFlags,
    dacl: AclFlags,
    ace: AceFields,
    large: Option<Which>,
    /// The domains of accounts that were read, in this line and those before it.
    pub kept: KeptDomains,
}

impl FieldReader {
    ghost use Rattle.std.specs.Prelude.{◌≡◌, Ok, Err, Some, None, Option};
    ghost use Rattle.sd_builder.specs.Draft.{IsOpen, closed};
    ghost use Rattle.sd_sddl_builder.specs.declared.slot.Head.TheVariants as head;
    ghost use Rattle.sd_sddl_builder.specs.FoldedReading.{FieldsRead, begun_or_null, finished, nothing_read};
    ghost use Rattle.sd_sddl_builder.specs.FoldedReading.{with_flags, with_owner_or_group};
    ghost use Rattle.sd_sddl_builder.specs.FieldReading.{AreAceFields, CanTake, Ends, HasReadFields, Lacks, Takes};

    /// A reader that has read nothing.
    pub fn new(domain: Option<Sid>, buf: &mut SdBuf) -> FieldReader
        ensures held { HasReadFields result buf.new nothing_read }
        ensures domain { result.domain ≡ domain }
    {
        FieldReader {
            domain,
            builder: Builder::new(buf),
            open_acl: None,
            sacl: NO_FLAGS,
            dacl: NO_FLAGS,
            ace: no_fields(AceKind::Allow),
            large: None,
            kept: KeptDomains::none(),
        }
    }

    /// Begins another line, as a reader of this domain that has read nothing.
    pub fn restart(&mut self, domain: Option<Sid>, buf: &mut SdBuf)
        ensures held { HasReadFields self.new buf.new nothing_read }
        ensures domain { self.new.domain ≡ domain }
    {
        self.domain = domain;
        self.builder = Builder::new(buf);
        self.open_acl = None;
        self.sacl = NO_FLAGS;
        self.dacl = NO_FLAGS;
        self.ace = no_fields(AceKind::Allow);
        self.large = None;
    }

    /// Reads a field whose text has no blank and at most 183 bytes.
    #[inline(always)]
    #[tactic(auto, unfolding(crate::specs::FoldedReading::take_field))]
    pub fn take_readable(
        &mut self,
        buf: &mut SdBuf,
        slot: Slot,
        text: &[u8],
    ) -> Result<(), SddlFault>
        requires clean { is_unreadable text.now ≡ false }
        requires held { (t : FieldsRead) × HasReadFields self.old buf.old t × CanTake slot t }
        ensures read { (t : FieldsRead) → HasReadFields self.old buf.old t
            → Takes (take_field self.old.domain t slot text.now) result self.new buf.new }
        ensures domain { self.new.domain ≡ self.old.domain }
    {
        match slot {
            Slot::Sid(part) => self.take_sid(buf, part, text),
            Slot::AclFlags(which, has_aces) => self.take_front(buf, which, has_aces, text),
            Slot::Ace(field) => self.take_ace_field(buf, field, text),
        }
    }

    // An owner or a group.
    fn take_sid(&mut self, buf: &mut SdBuf, part: SidPart, text: &[u8]) -> Result<(), SddlFault>
        requires { (t : FieldsRead) × HasReadFields self.old buf.old t × Lacks (head.Sid part) t }
        ensures read { (t : FieldsRead) → HasReadFields self.old buf.old t
            → Takes (with_sid (with_owner_or_group part t) (sid_reads text.now self.old.domain))
            result self.new buf.new }
        ensures domain { self.new.domain ≡ self.old.domain }
    {
        match Sid::from_text(text, self.domain.as_ref()) {
            Ok(sid) => {
                self.put_sid(buf, part, Trustee::Sid(&sid));
                Ok(())
            }
            Err(fault) => Err(SddlFault::Sid(fault)),
        }
    }

    /// Takes the SID of an owner or a group. Inlined, so that the numbers of an account are not kept in a SID on their
    /// way.
    #[inline(always)]
    pub fn put_sid(&mut self, buf: &mut SdBuf, part: SidPart, trustee: Trustee<'_>)
        requires trustee { IsTrustee trustee }
        requires held { (t : FieldsRead) × HasReadFields self.old buf.old t × Lacks (head.Sid part) t }
        ensures held { (t : FieldsRead) → HasReadFields self.old buf.old t
            → HasReadFields self.new buf.new (with_owner_or_group part t (trustee_sid trustee.entry)) }
        ensures domain { self.new.domain ≡ self.old.domain }
    {
        self.close_acl(buf);
        if self.large.is_none() {
            self.builder.sid(buf, part, trustee);
        }
    }

    // Ends the ACL at hand, where one is open.
    fn close_acl(&mut self, buf: &mut SdBuf)
        requires { (t : FieldsRead) × HasReadFields self.old buf.old t }
        ensures held { (t : FieldsRead) → HasReadFields self.old buf.old t
            → HasReadFields self.new buf.new (record t { parts = closed t.parts }) }
        ensures same { self.new ≡ record self.old { builder = self.new.builder; open_acl = self.new.open_acl } }
    {
        if self.large.is_none() && self.open_acl.is_some() {
            self.builder.end_acl(buf);
        }
        self.open_acl = None;
    }

    // The text of an ACL before its ACEs.
    #[tactic(auto, unfolding(crate::specs::FoldedReading::take_front))]
    fn take_front(
        &mut self,
        buf: &mut SdBuf,
        which: Which,
        has_aces: bool,
        text: &[u8],
    ) -> Result<(), SddlFault>
        requires { (t : FieldsRead) × HasReadFields self.old buf.old t × Lacks (head.Acl which) t }
        ensures read { (t : FieldsRead) → HasReadFields self.old buf.old t
            → Takes (take_front which has_aces t (front_reads text.now)) result self.new buf.new }
        ensures domain { self.new.domain ≡ self.old.domain }
    {
        let Some(front) = front_from_text(text) else {
            return Err(SddlFault::Flags);
        };
        if front.null && has_aces {
            return Err(SddlFault::Flags);
        }
        self.put_front(buf, which, front);
        Ok(())
    }

    /// Begins an ACL with these flags, or takes one that is null.
    pub fn put_front(&mut self, buf: &mut SdBuf, which: Which, front: AclFront)
        requires { (t : FieldsRead) × HasReadFields self.old buf.old t × Lacks (head.Acl which) t }
        ensures held { (t : FieldsRead) → HasReadFields self.old buf.old t → HasReadFields self.new buf.new
            (with_flags which front.flags (record t { parts = begun_or_null which front.null (closed t.parts) })) }
        ensures domain { self.new.domain ≡ self.old.domain }
    {
        self.begin_acl(buf, which, front.null);
        match which {
            Which::Sacl => self.sacl = front.flags,
            Which::Dacl => self.dacl = front.flags,
        }
    }

    fn begin_acl(&mut self, buf: &mut SdBuf, which: Which, null: bool)
        requires { (t : FieldsRead) × HasReadFields self.old buf.old t × Lacks (head.Acl which) t }
        ensures held { (t : FieldsRead) → HasReadFields self.old buf.old t
            → HasReadFields self.new buf.new (record t { parts = begun_or_null which null (closed t.parts) }) }
        ensures domain { self.new.domain ≡ self.old.domain }
    {
        self.close_acl(buf);
        if self.large.is_some() {
            return;
        }
        if null {
            self.builder.null_acl(buf, which);
        } else {
            self.builder.begin_acl(buf, which);
            self.open_acl = Some(which);
        }
    }

    // A field of the ACE at hand.
    #[tactic(auto, unfolding(crate::specs::FoldedReading::take_ace_field))]
    fn take_ace_field(
        &mut self,
        buf: &mut SdBuf,
        field: AceField,
        text: &[u8],
    ) -> Result<(), SddlFault>
        requires { (t : FieldsRead) × HasReadFields self.old buf.old t × IsOpen t.parts }
        ensures read { (t : FieldsRead) → HasReadFields self.old buf.old t
            → Takes (take_ace_field self.old.domain t field text.now) result self.new buf.new }
        ensures domain { self.new.domain ≡ self.old.domain }
    {
        match field {
            AceField::Kind => {
                let Some(kind) = AceKind::from_text(text) else {
                    return Err(SddlFault::Kind);
                };
                self.ace = no_fields(kind);
            }
            AceField::Flags => {
                let Some(flags) = flags_from_text(text) else {
                    return Err(SddlFault::Flags);
                };
                self.ace.flags = flags;
            }
            AceField::Rights => {
                let Some(mask) = rights_from_text(text) else {
                    return Err(SddlFault::Rights);
                };
                self.ace.mask = mask;
            }
            AceField::Object => {
                let Some(object) = object_from_text(self.ace.kind, text) else {
                    return Err(SddlFault::Guid);
                };
                self.ace.object = object;
            }
            AceField::Inherited => {
                let Some(inherited) = object_from_text(self.ace.kind, text) else {
                    return Err(SddlFault::Guid);
                };
                self.ace.inherited = inherited;
            }
            AceField::Sid => return self.take_trustee(buf, text),
        }
        Ok(())
    }

    /// Reads the ACE at the front of the text, which begins after the ACE's first parenthesis, appends it, and returns
    /// what follows its last one. `None` if no whole ACE is there, or if a field does not read: then nothing has
    /// changed.
    pub fn take_ace<'a>(&mut self, buf: &mut SdBuf, text: &'a [u8]) -> Option<&'a [u8]>
        requires held { (t : FieldsRead) × HasReadFields self.old buf.old t × IsOpen t.parts }
        ensures read { MatchOption result ((self.new ≡ self.old) × (buf.new ≡ buf.old))
            (λ rest. TakesAce self.old buf.old text.now self.new buf.new rest.now) }
        ensures domain { self.new.domain ≡ self.old.domain }
    {
        let (kind, rest) = front_kind(text)?;
        let (flags, rest) = front_flags(rest)?;
        let (mask, rest) = front_rights(rest)?;
        let start = AceFields {
            flags,
            mask,
            ..no_fields(kind)
        };
        // Most ACEs have no object types.
        if let Some(rest) = after(rest, b";;") {
            if let Some(behind) = self.end_usual(buf, AceHead::new(kind, flags, mask), rest) {
                return Some(behind);
            }
            let after = self.end_ace(buf, start, rest)?;
            return Some(after);
        }
        let after = self.end_guids(buf, start, rest)?;
        Some(after)
    }

    // Reads the object types and the SID of an ACE that begins so, and appends it. Apart, since few ACEs have them.
    #[inline(never)]
    fn end_guids<'a>(&mut self, buf: &mut SdBuf, ace: AceFields, text: &'a [u8]) -> Option<&'a [u8]>
        requires sound { AreAceFields ace }
        requires held { (t : FieldsRead) × HasReadFields self.old buf.old t × IsOpen t.parts }
        ensures read { MatchOption result ((self.new ≡ self.old) × (buf.new ≡ buf.old))
            (λ rest. EndsWithObjects self.old buf.old ace text.now self.new buf.new rest.now) }
        ensures domain { self.new.domain ≡ self.old.domain }
    {
        let Some((object, inherited, rest)) = front_objects(ace.kind, text) else {
            return None;
        };
        let fields = AceFields {
            object,
            inherited,
            ..ace
        };
        let after = self.end_ace(buf, fields, rest)?;
        Some(after)
    }

    // Reads the SID of an ACE that has these fields, and appends it.
    #[inline(always)]
    fn end_ace<'a>(&mut self, buf: &mut SdBuf, ace: AceFields, text: &'a [u8]) -> Option<&'a [u8]>
        requires sound { AreAceFields ace }
        requires held { (t : FieldsRead) × HasReadFields self.old buf.old t × IsOpen t.parts }
        ensures read { MatchOption result ((self.new ≡ self.old) × (buf.new ≡ buf.old))
            (λ rest. EndsAce self.old buf.old ace text.now self.new buf.new rest.now) }
        ensures domain { self.new.domain ≡ self.old.domain }
    {
        let mut sid = Sid::blank();
        match Sid::read_front(text, self.domain.as_ref(), &mut sid) {
            (Ok(()), size) => {
                let after = behind(text, size)?;
                self.ace = ace;
                self.put_ace(buf, &sid);
                Some(after)
            }
            _ => None,
        }
    }

    // The same for an ACE that begins so and has no object types, where the SID is an account or has a name everywhere.
    // Most ACEs are such. None too where the kind is an object kind, which has no head.
    #[inline(always)]
    fn end_usual<'a>(
        &mut self,
        buf: &mut SdBuf,
        head: Option<AceHead>,
        text: &'a [u8],
    ) -> Option<&'a [u8]>
        requires { (t : FieldsRead) × HasReadFields self.old buf.old t × IsOpen t.parts }
        ensures read { MatchOption result ((self.new ≡ self.old) × (buf.new ≡ buf.old))
            (λ rest. MatchOption head ⊥
            (λ h. EndsAce self.old buf.old (plain_fields h) text.now self.new buf.new rest.now)) }
        ensures domain { self.new.domain ≡ self.old.domain }
    {
        let head = head?;
        if text.len() < 2 {
            return None;
        }
        // A name such as BA has a letter where the text of an account has its first dash.
        if text[1] == b'-' {
            let rest = self.append_account(buf, head, text)?;
            return Some(rest);
        }
        let rest = self.append_named(buf, head, text)?;
        Some(rest)
    }

    // The same for an account. Its numbers are not kept in a SID on their way.
    #[inline(always)]
    fn append_account<'a>(
        &mut self,
        buf: &mut SdBuf,
        head: AceHead,
        text: &'a [u8],
    ) -> Option<&'a [u8]>
        requires { (t : FieldsRead) × HasReadFields self.old buf.old t × IsOpen t.parts }
        ensures read { MatchOption result ((self.new ≡ self.old) × (buf.new ≡ buf.old))
            (λ rest. EndsAce self.old buf.old (plain_fields head) text.now self.new buf.new rest.now) }
        ensures domain { self.new.domain ≡ self.old.domain }
    {
        let (account, domain, behind) = self.kept.front_account(text)?;
        let rest = after(behind, b")")?;
        self.kept.note(&text[..domain], account);
        self.put_plain(buf, head, Trustee::Account(account));
        Some(rest)
    }

    // The same for a SID that two letters name everywhere. Its numbers come from the table of names.
    #[inline(always)]
    fn append_named<'a>(
        &mut self,
        buf: &mut SdBuf,
        head: AceHead,
        text: &'a [u8],
    ) -> Option<&'a [u8]>
        requires { (t : FieldsRead) × HasReadFields self.old buf.old t × IsOpen t.parts }
        ensures read { MatchOption result ((self.new ≡ self.old) × (buf.new ≡ buf.old))
            (λ rest. EndsAce self.old buf.old (plain_fields head) text.now self.new buf.new rest.now) }
        ensures domain { self.new.domain ≡ self.old.domain }
    {
        let (name, end) = front_name(text)?;
        let rest = after(end, b")")?;
        self.put_plain(buf, head, Trustee::Named(name));
        Some(rest)
    }

    // The SID of the ACE at hand, which ends it.
    fn take_trustee(&mut self, buf: &mut SdBuf, text: &[u8]) -> Result<(), SddlFault>
        requires { (t : FieldsRead) × HasReadFields self.old buf.old t × IsOpen t.parts }
        ensures read { (t : FieldsRead) → HasReadFields self.old buf.old t
            → Takes (with_sid (with_trustee t) (sid_reads text.now self.old.domain)) result self.new buf.new }
        ensures domain { self.new.domain ≡ self.old.domain }
    {
        match Sid::from_text(text, self.domain.as_ref()) {
            Ok(sid) => {
                self.put_ace(buf, &sid);
                Ok(())
            }
            Err(fault) => Err(SddlFault::Sid(fault)),
        }
    }

    // Appends the ACE at hand, unless an ACL is too large already.
    #[inline(always)]
    fn put_ace(&mut self, buf: &mut SdBuf, sid: &Sid)
        requires { (t : FieldsRead) × HasReadFields self.old buf.old t × IsOpen t.parts }
        ensures held { (t : FieldsRead) → HasReadFields self.old buf.old t
            → HasReadFields self.new buf.new (with_trustee t sid.now) }
        ensures domain { self.new.domain ≡ self.old.domain }
    {
        if self.large.is_some() {
            return;
        }
        // Each field was read as one of an ACE.
        let ace = AceParts::new(&self.ace, sid);
        if let Err(_) = self.builder.ace_of(buf, &ace) {
            self.large = self.open_acl;
        }
    }

    // The same for an ACE without object types, which becomes the ACE at hand.
    #[inline(always)]
    fn put_plain(&mut self, buf: &mut SdBuf, head: AceHead, trustee: Trustee<'_>)
        requires trustee { IsTrustee trustee }
        requires held { (t : FieldsRead) × HasReadFields self.old buf.old t × IsOpen t.parts }
        ensures held { (t : FieldsRead) → HasReadFields self.old buf.old t → HasReadFields self.new buf.new
            (with_trustee (record t { ace = plain_fields head }) (trustee_sid trustee.entry)) }
        ensures domain { self.new.domain ≡ self.old.domain }
    {
        self.ace = AceFields {
            flags: head.flags(),
            mask: head.mask(),
            ..no_fields(head.kind())
        };
        if self.large.is_some() {
            return;
        }
        if let Err(_) = self.builder.plain_ace(buf, head, trustee) {
            let full = self.open_acl;
            self.large = full;
        }
    }

    /// Ends the descriptor.
    #[tactic(auto, unfolding(crate::specs::FoldedReading::finished))]
    pub fn finish(&mut self, buf: &mut SdBuf) -> Result<(), SddlFault>
        requires { (t : FieldsRead) × HasReadFields self.old buf.old t }
        ensures { (t : FieldsRead) → HasReadFields self.old buf.old t → Ends (finished (Ok t)) result buf.new }
    {
        if let Some(which) = self.large {
            return Err(SddlFault::AclTooLarge(which));
        }
        self.close_acl(buf);
        let flags = control_flags(self.sacl, self.dacl);
        self.builder.finish(buf, flags, 0);
        Ok(())
    }
}

// The fields of an ACE of which the kind was read.
fn no_fields(kind: AceKind) -> AceFields
    ensures { result ≡ record no_fields { kind = kind } }
{
    AceFields {
        kind,
        flags: 0,
        mask: 0,
        object: None,
        inherited: None,
    }
}

// The flags of both ACLs in the control word.
fn control_flags(sacl: AclFlags, dacl: AclFlags) -> u16
    ensures { result ≡ control_flags sacl dacl }
{
    sacl.bits(Which::Sacl) + dacl.bits(Which::Dacl)
}

/// The fault of a field that does not read.
pub fn fault_of(slot: Slot) -> SddlFault
    ensures { result ≡ fault_of slot }
{
    match slot {
        Slot::Sid(_) | Slot::Ace(AceField::Sid) => SddlFault::Sid(SidFault::SidForm),
        Slot::AclFlags(_, _) | Slot::Ace(AceField::Flags) => SddlFault::Flags,
        Slot::Ace(AceField::Kind) => SddlFault::Kind,
        Slot::Ace(AceField::Rights) => SddlFault::Rights,
        Slot::Ace(AceField::Object | AceField::Inherited) => SddlFault::Guid,
    }
}
