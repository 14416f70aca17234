//! What is whole in a piece of a line, taken at once.

ghost use Rattle.std.specs.Prelude.{◌≡◌, true, false, Option, Some, None, MatchOption};
ghost use Rattle.sd_sddl_builder.specs.FoldedReading.{FieldsRead};
ghost use Rattle.sd_sddl_builder.specs.FieldReading.{CanTake, HasReadFields};
ghost use Rattle.sd_sddl_reader.specs.Inner.WholePart.{IsPlainText};
ghost use Rattle.sd_sddl_reader.specs.Inner.Progress.{is_inside};
ghost use Rattle.sd_sddl_reader.specs.Inner.Reads.{Feeds, IsFresh, IsReader, TakesWhole};

use crate::line::{
    State, behind_blanks, first_parenthesis, front_head, next_account, next_head, next_named,
    usual_front,
};
use crate::reader::SddlReader;
use sd_buffer::SdBuf;
use sd_builder::Trustee;
use sd_parts::{SidPart, Which};
use sd_sddl_builder::{AceField, Slot};

impl SddlReader {
    // Whether the field at hand has no byte yet, no byte waits, and all fields so far read.
    fn is_fresh(&self) -> bool
        ensures { result ≡ true → IsFresh self.now }
    {
        self.pending.is_none() && self.fault.is_none() && self.field.is_empty()
    }

    /// Whether a field comes next that `feed_whole` tries, and none before it was wrong.
    #[inline(always)]
    pub(crate) fn is_before_field(&self) -> bool
        ensures { result ≡ true → IsFresh self.now }
    {
        match self.state {
            State::Before | State::AfterAce => false,
            _ => self.is_fresh(),
        }
    }

    /// Takes what is whole at the front of the text, and answers what follows it. Most lines have an owner and a group,
    /// then an ACL, so each is tried in turn: a `match` over the states became a jump through a table, which is hard to
    /// predict.
    pub(crate) fn feed_whole<'a>(&mut self, buf: &mut SdBuf, text: &'a [u8]) -> &'a [u8]
        requires { IsReader self.old buf.old }
        ensures { Feeds self.old buf.old text.now self.new buf.new result.now }
    {
        let rest = self.whole_head(buf, text);
        let rest = self.whole_sids(buf, rest);
        let rest = self.whole_flags(buf, rest);
        self.whole_aces(buf, rest)
    }

    // Takes a head before the first part, or after an ACE.
    #[inline(always)]
    fn whole_head<'a>(&mut self, buf: &mut SdBuf, text: &'a [u8]) -> &'a [u8]
        requires { IsReader self.old buf.old }
        ensures { Feeds self.old buf.old text.now self.new buf.new result.now }
    {
        if !self.is_fresh() {
            return text;
        }
        match self.state {
            State::Before | State::AfterAce => self.feed_head(buf, text),
            _ => text,
        }
    }

    // Takes an owner and a group with the head after each.
    #[inline(always)]
    fn whole_sids<'a>(&mut self, buf: &mut SdBuf, text: &'a [u8]) -> &'a [u8]
        requires { IsReader self.old buf.old }
        ensures { Feeds self.old buf.old text.now self.new buf.new result.now }
    {
        let rest = self.whole_sid(buf, text);
        if rest.len() < text.len() {
            return self.whole_sid(buf, rest);
        }
        rest
    }

    // Takes an owner or a group with the next head, after its own.
    #[inline(always)]
    fn whole_sid<'a>(&mut self, buf: &mut SdBuf, text: &'a [u8]) -> &'a [u8]
        requires { IsReader self.old buf.old }
        ensures { Feeds self.old buf.old text.now self.new buf.new result.now }
    {
        if !self.is_fresh() {
            return text;
        }
        match self.state {
            State::Sid(part) => self.feed_sid(buf, part, text),
            _ => text,
        }
    }

    // Takes the flags of an ACL with its first parenthesis, after its head.
    #[inline(always)]
    fn whole_flags<'a>(&mut self, buf: &mut SdBuf, text: &'a [u8]) -> &'a [u8]
        requires { IsReader self.old buf.old }
        ensures { Feeds self.old buf.old text.now self.new buf.new result.now }
    {
        if !self.is_fresh() {
            return text;
        }
        match self.state {
            State::AclFlags(which) => self.feed_flags(buf, which, text),
            _ => text,
        }
    }

    // Takes ACEs, behind a parenthesis.
    #[inline(always)]
    fn whole_aces<'a>(&mut self, buf: &mut SdBuf, text: &'a [u8]) -> &'a [u8]
        requires { IsReader self.old buf.old }
        ensures { Feeds self.old buf.old text.now self.new buf.new result.now }
    {
        if !self.is_fresh() {
            return text;
        }
        match self.state {
            State::Ace(AceField::Kind) => self.feed_aces(buf, text),
            _ => text,
        }
    }

    // Takes a head.
    fn feed_head<'a>(&mut self, buf: &mut SdBuf, text: &'a [u8]) -> &'a [u8]
        requires here { is_inside self.old.state ≡ false }
        requires fresh { IsFresh self.old }
        requires reader { IsReader self.old buf.old }
        ensures { Feeds self.old buf.old text.now self.new buf.new result.now }
    {
        match front_head(text) {
            Some((letter, head, rest)) => {
                self.begin_part(buf, letter, head);
                rest
            }
            None => text,
        }
    }

    // Takes an owner or a group that is whole in the text, and the head that ends it.
    fn feed_sid<'a>(&mut self, buf: &mut SdBuf, part: SidPart, text: &'a [u8]) -> &'a [u8]
        requires here { self.old.state ≡ State.Sid part }
        requires fresh { IsFresh self.old }
        requires reader { IsReader self.old buf.old }
        ensures { Feeds self.old buf.old text.now self.new buf.new result.now }
    {
        if let Some(rest) = self.feed_usual(buf, part, text) {
            return rest;
        }
        self.feed_other_sid(buf, part, text)
    }

    // The same for an account of a domain, or a name that means one SID everywhere. If no such SID is whole in the
    // text, nothing changes.
    #[inline(always)]
    fn feed_usual<'a>(&mut self, buf: &mut SdBuf, part: SidPart, text: &'a [u8]) -> Option<&'a [u8]>
        requires here { self.old.state ≡ State.Sid part }
        requires fresh { IsFresh self.old }
        requires reader { IsReader self.old buf.old }
        ensures { MatchOption result ((self.new ≡ self.old) × (buf.new ≡ buf.old))
            (λ rest. Feeds self.old buf.old text.now self.new buf.new rest.now) }
    {
        if text.len() < 2 {
            return None;
        }
        // A name such as BA has a letter where the text of an account has its first dash.
        if text[1] == b'-' {
            let rest = self.put_account(buf, part, text)?;
            return Some(rest);
        }
        let rest = self.put_named(buf, part, text)?;
        Some(rest)
    }

    // The same for an account. Apart, so that other SIDs keep their registers.
    #[inline(never)]
    fn put_account<'a>(
        &mut self,
        buf: &mut SdBuf,
        part: SidPart,
        text: &'a [u8],
    ) -> Option<&'a [u8]>
        requires here { self.old.state ≡ State.Sid part }
        requires fresh { IsFresh self.old }
        requires reader { IsReader self.old buf.old }
        ensures { MatchOption result ((self.new ≡ self.old) × (buf.new ≡ buf.old))
            (λ rest. Feeds self.old buf.old text.now self.new buf.new rest.now) }
    {
        let (account, head, rest) = next_account(text, &self.fields.kept)?;
        self.fields.put_sid(buf, part, Trustee::Account(account));
        self.note_head(head);
        Some(rest)
    }

    // The same for a name. The SID's numbers come from the table of names.
    #[inline(never)]
    fn put_named<'a>(&mut self, buf: &mut SdBuf, part: SidPart, text: &'a [u8]) -> Option<&'a [u8]>
        requires here { self.old.state ≡ State.Sid part }
        requires fresh { IsFresh self.old }
        requires reader { IsReader self.old buf.old }
        ensures { MatchOption result ((self.new ≡ self.old) × (buf.new ≡ buf.old))
            (λ rest. Feeds self.old buf.old text.now self.new buf.new rest.now) }
    {
        let (name, head, rest) = next_named(text)?;
        self.fields.put_sid(buf, part, Trustee::Named(name));
        self.note_head(head);
        Some(rest)
    }

    // The same for any SID.
    fn feed_other_sid<'a>(&mut self, buf: &mut SdBuf, part: SidPart, text: &'a [u8]) -> &'a [u8]
        requires here { self.old.state ≡ State.Sid part }
        requires fresh { IsFresh self.old }
        requires reader { IsReader self.old buf.old }
        ensures { Feeds self.old buf.old text.now self.new buf.new result.now }
    {
        match next_head(text) {
            Some((field, head, rest)) => {
                self.take_whole(buf, Slot::Sid(part), field);
                self.note_head(head);
                rest
            }
            None => text,
        }
    }

    // Takes the flags of an ACL that are whole in the text, and the parenthesis of its first ACE.
    fn feed_flags<'a>(&mut self, buf: &mut SdBuf, which: Which, text: &'a [u8]) -> &'a [u8]
        requires here { self.old.state ≡ State.AclFlags which }
        requires fresh { IsFresh self.old }
        requires reader { IsReader self.old buf.old }
        ensures { Feeds self.old buf.old text.now self.new buf.new result.now }
    {
        if let Some((front, rest)) = usual_front(text) {
            self.fields.put_front(buf, which, front);
            self.state = State::Ace(AceField::Kind);
            return rest;
        }
        match first_parenthesis(text) {
            Some((field, rest)) => {
                self.take_whole(buf, Slot::AclFlags(which, true), field);
                self.state = State::Ace(AceField::Kind);
                rest
            }
            None => text,
        }
    }

    // Reads a field that is whole in a text.
    #[inline(always)]
    fn take_whole(&mut self, buf: &mut SdBuf, slot: Slot, text: &[u8])
        requires whole { IsPlainText text.now }
        requires held { (t : FieldsRead) × HasReadFields self.old.fields buf.old t × CanTake slot t }
        requires clear { self.old.fault ≡ None }
        ensures { TakesWhole self.old buf.old slot text.now self.new buf.new }
    {
        if let Err(found) = self.fields.take_readable(buf, slot, text) {
            self.fault = Some(found);
        }
    }

    // Takes the ACEs that are whole at the front of the text, from behind the first parenthesis of the first one, with
    // the blanks behind each, and answers what follows them.
    fn feed_aces<'a>(&mut self, buf: &mut SdBuf, text: &'a [u8]) -> &'a [u8]
        requires here { self.old.state ≡ State.Ace AceField.Kind }
        requires fresh { IsFresh self.old }
        requires reader { IsReader self.old buf.old }
        ensures { Feeds self.old buf.old text.now self.new buf.new result.now }
    {
        let mut rest = text;
        while let Some(after) = self.fields.take_ace(buf, rest) {
            self.state = State::AfterAce;
            let behind = behind_blanks(after);
            match behind.split_first() {
                Some((b'(', next)) => rest = next,
                _ => return behind,
            }
            self.state = State::Ace(AceField::Kind);
        }
        rest
    }
}
