//! A line, read as it comes: byte by byte, or at once what is whole in a piece.

ghost use Rattle.std.specs.Prelude.{◌≡◌, ◌≤◌, ◌-◌, ℕ, List, [], ◌∷◌, ◌++◌, codes, length, take, ◌||◌, if◌then◌else◌};
ghost use Rattle.std.specs.Prelude.{true, false, Option, Some, None, Ok, Err, IfOk, IfSome, OnErr, OnOk};
ghost use Rattle.std.specs.Prelude.{MatchResult};
ghost use Rattle.std.specs.Option.{is_some, option_copied};
ghost use Rattle.sd_sid.specs.Sid.{IsSid, SecurityId};
ghost use Rattle.sd_view.specs.Descriptor.{IsDescriptor, Shows};
ghost use Rattle.sd_view.specs.WrittenForm.{IsWritten, IsWrittenForm};
ghost use Rattle.sd_sddl_fields.specs.Held.{IsHeld, no_text, held_text};
ghost use Rattle.sd_sddl_builder.specs.Line.{byte, head_at, head_of as head_named, pieces_from};
ghost use Rattle.sd_sddl_builder.specs.FoldedReading.{FieldsRead, finished, take_field};
ghost use Rattle.sd_text.specs.Chains.{and_then, unless};
ghost use Rattle.sd_sddl_builder.specs.Meaning.{means};
ghost use Rattle.sd_sddl_builder.specs.FieldReading.{CanTake, HasReadFields};
ghost use Rattle.sd_sddl_reader.specs.Inner.Progress.{is_inside, state_of};

use crate::line::{State, blanks, head_of, in_field, plain_outside, state_of};
use sd_buffer::SdBuf;
use sd_parts::Parts;
use sd_sddl_builder::{AceField, FieldReader, Head, SddlFault, Slot, fault_of, next_field};
use sd_sddl_fields::{FieldText, is_blank, plain_inside};
use sd_sid::Sid;

/// A reader of one line, by bytes or pieces, beside the buffer in which the descriptor is built.
///
/// ```
/// let mut buf = SdBuf::new(rt.alloc()).expect(&rt, "memory");
/// let mut reader = SddlReader::new(None, &mut buf);
/// reader.feed_all(&mut buf, b"D:P(A;;F");
/// reader.feed_all(&mut buf, b"A;;;WD)");
/// assert!(rt; reader.finish(&mut buf) == Ok(()));
/// assert!(rt; buf.bytes().len() == 48);
/// ```
#[derive(Drop)]
pub struct SddlReader {
    pub(crate) state: State,
    // A letter that is a head if a colon comes next.
    pub(crate) pending: Option<u8>,
    sound: bool,
    twice: bool,
    // The heads that stood in the line so far.
    seen: Parts<bool>,
    // The text of the field at hand.
    pub(crate) field: FieldText,
    // The first field that did not read.
    pub(crate) fault: Option<SddlFault>,
    pub(crate) fields: FieldReader,
}

impl SddlReader {
    ghost use Rattle.sd_sddl_reader.specs.SddlReading.{IsReading, ReadsSddl};
    ghost use Rattle.sd_sddl_builder.specs.FieldReading.{Ends, HasReadFields};
    ghost use Rattle.sd_sddl_reader.specs.Inner.Reads.{CanStep, Feeds, LineHasRead, IsCalm, IsReader, IsText};
    ghost use Rattle.sd_sddl_reader.specs.Inner.Reads.{EndsPart, NotesHead, Reads, StepsOn, StepsOver, StepsText};
    ghost use Rattle.sd_sddl_reader.specs.Inner.Reads.{answer_at};

    /// A reader that was fed nothing.
    pub fn new(domain: Option<Sid>, buf: &mut SdBuf) -> Self
        ensures reader { IsReading result buf.new }
        ensures read { ReadsSddl result buf.new domain [] }
    {
        SddlReader {
            state: State::Before,
            pending: None,
            sound: true,
            twice: false,
            seen: Parts::each(false),
            field: FieldText::new(),
            fault: None,
            fields: FieldReader::new(domain, buf),
        }
    }

    /// Begins another line, as a reader of this domain that was fed nothing.
    pub fn restart(&mut self, domain: Option<Sid>, buf: &mut SdBuf)
        ensures reader { IsReading self.new buf.new }
        ensures read { ReadsSddl self.new buf.new domain [] }
    {
        self.state = State::Before;
        self.pending = None;
        self.sound = true;
        self.twice = false;
        self.seen = Parts::each(false);
        self.field.clear();
        self.fault = None;
        self.fields.restart(domain, buf);
    }

    // A byte inside parentheses.
    fn put_inside(&mut self, buf: &mut SdBuf, field: AceField, byte: u8)
        requires here { self.old.state ≡ State.Ace field }
        requires ready { CanStep self.old buf.old }
        ensures { StepsOver self.old buf.old (byte ∷ []) self.new buf.new }
    {
        match byte {
            b'(' => self.sound = false,
            b')' => self.end_ace(buf, field),
            b';' => self.end_ace_field(buf, field),
            _ => self.field.push_within(byte),
        }
    }

    // The parenthesis that ends an ACE.
    fn end_ace(&mut self, buf: &mut SdBuf, field: AceField)
        requires here { self.old.state ≡ State.Ace field }
        requires ready { CanStep self.old buf.old }
        ensures { StepsOver self.old buf.old (codes ")") self.new buf.new }
    {
        if let AceField::Sid = field {
            self.end_field(buf, Slot::Ace(field));
            self.state = State::AfterAce;
        } else {
            self.sound = false;
        }
    }

    // The semicolon that ends a field of an ACE.
    fn end_ace_field(&mut self, buf: &mut SdBuf, field: AceField)
        requires here { self.old.state ≡ State.Ace field }
        requires ready { CanStep self.old buf.old }
        ensures { StepsOver self.old buf.old (codes ";") self.new buf.new }
    {
        if let AceField::Sid = field {
            self.sound = false;
        } else {
            self.end_field(buf, Slot::Ace(field));
            self.state = State::Ace(next_field(field));
        }
    }

    // A byte outside parentheses that begins no head.
    fn put_outside(&mut self, buf: &mut SdBuf, byte: u8)
        requires here { is_inside self.old.state ≡ false }
        requires ready { CanStep self.old buf.old }
        ensures answers { StepsText self.old buf.old byte self.new buf.new }
        ensures calm { IsCalm self.new }
        ensures pending { self.new.pending ≡ self.old.pending }
    {
        match byte {
            b'(' => self.begin_ace(buf),
            b')' | b':' => self.sound = false,
            _ => self.put_text(byte),
        }
    }

    // The parenthesis that begins an ACE.
    fn begin_ace(&mut self, buf: &mut SdBuf)
        requires here { is_inside self.old.state ≡ false }
        requires ready { CanStep self.old buf.old }
        ensures { StepsOver self.old buf.old (codes "(") self.new buf.new }
    {
        match self.state {
            State::AclFlags(which) => {
                self.end_field(buf, Slot::AclFlags(which, true));
                self.state = State::Ace(AceField::Kind);
            }
            State::AfterAce => {
                self.field.clear();
                self.state = State::Ace(AceField::Kind);
            }
            _ => self.sound = false,
        }
    }

    // A byte of a text outside parentheses.
    fn put_text(&mut self, b: u8)
        requires here { is_inside self.old.state ≡ false }
        requires calm { IsCalm self.old }
        requires text { IsText b }
        ensures answers { (t : FieldsRead) (rest : List ℕ) → head_at (byte b) (pieces_from false rest).after ≡ None
            → answer_at self.new t rest ≡ answer_at self.old t (b ∷ rest) }
        ensures calm { IsCalm self.new }
        ensures same { self.new ≡ record self.old { sound = self.new.sound; field = self.new.field } }
    {
        match self.state {
            State::Sid(_) | State::AclFlags(_) => self.field.push_outer(b),
            _ => {
                if !is_blank(b) {
                    self.sound = false;
                }
            }
        }
    }

    /// A head, of a letter that waited and its colon.
    pub(crate) fn begin_part(&mut self, buf: &mut SdBuf, letter: u8, head: Head)
        requires here { is_inside self.old.state ≡ false }
        requires ready { CanStep self.old buf.old }
        requires letter { head_named letter ≡ Some head }
        ensures { StepsOver self.old buf.old (letter ∷ codes ":") self.new buf.new }
    {
        self.end_part(buf);
        self.note_head(head);
    }

    /// Notes a head. After a second head with the same letter, the reader only checks the shape and builds nothing
    /// more.
    pub(crate) fn note_head(&mut self, head: Head)
        ensures { NotesHead self.old head self.new }
    {
        let part = head.into();
        if self.seen.get(part) {
            self.twice = true;
            self.fault = Some(SddlFault::PartTwice);
        }
        self.seen.set(part, true);
        self.state = state_of(head);
    }

    // Reads the field at hand, where each one before it read, and makes room for the next.
    fn end_field(&mut self, buf: &mut SdBuf, slot: Slot)
        requires clean { IsHeld self.old.field }
        requires held { (t : FieldsRead)
            × (self.old.fault ≡ None → HasReadFields self.old.fields buf.old t × CanTake slot t) }
        ensures read { (t : FieldsRead) → (self.old.fault ≡ None → HasReadFields self.old.fields buf.old t)
            → (u : FieldsRead) × (self.new.fault ≡ None → HasReadFields self.new.fields buf.new u)
            × (unless self.new.fault u ≡ and_then (unless self.old.fault t)
            (λ r. take_field self.old.fields.domain r slot (held_text self.old.field))) }
        ensures cleared { self.new.field ≡ no_text }
        ensures domain { self.new.fields.domain ≡ self.old.fields.domain }
        ensures same { self.new
            ≡ record self.old { field = self.new.field; fault = self.new.fault; fields = self.new.fields } }
    {
        if self.fault.is_none() {
            self.take_held(buf, slot);
        }
        self.field.clear();
    }

    // Reads the field at hand.
    fn take_held(&mut self, buf: &mut SdBuf, slot: Slot)
        requires clean { IsHeld self.old.field }
        requires held { (t : FieldsRead) × HasReadFields self.old.fields buf.old t × CanTake slot t }
        requires clear { self.old.fault ≡ None }
        ensures read { (t : FieldsRead) → HasReadFields self.old.fields buf.old t → (u : FieldsRead)
            × (self.new.fault ≡ None → HasReadFields self.new.fields buf.new u)
            × (unless self.new.fault u ≡ take_field self.old.fields.domain t slot (held_text self.old.field)) }
        ensures domain { self.new.fields.domain ≡ self.old.fields.domain }
        ensures same { self.new ≡ record self.old { fault = self.new.fault; fields = self.new.fields } }
    {
        if self.field.is_broken() {
            self.fault = Some(fault_of(slot));
        } else if let Err(found) = self.fields.take_readable(buf, slot, self.field.text()) {
            self.fault = Some(found);
        }
    }

    // The end of the part at hand, with no ACE since its head or none open.
    fn end_part(&mut self, buf: &mut SdBuf)
        requires here { is_inside self.old.state ≡ false }
        requires ready { CanStep self.old buf.old }
        ensures { EndsPart self.old buf.old self.new buf.new }
    {
        match self.state {
            State::Sid(part) => self.end_field(buf, Slot::Sid(part)),
            State::AclFlags(which) => self.end_field(buf, Slot::AclFlags(which, false)),
            _ => self.field.clear(),
        }
    }

    // A byte outside parentheses with none that waits before it.
    #[inline(always)]
    fn feed_alone(&mut self, buf: &mut SdBuf, byte: u8)
        requires here { is_inside self.old.state ≡ false }
        requires ready { CanStep self.old buf.old }
        requires pending { self.old.pending ≡ None }
        ensures answers { StepsOn self.old buf.old (byte ∷ []) self.new buf.new }
        ensures reader { IsReader self.new buf.new }
    {
        if head_of(byte).is_some() {
            self.pending = Some(byte);
        } else {
            self.put_outside(buf, byte);
        }
    }

    // A byte outside parentheses after a letter that waits.
    fn feed_after(&mut self, buf: &mut SdBuf, letter: u8, byte: u8)
        requires here { is_inside self.old.state ≡ false }
        requires ready { CanStep self.old buf.old }
        requires pending { self.old.pending ≡ Some letter }
        requires letter { IsText letter }
        ensures answers { StepsOn self.old buf.old (letter ∷ byte ∷ []) self.new buf.new }
        ensures reader { IsReader self.new buf.new }
    {
        self.pending = None;
        match head_of(letter) {
            Some(head) if byte == b':' => self.begin_part(buf, letter, head),
            _ => {
                self.put_text(letter);
                self.feed_alone(buf, byte);
            }
        }
    }

    /// Takes one byte more of the line.
    pub fn feed(&mut self, buf: &mut SdBuf, byte: u8)
        requires { IsReading self.old buf.old }
        ensures reader { IsReading self.new buf.new }
        ensures read { (domain : Option SecurityId) (text : List ℕ) → ReadsSddl self.old buf.old domain text
            → ReadsSddl self.new buf.new domain (text ++ byte ∷ []) }
    {
        if !self.sound {
            return;
        }
        if let State::Ace(field) = self.state {
            self.put_inside(buf, field, byte);
        } else if let Some(letter) = self.pending {
            self.feed_after(buf, letter, byte);
        } else {
            self.feed_alone(buf, byte);
        }
    }

    /// Takes bytes more of the line.
    pub fn feed_all(&mut self, buf: &mut SdBuf, bytes: &[u8])
        requires { IsReading self.old buf.old }
        ensures reader { IsReading self.new buf.new }
        ensures read { (domain : Option SecurityId) (text : List ℕ) → ReadsSddl self.old buf.old domain text
            → ReadsSddl self.new buf.new domain (text ++ bytes.now) }
    {
        let mut rest = bytes;
        while !rest.is_empty() {
            rest = self.feed_next(buf, rest);
        }
    }

    // Takes what is whole at the front of the text, and answers what follows. If a field comes next that isn't whole,
    // or if nothing was taken, it also takes the first byte, so that the field isn't tried again.
    #[inline(always)]
    fn feed_next<'a>(&mut self, buf: &mut SdBuf, text: &'a [u8]) -> &'a [u8]
        requires { IsReader self.old buf.old }
        ensures shorter { length result.now ≤ length text.now - 1 }
        ensures fed { Feeds self.old buf.old text.now self.new buf.new result.now }
    {
        let left = self.feed_whole(buf, text);
        if left.len() < text.len() && !self.is_before_field() {
            return left;
        }
        self.feed_front(buf, left)
    }

    // Takes the first byte of the text, and after it those that belong to the current field. Answers what follows them.
    #[inline(always)]
    fn feed_front<'a>(&mut self, buf: &mut SdBuf, text: &'a [u8]) -> &'a [u8]
        requires { IsReader self.old buf.old }
        ensures shorter { length result.now ≤ length text.now - 1 }
        ensures fed { Feeds self.old buf.old text.now self.new buf.new result.now }
    {
        let Some((byte, after)) = text.split_first() else {
            return text;
        };
        self.feed(buf, *byte);
        let run = self.feed_run(after);
        &after[run..]
    }

    // Appends the bytes at the front that belong to the current field, in one call, and returns their number. Bytes
    // that change nothing are taken first. A field that has no byte yet may be whole in what follows, so no more is
    // taken of it. Once the shape of the line is broken, the error is known, and all bytes are taken.
    fn feed_run(&mut self, text: &[u8]) -> usize
        ensures within { result ≤ length text.now }
        ensures reader { (buf : List ℕ) → IsReader self.old buf → IsReader self.new buf }
        ensures read { (buf : List ℕ) (domain : Option SecurityId) (before : List ℕ) → IsReader self.old buf
            → Reads self.old buf domain before
            → Reads self.new buf domain (before ++ take result text.now) }
    {
        if !self.sound {
            return text.len();
        }
        let idle = self.idle_bytes(text);
        if idle > 0 || self.field.is_empty() {
            return idle;
        }
        match self.state {
            State::Ace(_) => {
                let count = plain_inside(text);
                self.field.push_run(&text[..count]);
                count
            }
            State::Sid(_) | State::AclFlags(_) if self.pending.is_none() => {
                let count = plain_outside(text);
                self.field.push_run(&text[..count]);
                count
            }
            _ => 0,
        }
    }

    // How many bytes at the front change nothing. Outside parentheses that is so for blanks at the ends of a field.
    // Inside, it is so for all bytes of a field that is lost.
    fn idle_bytes(&self, text: &[u8]) -> usize
        ensures within { result ≤ length text.now }
        ensures read { (buf : List ℕ) (domain : Option SecurityId) (before : List ℕ) → IsReader self.now buf
            → Reads self.now buf domain before → Reads self.now buf domain (before ++ take result text.now) }
    {
        if let State::Ace(_) = self.state {
            if self.is_lost() {
                return in_field(text);
            }
            return 0;
        }
        if self.pending.is_none() && self.field.ignores_blanks() {
            return blanks(text);
        }
        0
    }

    // Whether it is known that the field at hand, or one before it, doesn't read.
    fn is_lost(&self) -> bool
        ensures { result ≡ (is_some self.now.fault || self.now.field.broken) }
    {
        self.fault.is_some() || self.field.is_broken()
    }

    /// Ends the line. The buffer then holds what the line means, or nothing if it has a fault. The reader can only be
    /// restarted after it.
    pub fn end(&mut self, buf: &mut SdBuf) -> Result<(), SddlFault>
        requires { IsReading self.old buf.old }
        ensures exact { (domain : Option SecurityId) (text : List ℕ) → ReadsSddl self.old buf.old domain text
            → MatchResult (means text domain)
            (λ d. (result ≡ Ok tt) × Shows buf.new d)
            (λ e. (result ≡ Err e) × (buf.new ≡ [])) }
        // Without gaps, and each part in its one written form.
        ensures written { (domain : Option SecurityId) (text : List ℕ) → ReadsSddl self.old buf.old domain text
            → IfOk (means text domain) (IsWritten buf.new) }
        // The same for any text: what `view_written` requires.
        ensures form { OnOk result (IsWrittenForm buf.new) }
        ensures empty { OnErr result (buf.new ≡ []) }
    {
        if let Some(letter) = self.pending {
            self.put_text(letter);
        }
        self.finish_alone(buf)
    }

    /// Ends the line, as `end` does.
    pub fn finish(mut self, buf: &mut SdBuf) -> Result<(), SddlFault>
        requires { IsReading self buf.old }
        ensures exact { (domain : Option SecurityId) (text : List ℕ) → ReadsSddl self buf.old domain text
            → MatchResult (means text domain)
            (λ d. (result ≡ Ok tt) × Shows buf.new d)
            (λ e. (result ≡ Err e) × (buf.new ≡ [])) }
        // Without gaps, and each part in its one written form.
        ensures written { (domain : Option SecurityId) (text : List ℕ) → ReadsSddl self buf.old domain text
            → IfOk (means text domain) (IsWritten buf.new) }
        // The same for any text: what `view_written` requires.
        ensures form { OnOk result (IsWrittenForm buf.new) }
        ensures empty { OnErr result (buf.new ≡ []) }
    {
        self.end(buf)
    }

    // The end of a line with no byte that waits.
    fn finish_alone(&mut self, buf: &mut SdBuf) -> Result<(), SddlFault>
        requires { CanStep self.old buf.old }
        ensures exact { (t : FieldsRead) → LineHasRead self.old buf.old t
            → MatchResult (finished (answer_at self.old t []))
            (λ d. (result ≡ Ok tt) × Shows buf.new d)
            (λ e. (result ≡ Err e) × (buf.new ≡ [])) }
        ensures written { (t : FieldsRead) → LineHasRead self.old buf.old t
            → IfOk (finished (answer_at self.old t [])) (IsWritten buf.new) }
        ensures form { OnOk result (IsWrittenForm buf.new) }
        ensures empty { OnErr result (buf.new ≡ []) }
    {
        match self.end_line(buf) {
            Ok(()) => Ok(()),
            Err(fault) => {
                buf.clear();
                Err(fault)
            }
        }
    }

    // What a line gives that ends here, with no byte that waits.
    fn end_line(&mut self, buf: &mut SdBuf) -> Result<(), SddlFault>
        requires { CanStep self.old buf.old }
        ensures { (t : FieldsRead) → LineHasRead self.old buf.old t
            → Ends (finished (answer_at self.old t [])) result buf.new }
    {
        if !self.sound {
            return Err(SddlFault::Shape);
        }
        if let State::Ace(_) = self.state {
            return Err(SddlFault::Shape);
        }
        self.end_part(buf);
        if self.twice {
            return Err(SddlFault::PartTwice);
        }
        match self.fault {
            Some(fault) => Err(fault),
            None => self.fields.finish(buf),
        }
    }
}

// The limits of the domain: its size shows that it keeps them.
fn note_limits(domain: Option<&Sid>)
    ensures { IfSome (option_copied domain.entry) IsSid }
{
    if let Some(sid) = domain {
        let _ = sid.size();
    }
}

/// Reads a line of SDDL (MS-DTYP 2.5.1), such as `O:BAD:(A;;FA;;;WD)`, with the aliases of a domain. The buffer then
/// holds bytes that show the descriptor that the line means. If the line has a fault, `read_sddl` returns the first one
/// and leaves the buffer empty.
///
/// ```
/// let mut buf = SdBuf::new(rt.alloc()).expect(&rt, "memory");
/// let mut same = SdBuf::new(rt.alloc()).expect(&rt, "memory");
/// assert!(rt; read_sddl(b"D:", None, &mut buf) == Ok(()));
/// assert!(rt; same.from_hex(b"01000480000000000000000000000000140000000200080000000000") == Ok(()));
/// assert!(rt; buf.bytes() == same.bytes());
/// assert!(rt; read_sddl(b"O:ZZ", None, &mut buf) == Err(SddlFault::Sid(SidFault::Alias)));
/// ```
pub fn read_sddl(text: &[u8], domain: Option<&Sid>, buf: &mut SdBuf) -> Result<(), SddlFault>
    ensures exact { MatchResult (means text.now (option_copied domain.entry))
        (λ d. (result ≡ Ok tt) × Shows buf.new d)
        (λ e. (result ≡ Err e) × (buf.new ≡ [])) }
    // Without gaps, and each part in its one written form.
    ensures written { IfOk (means text.now (option_copied domain.entry)) (IsWritten buf.new) }
    ensures form { OnOk result (IsWrittenForm buf.new) }
    // What it means keeps the limits of a descriptor.
    ensures limits { IfOk (means text.now (option_copied domain.entry)) IsDescriptor }
{
    note_limits(domain);
    let mut reader = SddlReader::new(domain.copied(), buf);
    reader.feed_all(buf, text);
    reader.end(buf)
}
