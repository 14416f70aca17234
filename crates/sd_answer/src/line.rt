//! The line in hand, whose bytes go into a reader as they come.

ghost use Rattle.std.specs.Prelude.{◌≡◌, ◌≤◌, ◌<◌, ◌≢◌, ℕ, List, ◌++◌, [], length, nat_lt, false, true};
ghost use Rattle.sd_answer.specs.Answer.{line_limit, text_means};
ghost use Rattle.sd_answer.specs.Inner.Reading.{CanRead, HasRead, form_of};

use crate::job::{Form, Job};
use sd_buffer::{HexReader, SdBuf, TextBuf};
use sd_faults::LineFault;
use sd_sddl_reader::SddlReader;
use sd_text::{MOST_BASE64_TEXT, MOST_HEX_TEXT, MOST_SDDL_TEXT};
use sd_view::{SdView, read, view_written};

/// What reads a line of a form. Of base64 the text is held, and read at the end of the line.
#[derive(Drop)]
pub enum LineReader {
    Hex(HexReader),
    Base64,
    Sddl(SddlReader),
}

impl LineReader {
    // A reader of a line for the job, that has read nothing.
    fn new(job: &Job, read: &mut SdBuf) -> LineReader
        ensures form { form_of result ≡ job.now.line_form }
        ensures ready { CanRead result read.new }
        ensures read { HasRead result read.new [] job.now.domain [] }
    {
        match job.line_form {
            Form::Hex => LineReader::Hex(HexReader::new(read)),
            Form::Base64 => LineReader::Base64,
            Form::Sddl => LineReader::Sddl(SddlReader::new(job.domain, read)),
        }
    }

    // Begins another line for the job, as a reader that has read nothing.
    fn restart(&mut self, job: &Job, read: &mut SdBuf)
        ensures form { form_of self.new ≡ job.now.line_form }
        ensures ready { CanRead self.new read.new }
        ensures read { HasRead self.new read.new [] job.now.domain [] }
    {
        match (&mut *self, job.line_form) {
            (LineReader::Hex(reader), Form::Hex) => *reader = HexReader::new(read),
            (LineReader::Sddl(reader), Form::Sddl) => reader.restart(job.domain, read),
            // To assign a reader would copy as many bytes as the largest form has.
            (LineReader::Base64, Form::Base64) => {}
            _ => self.replace(job, read),
        }
    }

    // The same where the line before was of another form. Apart, so that the way of most lines is short.
    #[cold]
    #[inline(never)]
    fn replace(&mut self, job: &Job, read: &mut SdBuf)
        ensures form { form_of self.new ≡ job.now.line_form }
        ensures ready { CanRead self.new read.new }
        ensures read { HasRead self.new read.new [] job.now.domain [] }
    {
        *self = LineReader::new(job, read);
    }

    // The bytes that a line may have.
    fn limit(&self) -> usize
        ensures { result ≡ line_limit (form_of self.now) }
    {
        match self {
            LineReader::Hex(_) => MOST_HEX_TEXT,
            LineReader::Base64 => MOST_BASE64_TEXT,
            LineReader::Sddl(_) => MOST_SDDL_TEXT,
        }
    }
}

/// The bytes since the last LF.
#[derive(Drop)]
pub struct Line {
    reader: LineReader,
    // The bytes of the descriptor that were read so far, and the text that is held.
    read: SdBuf,
    held: TextBuf,
    // How many bytes the line has, without a CR that waits. Where they pass its limit, those past it were not read.
    count: usize,
    // A CR is the last byte so far. Before an LF it is dropped, and before any other byte it is one of the line.
    cr: bool,
}

impl Line {
    ghost use Rattle.std.specs.Prelude.{OnOk};
    ghost use Rattle.sd_answer.specs.Inner.Reading.{IsWrittenBy, Leaves};
    ghost use Rattle.sd_answer.specs.LineInHand.{Holds, HoldsText, IsReady};

    /// An empty line for the job, over these buffers, whatever they hold.
    pub fn over(job: &Job, read: SdBuf, held: TextBuf) -> Line
        ensures empty { Holds job.now result [] }
        ensures ready { IsReady result }
    {
        let mut line = Line {
            reader: LineReader::Base64,
            read,
            held,
            count: 0,
            cr: false,
        };
        line.start(job);
        line
    }

    /// Starts an empty line for the job.
    pub fn start(&mut self, job: &Job)
        ensures empty { Holds job.now self.new [] }
        ensures ready { IsReady self.new }
    {
        self.reader.restart(job, &mut self.read);
        self.held.clear();
        self.count = 0;
        self.cr = false;
    }

    /// Reads more bytes, none of which is an LF.
    pub fn take(&mut self, bytes: &[u8])
        requires { IsReady self.old }
        ensures ready { IsReady self.new }
        ensures holds { (job : Job) (raw : List ℕ) → Holds job self.old raw → Holds job self.new (raw ++ bytes.now) }
    {
        let Some((last, front)) = bytes.split_last() else {
            return;
        };
        self.settle();
        self.cr = *last == b'\r';
        if self.cr {
            self.feed(front);
        } else {
            self.feed(bytes);
        }
    }

    /// The CR that waits is a byte of the line.
    pub fn settle(&mut self)
        requires { IsReady self.old }
        ensures ready { IsReady self.new }
        ensures text { (job : Job) (raw : List ℕ) → Holds job self.old raw → HoldsText job self.new raw }
    {
        if self.cr {
            self.cr = false;
            self.feed(b"\r");
        }
    }

    // Bytes more of the line. None goes into the reader where they pass the limit.
    fn feed(&mut self, bytes: &[u8])
        requires { IsReady self.old }
        ensures ready { IsReady self.new }
        ensures text { (job : Job) (text : List ℕ) → HoldsText job self.old text
            → HoldsText job self.new (text ++ bytes.now) }
        ensures nothing_past { line_limit (form_of self.old.reader) < self.new.count
            → self.new ≡ record self.old { count = self.new.count } }
        ensures cr { self.new.cr ≡ self.old.cr }
    {
        self.count = self.count.saturating_add(bytes.len());
        if self.is_too_long() {
            return;
        }
        match &mut self.reader {
            LineReader::Hex(reader) => reader.feed_all(&mut self.read, bytes),
            LineReader::Base64 => {
                let _ = self.held.extend(bytes);
            }
            LineReader::Sddl(reader) => reader.feed_all(&mut self.read, bytes),
        }
    }

    /// Nothing came yet.
    pub fn is_untouched(&self) -> bool
        ensures { (job : Job) (raw : List ℕ) → Holds job self.now raw
            → (result ≡ true → raw ≡ []) × (result ≡ false → raw ≢ []) }
    {
        self.count == 0 && !self.cr
    }

    // The line has no byte.
    pub(crate) fn is_empty(&self) -> bool
        ensures { (job : Job) (text : List ℕ) → HoldsText job self.now text
            → (result ≡ true → text ≡ []) × (result ≡ false → text ≢ []) }
    {
        self.count == 0
    }

    // The line has more bytes than it may.
    pub(crate) fn is_too_long(&self) -> bool
        ensures value { result ≡ nat_lt (line_limit (form_of self.now.reader)) self.now.count }
        ensures meaning { (job : Job) (text : List ℕ) → HoldsText job self.now text
            → (result ≡ true → line_limit job.line_form < length text)
            × (result ≡ false → length text ≤ line_limit job.line_form) }
    {
        self.count > self.reader.limit()
    }

    // The end of a line that is not too long: the descriptor that it means.
    pub(crate) fn end(&mut self) -> Result<SdView<'_>, LineFault>
        requires { IsReady self.old }
        ensures { (job : Job) (text : List ℕ) → HoldsText job self.old text → length text ≤ line_limit job.line_form
            → result ≡ text_means job.line_form job.domain text }
    {
        self.finish()?;
        // A reader of SDDL leaves bytes in their written form, which need no check.
        if let LineReader::Sddl(_) = self.reader {
            return Ok(view_written(self.read.bytes()));
        }
        read(self.read.bytes()).map_err(LineFault::Sd)
    }

    // The bytes of the line's descriptor, in the buffer.
    fn finish(&mut self) -> Result<(), LineFault>
        requires { IsReady self.old }
        ensures leaves { (job : Job) (text : List ℕ) → HoldsText job self.old text
            → length text ≤ line_limit job.line_form
            → Leaves (text_means job.line_form job.domain text) result self.new.read }
        ensures written { OnOk result (IsWrittenBy self.new.reader self.new.read) }
    {
        match &mut self.reader {
            LineReader::Hex(reader) => reader.finish(&mut self.read).map_err(LineFault::Text),
            LineReader::Base64 => self
                .read
                .from_base64(self.held.bytes())
                .map_err(LineFault::Text),
            LineReader::Sddl(reader) => reader.end(&mut self.read).map_err(LineFault::Sddl),
        }
    }
}
