//! The text of the field at hand, of at most MOST_FIELD_SIZE bytes.

ghost use Rattle.std.specs.Prelude.{◌≡◌, ◌≤◌, ◌+◌, ◌++◌, ◌||◌, ◌==◌, length, take, true};
ghost use Rattle.sd_text.specs.Limits.{most_field};
ghost use Rattle.sd_sddl_fields.specs.Held.{Held, no_text, broken_text, held_with, held_run, held_blank, outer_with};
ghost use Rattle.sd_sddl_fields.specs.Held.{within_with};

use crate::plain::is_blank;
use sd_text::MOST_FIELD_SIZE;
use std::marker::Model;

/// A field's text as far as it came. One that can no longer read is not kept.
#[derive(Drop)]
pub struct FieldText {
    bytes: [u8; MOST_FIELD_SIZE],
    len: usize,
    gap: bool,
    broken: bool,
}

impl Model for FieldText {
    ghost Value = { Held };

    ghost view = { λ f. record { text = take f.len f.bytes; gap = f.gap; broken = f.broken } };

    ghost invariant = { λ f. f.len ≤ most_field };
}

impl FieldText {
    /// No byte yet.
    pub fn new() -> Self
        ensures { result ≡ no_text }
    {
        FieldText {
            bytes: [0; MOST_FIELD_SIZE],
            len: 0,
            gap: false,
            broken: false,
        }
    }

    /// Whether nothing came yet.
    pub fn is_empty(&self) -> bool
        ensures { result ≡ true → self.now ≡ no_text }
    {
        self.len == 0 && !self.gap && !self.broken
    }

    /// Whether a blank more changes nothing, of a text whose blanks at the ends do not count.
    pub fn ignores_blanks(&self) -> bool
        ensures { result ≡ (self.now.broken || (self.now.gap || length self.now.text == 0)) }
    {
        self.broken || self.gap || self.len == 0
    }

    /// No byte any more.
    pub fn clear(&mut self)
        ensures { self.new ≡ no_text }
    {
        self.len = 0;
        self.gap = false;
        self.broken = false;
    }

    fn spoil(&mut self)
        ensures { self.new ≡ broken_text }
    {
        self.len = 0;
        self.gap = false;
        self.broken = true;
    }

    fn push(&mut self, byte: u8)
        ensures { self.new ≡ held_with self.old byte }
    {
        if self.broken || self.gap || self.len == MOST_FIELD_SIZE {
            self.spoil();
        } else {
            self.bytes[self.len] = byte;
            self.len += 1;
        }
    }

    /// Appends bytes, none of which is a blank.
    pub fn push_run(&mut self, run: &[u8])
        ensures { self.new ≡ held_run self.old run.now }
    {
        if run.is_empty() {
            return;
        }
        if self.broken || self.gap {
            self.spoil();
        } else if MOST_FIELD_SIZE - self.len < run.len() {
            self.spoil();
        } else {
            self.append(run);
        }
    }

    // Bytes for which there is room.
    fn append(&mut self, run: &[u8])
        requires room { length self.old.text + length run.now ≤ most_field }
        ensures { self.new ≡ record self.old { text = self.old.text ++ run.now } }
    {
        let end = self.len + run.len();
        self.bytes[self.len..end].copy_from_slice(run);
        self.len = end;
    }

    fn blank(&mut self)
        ensures { self.new ≡ held_blank self.old }
    {
        if !self.broken && self.len != 0 {
            self.gap = true;
        }
    }

    /// One byte more of a text whose blanks at the ends do not count.
    pub fn push_outer(&mut self, byte: u8)
        ensures { self.new ≡ outer_with self.old byte }
    {
        if is_blank(byte) {
            self.blank();
        } else {
            self.push(byte);
        }
    }

    /// One byte more of a text inside parentheses.
    pub fn push_within(&mut self, byte: u8)
        ensures { self.new ≡ within_with self.old byte }
    {
        if is_blank(byte) {
            self.spoil();
        } else {
            self.push(byte);
        }
    }

    /// Whether it can no longer read.
    pub fn is_broken(&self) -> bool
        ensures { result ≡ self.now.broken }
    {
        self.broken
    }

    /// The bytes, of a text that can read.
    pub fn text(&self) -> &[u8]
        ensures { result.now ≡ self.now.text }
    {
        &self.bytes[..self.len]
    }
}
