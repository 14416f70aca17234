//! ACEs that are appended as they are in another descriptor, but for what is changed.

ghost use Rattle.std.specs.Prelude.{◌≡◌, ◌≤◌, ◌+◌, ◌/◌, ◌%◌, ◌++◌, length, unwrap_or};
ghost use Rattle.std.specs.Option.{option_copied};
ghost use Rattle.sd_ace.specs.Ace.{IsAce, ace_size};
ghost use Rattle.sd_ace.specs.AceLayout.{ace_bytes, ace_front};
ghost use Rattle.sd_parts.specs.declared.limits.TheConstants.{CAPACITY};

use crate::append::append_parts;
use sd_ace::{Ace, AceFront, object_flags};
use sd_acl_view::AceView;
use sd_buffer::SdBuf;
use sd_kinds::AceKind;
use sd_sid::Sid;
use std::marker::Model;

/// An ACE in the bytes that show it, with other flags, another mask, and another SID if one is given. Kind and GUIDs
/// stay.
#[derive(Drop)]
pub struct ChangedAce<'a> {
    ace: &'a AceView<'a>,
    flags: u8,
    mask: u32,
    sid: Option<&'a Sid>,
}

impl<'a> Model for ChangedAce<'a> {
    ghost use Rattle.std.specs.Prelude.{◌≡◌, ◌<◌, ◌/◌, ◌%◌, ◌^◌, unwrap_or};
    ghost use Rattle.std.specs.Option.{option_copied};
    ghost use Rattle.sd_ace.specs.Ace.{AccessControlEntry};

    ghost Value = { AccessControlEntry };

    ghost view = { λ c. record c.ace.now {
      flags = c.flags;
      mask = c.mask;
      sid = unwrap_or (option_copied c.sid) c.ace.now.sid;
    } };

    ghost invariant = { λ c. (c.flags < 256) × (c.flags / 0x20 % 2 ≡ 0) × (c.mask < 2 ^ 32) };
}

impl<'a> ChangedAce<'a> {
    /// The ACE with these flags, without 0x20, this mask, and this SID in place of its own if there is one.
    pub fn new(ace: &'a AceView<'a>, flags: u8, mask: u32, sid: Option<&'a Sid>) -> ChangedAce<'a>
        requires { flags / 0x20 % 2 ≡ 0 }
        ensures { result ≡ record ace.now {
          flags = flags;
          mask = mask;
          sid = unwrap_or (option_copied sid.entry) ace.now.sid;
        } }
    {
        ChangedAce {
            ace,
            flags,
            mask,
            sid,
        }
    }

    /// What it does.
    pub(crate) fn kind(&self) -> AceKind
        ensures { result ≡ self.now.kind }
    {
        self.ace.kind()
    }

    /// Its flags (MS-DTYP 2.4.4.1).
    pub fn flags(&self) -> u8
        ensures { result ≡ self.now.flags }
    {
        self.flags
    }

    /// The written size in bytes.
    pub fn size(&self) -> u16
        ensures value { result ≡ ace_size self.now }
        ensures limits { IsAce self.now }
    {
        match self.sid {
            None => {
                // Its kind and GUIDs are those of an ACE.
                let _ = self.ace.kind();
                self.ace.size()
            }
            Some(sid) => self.with_sid(sid).size(),
        }
    }

    // With another SID it is made by value, since few ACEs get one.
    fn with_sid(&self, sid: &Sid) -> Ace
        ensures { result ≡ record self.now { sid = sid.now } }
    {
        Ace::new(
            self.ace.kind(),
            self.flags,
            self.mask,
            self.ace.object(),
            self.ace.inherited(),
            *sid,
        )
        .unwrap()
    }
}

// What comes before the GUIDs of an ACE with these flags and this mask.
#[inline(always)]
fn front_with(ace: &AceView<'_>, flags: u8, mask: u32) -> AceFront
    ensures { result ≡ ace_front (record ace.now { flags = flags; mask = mask }) }
{
    let present = object_flags(ace.object().is_some(), ace.inherited().is_some());
    AceFront::of_fields(ace.kind(), flags, ace.size(), mask, present)
}

// Appends it (MS-DTYP 2.4.4).
pub(crate) fn append_changed(buf: &mut SdBuf, ace: &ChangedAce<'_>)
    requires { length buf.old + 4 + ace_size ace.now ≤ CAPACITY }
    ensures { buf.new ≡ buf.old ++ ace_bytes ace.now }
{
    match ace.sid {
        None => {
            let front = front_with(ace.ace, ace.flags, ace.mask);
            buf.append_front(front.cells(), front.len());
            buf.append(ace.ace.body());
        }
        Some(sid) => {
            let made = ace.with_sid(sid);
            append_parts(buf, &made.parts());
        }
    }
}
