//! What a change gives the ACEs that it is for.

ghost use Rattle.std.specs.Prelude.{◌≡◌, ◌/◌, ◌%◌};
ghost use Rattle.sd_edit.specs.Setting.{new_flags, new_mask, new_sid, with_bits, with_setting};

use sd_ace::{Ace, UNUSED_FLAG};
use sd_sid::Sid;

/// A SID, and bits of mask and flags to set and to clear.
#[derive(Clone, Copy)]
pub struct Setting {
    pub sid: Option<Sid>,
    pub set_mask: u32,
    pub clear_mask: u32,
    pub set_flags: u8,
    pub clear_flags: u8,
}

impl Setting {
    /// The ACE with these. Flag 0x20, which no ACE has, stays clear.
    pub fn given_to(&self, ace: &Ace) -> Ace
        ensures { result ≡ with_setting self.now ace.now }
    {
        // Its size shows that its GUIDs fit its kind.
        let _ = ace.size();
        Ace::new(
            ace.kind(),
            self.new_flags(ace.flags()),
            self.new_mask(ace.mask()),
            ace.object(),
            ace.inherited(),
            self.new_sid(ace.sid()),
        )
        .unwrap()
    }

    fn new_sid(&self, sid: Sid) -> Sid
        ensures { result ≡ new_sid self.now sid }
    {
        self.sid.unwrap_or(sid)
    }

    fn new_mask(&self, mask: u32) -> u32
        ensures { result ≡ new_mask self.now mask }
    {
        (mask - (mask & self.clear_mask)) | self.set_mask
    }

    fn new_flags(&self, flags: u8) -> u8
        ensures value { result ≡ new_flags self.now flags }
        ensures clear { result / 0x20 % 2 ≡ 0 }
    {
        let flags = (flags - (flags & self.clear_flags)) | self.set_flags;
        flags - flags / UNUSED_FLAG % 2 * UNUSED_FLAG
    }
}

/// A control word with bits set and cleared.
pub fn with_control_bits(set: u16, clear: u16, control: u16) -> u16
    ensures { result ≡ with_bits set clear control }
{
    (control - (control & clear)) | set
}
