//! What a change is spelled by.

ghost use Rattle.std.specs.Prelude.{◌≡◌};
ghost use Rattle.std.specs.List.{list_all};
ghost use Rattle.sd_call_edit.specs.Input.{has_no_byte, has_no_guid, has_no_number, has_no_sid, is_nothing, is_zero};

use sd_parts::MOST_SID_SIZE;

/// A change: `struct sdtool_change` of the header.
#[repr(C)]
#[derive(Clone, Copy)]
pub struct ChangeInput {
    pub kind: u32,
    /// The ACL that is changed.
    pub part: u32,
    /// The place of an ACE.
    pub place: u32,
    /// Which of kind and mask are compared.
    pub compare: u32,
    /// The access mask of a new ACE, or the one that is compared.
    pub mask: u32,
    pub set_mask: u32,
    pub clear_mask: u32,
    pub set_control: u16,
    pub clear_control: u16,
    /// The type byte of a new ACE, or the one that is compared.
    pub ace_kind: u8,
    /// The flags of a new ACE, or those that are compared.
    pub flags: u8,
    /// Which flags are compared.
    pub flags_mask: u8,
    pub set_flags: u8,
    pub clear_flags: u8,
    /// What the ACL becomes.
    pub state: u8,
    /// What is said of the object types: nothing, that there is none, or which it is.
    pub object_type_use: u8,
    pub inherited_object_type_use: u8,
    pub object_type: [u8; 16],
    pub inherited_object_type: [u8; 16],
    /// The SID of a new ACE, the one that is compared, or the owner or group, and zeros behind it.
    pub sid: [u8; MOST_SID_SIZE],
    pub set_sid: [u8; MOST_SID_SIZE],
}

impl ChangeInput {
    /// Whether each member is 0.
    #[tactic(auto, unfolding(crate::specs::Input::is_nothing))]
    pub fn is_nothing(&self) -> bool
        ensures { result ≡ is_nothing self.now }
    {
        self.has_no_number() && self.has_no_byte() && self.has_no_guid() && self.has_no_sid()
    }

    fn has_no_number(&self) -> bool
        ensures { result ≡ has_no_number self.now }
    {
        let places = self.kind | self.part | self.place | self.compare;
        let masks = self.mask | self.set_mask | self.clear_mask;
        places | masks == 0 && self.set_control | self.clear_control == 0
    }

    fn has_no_byte(&self) -> bool
        ensures { result ≡ has_no_byte self.now }
    {
        let compared = self.ace_kind | self.flags | self.flags_mask;
        let given = self.set_flags | self.clear_flags | self.state;
        compared | given | self.object_type_use | self.inherited_object_type_use == 0
    }

    fn has_no_guid(&self) -> bool
        ensures { result ≡ has_no_guid self.now }
    {
        is_zero(&self.object_type) && is_zero(&self.inherited_object_type)
    }

    fn has_no_sid(&self) -> bool
        ensures { result ≡ has_no_sid self.now }
    {
        is_zero(&self.sid) && is_zero(&self.set_sid)
    }
}

/// Whether all of the bytes are 0.
pub fn is_zero(bytes: &[u8]) -> bool
    ensures { result ≡ is_zero bytes.now }
{
    bytes.iter().all(|byte| *byte == 0)
}
