//! ACEs as values (MS-DTYP 2.4.4), and the GUIDs that object ACEs have (2.3.4).
#![tactic(auto)]

mod ace;
mod ace_front;
mod ace_head;
mod ace_parts;
mod guid;

pub use ace::{Ace, UNUSED_FLAG};
pub use ace_front::{AceFront, FRONT_SIZE, OBJECT_FRONT_SIZE, object_flags};
pub use ace_head::AceHead;
pub use ace_parts::{AceFields, AceParts};
pub use guid::{
    GUID_SIZE, GUID_TEXT_SIZE, guid_bytes, guid_from_text, guid_read, print_guid, put_guid,
};
