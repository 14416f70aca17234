//! The fields of a line of SDDL (MS-DTYP 2.5.1.1): the text of a field as its bytes come, and readers of the fields
//! that only SDDL has. `sd_sid`, `sd_kinds`, `sd_rights` and `sd_ace` read SIDs, kinds, flags, access rights and GUIDs.
#![tactic(auto)]

mod field_text;
mod field_texts;
mod plain;
mod whole_ace;

pub use field_text::FieldText;
pub use field_texts::{AclFront, NO_FLAGS, front_from_text, object_from_text};
pub use plain::{is_blank, is_plain_inside, is_plain_text, plain_inside, plain_text};
pub use whole_ace::{after, behind, front_flags, front_kind, front_objects, front_rights};
