//! The kinds of ACEs and their flags (MS-DTYP 2.4.4.1), with their bytes and their names in SDDL.
#![tactic(auto)]

mod flag_cells;
mod flag_texts;
mod flags;
mod kinds;

pub use flags::{
    CONTAINER_INHERIT, FAILED_ACCESS, INHERIT_ONLY, INHERITED, NO_PROPAGATE, OBJECT_INHERIT,
    ONWARD, SUCCESSFUL_ACCESS, flags_from_text, has_flag, print_flags, put_flags, usual_flags,
};
pub use kinds::AceKind;
