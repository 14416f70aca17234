//! Access rights (MS-DTYP 2.4.3): their names in SDDL, and what the generic ones mean.
#![tactic(auto)]

mod access_rights;
mod mapping;
mod mask_fronts;
mod mask_texts;
mod right_cells;
mod rights;
mod rights_reading;
mod rights_table;

pub use access_rights::{
    ACCESS_SYSTEM_SECURITY, ALL_RIGHTS, BELOW_SYSTEM_SECURITY, DELETE, FIRST_RESERVED, GENERIC_ALL,
    GENERIC_EXECUTE, GENERIC_READ, GENERIC_RIGHTS, GENERIC_WRITE, MAXIMUM_ALLOWED, READ_CONTROL,
    SECOND_RESERVED, SYNCHRONIZE, WRITE_DAC, WRITE_OWNER, has_right,
};
pub use mapping::{Mapping, mask_if};
pub use mask_fronts::front_mask;
pub use rights::{is_label, print_rights, put_rights};
pub use rights_reading::rights_from_text;
