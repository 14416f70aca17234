//! The fields of a line of SDDL (MS-DTYP 2.5.1), read one after the other into a descriptor in a buffer.
#![tactic(auto)]

mod fault;
mod kept;
mod name;
mod reading;
mod slot;

pub use fault::SddlFault;
pub use kept::KeptDomains;
pub use name::front_name;
pub use reading::{FieldReader, fault_of};
pub use slot::{AceField, Head, Slot, next_field};
