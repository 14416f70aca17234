//! Descriptors printed as SDDL (MS-DTYP 2.5.1).
#![tactic(auto)]

mod ace;
mod acl;
mod printed;
mod trustee;

pub use ace::print_ace;
pub use printed::{print_sddl, put_sddl};
