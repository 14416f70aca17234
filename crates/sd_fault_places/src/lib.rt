//! Where the first fault of some bytes (MS-DTYP 2.4.6), or of a text of SDDL (MS-DTYP 2.5.1), is.
#![tactic(auto)]

mod binary;
mod binary_aces;
mod cutting;
mod fields;
mod numbers;
mod parts;
mod place;
mod sddl;
mod sddl_aces;
mod shape;

pub use binary::place_of_fault;
pub use place::{ByteRange, FaultPlace, Field};
pub use sddl::place_of_sddl_fault;
