//! The two-letter names of SIDs (MS-DTYP 2.5.1.1): their tables, and the entry of two letters and of a SID.
#![tactic(auto)]

mod lookup;
mod places;
mod table;

pub use lookup::{name_for, named_known, named_relative};
pub use table::{DOMAIN_RELATIVE, DomainRelative, MOST_KNOWN, WELL_KNOWN, WellKnown};
