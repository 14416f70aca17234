//! Security identifiers (MS-DTYP 2.4.2): their bytes, their texts and their aliases.
#![tactic(auto)]

mod account;
mod alias;
mod naming;
mod sid;
mod sid_text;
mod usual_sid;

pub use account::{Account, KeptDomain, front_account};
pub use naming::Naming;
pub use sid::Sid;
pub use sid_text::SidFault;

// For `sd_sid_view` alone, which prints and names SIDs where they are read.
pub use alias::{relative_alias, usable};
pub use sid_text::print_authority;
