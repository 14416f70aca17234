//! The one layout of a descriptor (MS-DTYP 2.4.6), put, printed or written into a buffer; and descriptors that are
//! built in a buffer part by part.
#![tactic(auto)]

mod acl_layout;
mod append;
mod builder;
mod changed;
mod layout;
mod trustee;
mod written;

pub use acl_layout::acl_header;
pub use builder::{AclTooLarge, Builder};
pub use changed::ChangedAce;
pub use layout::{offsets_of, print_layout, put_layout};
pub use trustee::Trustee;
pub use written::write_layout;
