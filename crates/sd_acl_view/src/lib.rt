//! ACLs and ACEs as bytes (MS-DTYP 2.4.4, 2.4.5), read in place.
#![tactic(auto)]

mod ace;
mod acl;
mod bytes;
mod fault;
mod written_acl;

pub use ace::{AceView, sid_offset};
pub use acl::{Aces, AclView, Written, acl_view, check_acl, front_ace};
pub use bytes::{u16_at, u32_at};
pub use fault::AclFault;
pub use written_acl::is_written;
