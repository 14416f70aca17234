//! The values that every layer of `sdtool` uses: security identifiers (MS-DTYP 2.4.2), ACEs (2.4.4), access masks
//! (2.4.3), GUIDs (2.3.4), tokens (2.5.2), and the sinks that texts are written to.
//!
//! Does the generic right `GA` of Administrators let them change a file's DACL?
//!
//! ```
//! use sd_core::{Mapping, Sid, WRITE_DAC, has_right, rights_from_text};
//! use std::io;
//!
//! fn main(rt: HostRuntime) -> io::Result<()> {
//!     match (Sid::from_text(b"BA", None), rights_from_text(b"GA")) {
//!         (Ok(sid), Some(rights)) => {
//!             let mask = Mapping::FILE.map(rights);
//!             let may = has_right(mask, WRITE_DAC);
//!             println!(rt; "{} {:?}: {mask:#x} {may}", sid.authority(), sid.subs())
//!         }
//!         (sid, rights) => println!(rt; "{sid:?} {rights:?}"),
//!     }
//! }
//! ```
//!
//! It prints:
//!
//! ```text
//! 5 [32, 544]: 0x1f01ff true
//! ```
//!
//! This crate re-exports the crates below it: `sd_sink`, `sd_text`, `sd_kinds`, `sd_rights`, `sd_sid`, `sd_ace`
//! and `sd_token`.
#![tactic(auto)]

pub use sd_ace::{
    Ace, GUID_TEXT_SIZE, UNUSED_FLAG, guid_bytes, guid_from_text, guid_read, print_guid, put_guid,
};
pub use sd_kinds::{
    AceKind, CONTAINER_INHERIT, FAILED_ACCESS, INHERIT_ONLY, INHERITED, NO_PROPAGATE,
    OBJECT_INHERIT, SUCCESSFUL_ACCESS, flags_from_text, has_flag, print_flags, put_flags,
};
pub use sd_rights::{
    ACCESS_SYSTEM_SECURITY, DELETE, GENERIC_ALL, GENERIC_EXECUTE, GENERIC_READ, GENERIC_WRITE,
    MAXIMUM_ALLOWED, Mapping, READ_CONTROL, SYNCHRONIZE, WRITE_DAC, WRITE_OWNER, has_right,
    print_rights, put_rights, rights_from_text,
};
pub use sd_sid::{Naming, Sid, SidFault};
pub use sd_sink::{Gather, NoMemory, Print, Printer, Sink, SinkFault};
pub use sd_text::{print_decimal, print_hex, print_hex_number};
pub use sd_token::{EntryKind, Token, TokenFull};
