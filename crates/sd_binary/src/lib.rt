//! Self-relative security descriptors as bytes (MS-DTYP 2.4.6): read in place, written in one layout, decoded from hex
//! and base64, and built part by part in a buffer.
//!
//! What is in this descriptor?
//!
//! ```
//! use sd_binary::{AclPart, SdBuf, read};
//! use std::io;
//!
//! const TEXT: &[u8] = b"AQAEgAAAAAAAAAAAAAAAABQAAAACABwAAQAAAAAAFAD/AR8AAQEAAAAAAAEAAAAA";
//!
//! fn main(rt: HostRuntime) -> io::Result<()> {
//!     let Ok(mut buf) = SdBuf::new(rt.alloc()) else {
//!         return println!(rt; "out of memory");
//!     };
//!     if let Err(fault) = buf.from_base64(TEXT) {
//!         return println!(rt; "{fault:?}");
//!     }
//!     match read(buf.bytes()) {
//!         Ok(view) => {
//!             if let AclPart::List(acl) = view.dacl() {
//!                 for ace in acl.aces() {
//!                     println!(rt; "{:?} {:#x}", ace.kind(), ace.mask())?;
//!                 }
//!             }
//!             Ok(())
//!         }
//!         Err(fault) => println!(rt; "{fault:?}"),
//!     }
//! }
//! ```
//!
//! It prints:
//!
//! ```text
//! Allow 0x1f01ff
//! ```
//!
//! This crate re-exports the crates below it: `sd_parts`, `sd_acl_view`, `sd_view`, `sd_buffer` and
//! `sd_builder`.
#![tactic(auto)]

pub use sd_acl_view::{AceView, Aces, AclView};
pub use sd_buffer::{ByteBuf, Full, HexReader, SdBuf, TextBuf, TextFault};
pub use sd_builder::{AclTooLarge, Builder, print_layout, put_layout, write_layout};
pub use sd_parts::{AclFlags, CONTROL_BITS, ControlBit, Which};
pub use sd_view::{AclPart, Part, SdFault, SdView, read, view_written};
