//! The call of the library for C that builds descriptors.
#![tactic(auto)]

mod build;
mod layout;
mod new;
mod printing;
mod reading;
mod sizes;

pub use build::{build_descriptor, whole_size};
pub use new::{NewAce, NewAcl, NewDescriptor};
pub use printing::{print_ace, print_sid_part};
pub use sizes::sid_part_size;
