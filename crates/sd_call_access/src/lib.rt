//! The calls of the library for C that check access, and derive descriptors.
#![tactic(auto)]

mod access;
mod asker;
mod bytes;
mod column_check;
mod derivations;
mod derived_many;
mod many;
mod origins;
mod reason;
mod request;
mod token;
mod token_memory;
mod verdict;
mod with_token;

pub use access::{check_access, check_without_token, verdict_on};
pub use asker::{AskInput, AskerInput, asker_in, check_asker};
pub use bytes::Bytes;
pub use column_check::{ColumnCheck, LargeColumnCheck};
pub use derivations::{NewObject, derive_new};
pub use derived_many::{Creation, Derivation, LargeDerivation, derive_many, derive_many_large};
pub use many::{check_column, check_many};
pub use origins::{MOST_DERIVED_ACES, OriginsOutcome, derive_origins};
pub use reason::{
    ReasonTold, explain_access, explain_with_token, explain_without_token, request_of, tell_none,
};
pub use request::{Asker, HAS_LEVEL, MAXIMUM, Request, SECURITY, TAKE_OWNERSHIP};
pub use sd_inherit::AceOrigin;
pub use token_memory::{read_token, token_held};
pub use verdict::{VerdictOutcome, told, untold};
pub use with_token::check_with_token;
