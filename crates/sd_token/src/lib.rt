//! Tokens (MS-DTYP 2.5.2): the SIDs of whoever asks for access.
#![tactic(auto)]

mod entries;
mod limits;
mod memory;
mod sought;
mod token;
mod words;

pub use limits::MOST_ENTRIES;
pub use memory::{Lent, Memory, Owned};
pub use token::{EntryKind, LentToken, Token, TokenFull, TokenIn};
pub use words::{ENTRY_WORDS, key_of, words_of};
