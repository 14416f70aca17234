//! Descriptors that are edited, one change after the other.
#![tactic(auto)]

mod acl;
mod change;
mod edited;
mod making;
mod matching;
mod rank;
mod setting;

pub use acl::{acl_size, change_list, ordered};
pub use change::{AclChange, AclState, Change, ListChange, Place};
pub use edited::{ChangeFault, Edited, EditedAcl};
pub use making::edit;
pub use matching::Match;
pub use rank::{Order, rank_of};
pub use setting::Setting;
