//! The calls of the library for C that edit descriptors, and say whether their ACLs are in order.
#![tactic(auto)]

mod change_in;
mod edit;
mod input;
mod layout;
mod order;

pub use edit::edit_descriptor;
pub use input::ChangeInput;
pub use order::{OrderTold, order_of};
