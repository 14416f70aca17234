//! What the calls of the library for C share: what they hand back, and arguments as the values that they spell; and the
//! calls that say where the parts of a descriptor lie, and walk its ACLs.
#![tactic(auto)]

mod ace;
mod argument;
mod column;
mod contents;
mod counter;
mod fault_names;
mod input;
mod next;
mod outcome;
mod output;
mod place;
mod sid_bytes;
mod walk;

pub use ace::AceFound;
pub use argument::Argument;
pub use column::{Column, Offsets, row_at, row_count};
pub use contents::{AclPlace, Contents, parts_of};
pub use counter::Counter;
pub use fault_names::fault_text;
pub use input::{descriptor_in, domain_in, mapping_in, optional_sid_in, sid_in};
pub use next::{next_ace, read_ace};
pub use outcome::{CallFault, FaultNumber, Outcome, done, failed, no_memory, too_small};
pub use output::{Front, give, write_at};
pub use place::Place;
pub use sid_bytes::{give_sid, write_sid};
