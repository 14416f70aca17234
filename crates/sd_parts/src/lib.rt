//! The parts of a descriptor (MS-DTYP 2.4.6), their sizes, the header and its control word.
#![tactic(auto)]

mod control;
mod headers;
mod limits;
mod part;

pub use control::{
    AclFlags, CONTROL_BITS, ControlBit, DACL_PRESENT, SACL_PRESENT, SELF_RELATIVE, control_of,
    has_bit,
};
pub use headers::{DACL_OFFSET, GROUP_OFFSET, OWNER_OFFSET, SACL_OFFSET, header};
pub use limits::{
    ACL_HEADER_SIZE, ACL_REVISION, ACL_REVISION_DS, CAPACITY, HEADER_SIZE, MOST_ACL_SIZE,
    MOST_SID_SIZE, SID_HEADER_SIZE,
};
pub use part::{Part, Parts, SidPart, Which};
