//! Security identifiers read in place: printed and named from the bytes that show them (MS-DTYP 2.4.2.2).
#![tactic(auto)]

mod sid_view;

pub use sid_view::SidView;
