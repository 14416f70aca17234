//! The calls of the library for C that convert descriptors and their parts, and say where the fault of one is.
#![tactic(auto)]

mod ace_texts;
mod conversions;
mod described;
mod ends;
mod field_texts;
mod many;
mod name;
mod part_text;
mod printing;
mod row;
mod sids;
mod told;

pub use ace_texts::{ace_from_text, ace_to_text};
pub use conversions::{explain_text, from_sddl, normalize, to_sddl, version};
pub use described::describe;
pub use field_texts::{
    NumberTold, flags_from_text, flags_to_text, guid_from_text, guid_to_text, rights_from_text,
    rights_to_text,
};
pub use many::{Conversion, LargeConversion, convert_many, convert_many_large};
pub use sids::{sid_from_text, sid_size, sid_to_text};
pub use told::{PlaceTold, place_told, sddl_place_told};
