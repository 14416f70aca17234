//! What the readers and printers of texts share: numbers in digits, and names of two letters for bits. It also has the
//! limits of texts and SIDs.
#![tactic(auto)]

mod digits;
mod limits;
mod names;
mod numbers;
mod usual;

pub use digits::{print_decimal, print_decimal_behind, print_hex, print_hex_number};
pub use limits::{MOST_BASE64_TEXT, MOST_FIELD_SIZE, MOST_HEX_TEXT, MOST_SDDL_TEXT, MOST_SUBS};
pub use names::{NameCells, NamedBits, capital, front_names, print_names, read_names};
pub use numbers::{front_decimal, read_number};
pub use usual::{USUAL_ROWS, usual_row};
