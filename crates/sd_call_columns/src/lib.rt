//! What the calls of the library for C that answer the rows of a column share: columns as a caller lays them out, and
//! answers that are a column again.
#![tactic(auto)]

mod answers;
mod column;
mod ends;
mod room;

pub use answers::{AnswersRows, Rows, answer_rows, answer_rows_large};
pub use column::{LargeColumn, MOST_SMALL, SmallColumn, offset_count};
pub use room::{Room, has_room};
