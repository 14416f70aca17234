//! The limit of a token; the definitions cite it from specs/Limits.antt.

/// The entries that a token has at most.
pub const MOST_ENTRIES: usize = 1024;
