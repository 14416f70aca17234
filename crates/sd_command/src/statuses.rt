//! The exit statuses.

/// Every line was answered.
pub const ANSWERED_STATUS: u8 = 0;

/// Every line was answered, some by `error` lines.
pub const FAULTY_STATUS: u8 = 1;

/// The words are no job.
pub const USAGE_STATUS: u8 = 2;

/// A read or a write failed, or there were too many reads.
pub const FAILED_STATUS: u8 = 3;

/// There is no memory for what stands before the first read.
pub const NO_MEMORY_STATUS: u8 = 4;
