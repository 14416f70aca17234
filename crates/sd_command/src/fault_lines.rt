//! The lines on the fault stream that name no option and no error.

/// The words are no job.
pub const USAGE_LINE: &str = "sdtool: usage\n";

/// There is no memory for what stands before the first read.
pub const NO_MEMORY_LINE: &str = "sdtool: no memory\n";
