//! What the rows of a column are checked with, as a caller says it.

use crate::request::Request;
use sd_call_columns::{LargeColumn, SmallColumn};

/// Rows with offsets of 32 bits: `struct sdtool_column_check` of the header.
#[repr(C)]
#[derive(Clone, Copy)]
pub struct ColumnCheck<'a> {
    pub descriptors: SmallColumn<'a>,
    /// The SIDs of the token in binary, one after the other.
    pub sids: &'a [u8],
    /// A byte for each SID: 0 if it counts for each ACE, 1 if only for those that deny.
    pub entries: &'a [u8],
    /// The GUID of the object type, or nothing.
    pub object: &'a [u8],
    /// The SID of the principal in binary, or nothing.
    pub principal_self: &'a [u8],
    pub request: Request,
}

/// Rows with offsets of 64 bits: `struct sdtool_large_column_check` of the header.
#[repr(C)]
#[derive(Clone, Copy)]
pub struct LargeColumnCheck<'a> {
    pub descriptors: LargeColumn<'a>,
    /// The SIDs of the token in binary, one after the other.
    pub sids: &'a [u8],
    /// A byte for each SID: 0 if it counts for each ACE, 1 if only for those that deny.
    pub entries: &'a [u8],
    /// The GUID of the object type, or nothing.
    pub object: &'a [u8],
    /// The SID of the principal in binary, or nothing.
    pub principal_self: &'a [u8],
    pub request: Request,
}
