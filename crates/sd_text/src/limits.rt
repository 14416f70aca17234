//! The limits that the code looks at; the definitions cite them from specs/Limits.antt.

/// The bytes that a field of SDDL has at most. The longest text of a SID has as many: `S-1-`, an authority in hex, and
/// 15 numbers of ten digits with a dash.
pub const MOST_FIELD_SIZE: usize = 183;

/// The sub-authorities that a SID has at most (MS-DTYP 2.4.2).
pub const MOST_SUBS: usize = 15;

/// The hex digits of a line at most: two for each of 131,226 bytes.
pub const MOST_HEX_TEXT: usize = 262_452;

/// The characters of a line of base64 at most: four for three of 131,226 bytes.
pub const MOST_BASE64_TEXT: usize = 174_968;

/// The bytes of a line of SDDL at most: eight for each of 131,226 bytes, and 64.
pub const MOST_SDDL_TEXT: usize = 1_049_872;
