//! Where each name of two letters is in the tables of aliases. `make figures` writes this file from `table.rt`.

/// The letters from A to Z.
pub const LETTERS: usize = 26;

/// No name.
pub const NO: u8 = 255;

/// The place of the entry of each two capital letters, or `NO`. There are 26 cells for each first letter, and in them
/// one for each second letter. The entries of `WELL_KNOWN` have the first places, and those of `DOMAIN_RELATIVE` the
/// next ones.
pub const PLACES: [u8; LETTERS * LETTERS] = [
    39, NO, 41, NO, NO, NO, NO, NO, NO, NO, NO, NO, NO, 7, 21, 62, NO, NO, 47, NO, 10, NO, NO, NO,
    NO, NO, 17, NO, NO, NO, NO, NO, 19, NO, NO, NO, NO, NO, NO, NO, 24, NO, NO, NO, NO, NO, 18, NO,
    NO, NO, NO, NO, 57, NO, NO, 34, NO, NO, 2, NO, NO, NO, NO, NO, NO, 61, 1, NO, NO, NO, NO, NO,
    NO, NO, NO, NO, 32, NO, 52, NO, 55, 56, NO, NO, 54, NO, NO, NO, NO, NO, NO, NO, NO, NO, NO, NO,
    NO, NO, 53, NO, NO, NO, NO, NO, 59, NO, NO, 8, NO, NO, NO, NO, NO, NO, 64, NO, NO, NO, NO, NO,
    NO, 33, 36, NO, NO, NO, NO, NO, NO, NO, NO, NO, NO, NO, NO, NO, NO, NO, NO, NO, NO, NO, NO, NO,
    NO, NO, NO, NO, NO, NO, NO, NO, NO, NO, NO, NO, NO, NO, NO, NO, NO, NO, NO, NO, NO, NO, NO, NO,
    NO, NO, NO, NO, NO, NO, NO, NO, NO, NO, NO, NO, NO, NO, 38, NO, NO, NO, NO, NO, NO, NO, 45, NO,
    NO, NO, NO, NO, NO, NO, NO, NO, NO, NO, NO, NO, NO, NO, NO, NO, NO, NO, NO, NO, NO, NO, NO, NO,
    NO, NO, NO, NO, NO, NO, NO, NO, NO, NO, 31, NO, 5, NO, NO, NO, NO, NO, NO, NO, NO, NO, NO, NO,
    NO, NO, NO, NO, NO, NO, NO, NO, NO, NO, NO, NO, NO, NO, NO, NO, NO, NO, NO, NO, 63, NO, NO, NO,
    NO, NO, NO, NO, NO, NO, NO, NO, NO, NO, NO, NO, NO, NO, NO, NO, NO, NO, NO, NO, NO, NO, 50, NO,
    NO, NO, NO, NO, 51, NO, NO, NO, NO, NO, NO, NO, NO, NO, NO, NO, 13, NO, 30, NO, 42, NO, NO, NO,
    NO, NO, NO, NO, 43, NO, NO, NO, NO, NO, NO, NO, NO, NO, NO, 44, NO, NO, 37, NO, 29, NO, NO, NO,
    NO, NO, NO, NO, NO, NO, NO, NO, NO, NO, NO, NO, NO, NO, NO, NO, 28, NO, NO, NO, 14, NO, 4, NO,
    NO, NO, NO, NO, NO, NO, NO, NO, NO, NO, NO, NO, NO, NO, NO, NO, NO, NO, NO, NO, NO, NO, NO, NO,
    NO, NO, 3, NO, NO, NO, 60, NO, NO, NO, NO, NO, NO, NO, NO, NO, NO, NO, NO, NO, 23, NO, NO, NO,
    9, NO, 20, NO, NO, NO, NO, NO, NO, NO, NO, NO, NO, NO, NO, NO, NO, NO, NO, NO, NO, NO, NO, NO,
    NO, NO, NO, NO, NO, NO, NO, NO, NO, NO, 35, NO, 11, 27, 25, NO, NO, NO, NO, NO, NO, NO, 40, NO,
    49, NO, NO, NO, 65, NO, 26, NO, NO, NO, NO, NO, 58, NO, NO, NO, NO, NO, NO, NO, 46, NO, NO, NO,
    NO, NO, 22, NO, NO, NO, 48, NO, 6, NO, NO, NO, 12, NO, NO, NO, NO, NO, NO, NO, NO, NO, NO, NO,
    NO, NO, NO, NO, NO, NO, NO, NO, NO, NO, NO, NO, NO, NO, NO, NO, NO, NO, NO, 16, NO, NO, NO, NO,
    NO, NO, NO, NO, NO, NO, NO, NO, NO, NO, NO, NO, NO, NO, NO, NO, NO, NO, NO, NO, NO, NO, NO, NO,
    NO, NO, NO, NO, NO, NO, NO, NO, NO, NO, NO, NO, NO, NO, NO, NO, NO, NO, NO, NO, NO, NO, NO, 0,
    NO, NO, NO, NO, NO, NO, NO, NO, NO, NO, NO, NO, NO, 15, NO, NO, NO, NO, NO, NO, NO, NO, NO, NO,
    NO, NO, NO, NO, NO, NO, NO, NO, NO, NO, NO, NO, NO, NO, NO, NO, NO, NO, NO, NO, NO, NO, NO, NO,
    NO, NO, NO, NO, NO, NO, NO, NO, NO, NO, NO, NO, NO, NO, NO, NO, NO, NO, NO, NO, NO, NO, NO, NO,
    NO, NO, NO, NO, NO, NO, NO, NO, NO, NO, NO, NO, NO, NO, NO, NO, NO, NO, NO, NO, NO, NO, NO, NO,
    NO, NO, NO, NO,
];

/// What spreads SIDs over the cells: the entry of each SID in `WELL_KNOWN` has a cell of its own.
pub const SID_SPREAD: u64 = 0x1814_3722_4dc2_32a7;

/// The place of the entry of each SID, or `NO`, in the cell that its authority and last sub-authority give.
pub const SID_PLACES: [u8; 128] = [
    NO, NO, NO, NO, NO, NO, NO, NO, NO, 31, NO, 32, 0, NO, NO, NO, 33, 34, 35, 36, NO, 37, 38, 39,
    NO, 40, NO, NO, NO, 46, NO, NO, NO, NO, NO, NO, 1, 2, NO, NO, NO, 3, NO, NO, NO, NO, 43, NO,
    NO, NO, NO, NO, NO, 41, NO, NO, NO, NO, NO, NO, 16, NO, 4, NO, NO, 5, NO, 6, NO, 7, NO, 8, 9,
    NO, 10, 11, NO, NO, NO, NO, NO, NO, 12, NO, 13, 14, NO, NO, NO, 47, NO, 48, NO, NO, NO, NO, NO,
    NO, NO, NO, NO, 15, 45, NO, NO, NO, NO, 17, 18, NO, 19, 20, 21, 22, 44, 23, 24, 25, NO, 42, 26,
    27, 28, NO, NO, 29, 30, NO,
];
