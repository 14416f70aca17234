//! The flags that most ACEs have. `make figures` writes this file by `tools/usual_texts.py`.

use sd_sink::FRONT;
use sd_text::USUAL_ROWS;

/// The rows of the texts that are printed: flags below 0x20 are their own row.
pub const FLAG_ROWS: usize = 32;

/// The key of each text.
pub static USUAL_FLAG_KEYS: [u64; USUAL_ROWS] = [
    0x0,
    0x4449000000000000,
    0x0,
    0x0,
    0x0,
    0x0,
    0x0,
    0x41464943494f0000,
    0x0,
    0x494f000000000000,
    0x0,
    0x0,
    0x4153000000000000,
    0x0,
    0x0,
    0x504e4943494f0000,
    0x4f494943494f0000,
    0x0,
    0x0,
    0x0,
    0x0,
    0x0,
    0x44494943494f0000,
    0x0,
    0x0,
    0x0,
    0x4943494f00000000,
    0x0,
    0x0,
    0x4943000000000000,
    0x0,
    0x0,
    0x0,
    0x41534943494f0000,
    0x4146494300000000,
    0x414641534943494f,
    0x0,
    0x4146415349430000,
    0x44494f49494f0000,
    0x44494f494943494f,
    0x0,
    0x44494f4949430000,
    0x504e494300000000,
    0x4f49494300000000,
    0x0,
    0x0,
    0x0,
    0x0,
    0x0,
    0x4449494300000000,
    0x4146000000000000,
    0x0,
    0x0,
    0x0,
    0x0,
    0x504e494f00000000,
    0x0,
    0x4f49494f00000000,
    0x0,
    0x0,
    0x4153494300000000,
    0x4146415300000000,
    0x4449494f00000000,
    0x0,
];

/// The size of each text in bytes.
pub static USUAL_FLAG_SIZES: [u8; USUAL_ROWS] = [
    0, 2, 0, 0, 0, 0, 0, 6, 0, 2, 0, 0, 2, 0, 0, 6, 6, 0, 0, 0, 0, 0, 6, 0, 0, 0, 4, 0, 0, 2, 0, 0,
    0, 6, 4, 8, 0, 6, 6, 8, 0, 6, 4, 4, 0, 0, 0, 0, 0, 4, 2, 0, 0, 0, 0, 4, 0, 4, 0, 0, 4, 4, 4, 0,
];

/// What each text means.
pub static USUAL_FLAG_VALUES: [u8; USUAL_ROWS] = [
    0x0, 0x10, 0x0, 0x0, 0x0, 0x0, 0x0, 0x83, 0x0, 0x1, 0x0, 0x0, 0x40, 0x0, 0x0, 0x7, 0xb, 0x0,
    0x0, 0x0, 0x0, 0x0, 0x13, 0x0, 0x0, 0x0, 0x3, 0x0, 0x0, 0x2, 0x0, 0x0, 0x0, 0x43, 0x82, 0xc3,
    0x0, 0xc2, 0x19, 0x1b, 0x0, 0x1a, 0x6, 0xa, 0x0, 0x0, 0x0, 0x0, 0x0, 0x12, 0x80, 0x0, 0x0, 0x0,
    0x0, 0x5, 0x0, 0x9, 0x0, 0x0, 0x42, 0xc0, 0x11, 0x0,
];

/// The text of the flags of each number below 0x20, in cells that have blanks behind it.
pub static PRINTED_FLAG_TEXTS: [[u8; FRONT]; FLAG_ROWS] = [
    *b"                ",
    *b"OI              ",
    *b"CI              ",
    *b"OICI            ",
    *b"NP              ",
    *b"OINP            ",
    *b"CINP            ",
    *b"OICINP          ",
    *b"IO              ",
    *b"OIIO            ",
    *b"CIIO            ",
    *b"OICIIO          ",
    *b"NPIO            ",
    *b"OINPIO          ",
    *b"CINPIO          ",
    *b"OICINPIO        ",
    *b"ID              ",
    *b"OIID            ",
    *b"CIID            ",
    *b"OICIID          ",
    *b"NPID            ",
    *b"OINPID          ",
    *b"CINPID          ",
    *b"OICINPID        ",
    *b"IOID            ",
    *b"OIIOID          ",
    *b"CIIOID          ",
    *b"OICIIOID        ",
    *b"NPIOID          ",
    *b"OINPIOID        ",
    *b"CINPIOID        ",
    *b"OICINPIOID      ",
];

/// The size of each of these texts in bytes.
pub static PRINTED_FLAG_SIZES: [u8; FLAG_ROWS] = [
    0, 2, 2, 4, 2, 4, 4, 6, 2, 4, 4, 6, 4, 6, 6, 8, 2, 4, 4, 6, 4, 6, 6, 8, 4, 6, 6, 8, 6, 8, 8, 10,
];
