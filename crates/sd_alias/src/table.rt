//! The two-letter names of SIDs (MS-DTYP 2.5.1.1), and what they mean (2.4.2.4).

ghost use Rattle.std.specs.Prelude.{◌≡◌, take};

/// The sub-authorities that the SID of a name has at most.
pub const MOST_KNOWN: usize = 6;

/// A name, and the SID that it means everywhere.
#[derive(Clone, Copy)]
pub struct WellKnown {
    pub first: u8,
    pub second: u8,
    pub authority: u8,
    /// The first `count` are its sub-authorities.
    pub subs: [u32; MOST_KNOWN],
    pub count: usize,
}

impl WellKnown {
    /// The sub-authorities of its SID.
    #[inline(always)]
    pub fn sub_authorities(&self) -> &[u32]
        ensures { result.now ≡ take self.now.count self.now.subs }
    {
        &self.subs[..self.count.min(MOST_KNOWN)]
    }
}

/// A name, and the last sub-authority of the SID that it means in a domain.
#[derive(Clone, Copy)]
pub struct DomainRelative {
    pub first: u8,
    pub second: u8,
    pub last: u32,
}

// A line of the first table: the sub-authorities, and zeros up to six.
macro_rules! known {
    ($first:literal, $second:literal, $authority:literal, $count:literal, $subs:expr) => {
        WellKnown {
            first: $first,
            second: $second,
            authority: $authority,
            subs: $subs,
            count: $count,
        }
    };
}

macro_rules! relative {
    ($first:literal, $second:literal, $last:literal) => {
        DomainRelative {
            first: $first,
            second: $second,
            last: $last,
        }
    };
}

/// The names that mean one SID everywhere (MS-DTYP 2.4.2.4).
pub const WELL_KNOWN: [WellKnown; 49] = [
    known!(b'W', b'D', 1, 1, [0, 0, 0, 0, 0, 0]),
    known!(b'C', b'O', 3, 1, [0, 0, 0, 0, 0, 0]),
    known!(b'C', b'G', 3, 1, [1, 0, 0, 0, 0, 0]),
    known!(b'O', b'W', 3, 1, [4, 0, 0, 0, 0, 0]),
    known!(b'N', b'U', 5, 1, [2, 0, 0, 0, 0, 0]),
    known!(b'I', b'U', 5, 1, [4, 0, 0, 0, 0, 0]),
    known!(b'S', b'U', 5, 1, [6, 0, 0, 0, 0, 0]),
    known!(b'A', b'N', 5, 1, [7, 0, 0, 0, 0, 0]),
    known!(b'E', b'D', 5, 1, [9, 0, 0, 0, 0, 0]),
    known!(b'P', b'S', 5, 1, [10, 0, 0, 0, 0, 0]),
    known!(b'A', b'U', 5, 1, [11, 0, 0, 0, 0, 0]),
    known!(b'R', b'C', 5, 1, [12, 0, 0, 0, 0, 0]),
    known!(b'S', b'Y', 5, 1, [18, 0, 0, 0, 0, 0]),
    known!(b'L', b'S', 5, 1, [19, 0, 0, 0, 0, 0]),
    known!(b'N', b'S', 5, 1, [20, 0, 0, 0, 0, 0]),
    known!(b'W', b'R', 5, 1, [33, 0, 0, 0, 0, 0]),
    known!(b'U', b'D', 5, 6, [84, 0, 0, 0, 0, 0]),
    known!(b'B', b'A', 5, 2, [32, 544, 0, 0, 0, 0]),
    known!(b'B', b'U', 5, 2, [32, 545, 0, 0, 0, 0]),
    known!(b'B', b'G', 5, 2, [32, 546, 0, 0, 0, 0]),
    known!(b'P', b'U', 5, 2, [32, 547, 0, 0, 0, 0]),
    known!(b'A', b'O', 5, 2, [32, 548, 0, 0, 0, 0]),
    known!(b'S', b'O', 5, 2, [32, 549, 0, 0, 0, 0]),
    known!(b'P', b'O', 5, 2, [32, 550, 0, 0, 0, 0]),
    known!(b'B', b'O', 5, 2, [32, 551, 0, 0, 0, 0]),
    known!(b'R', b'E', 5, 2, [32, 552, 0, 0, 0, 0]),
    known!(b'R', b'U', 5, 2, [32, 554, 0, 0, 0, 0]),
    known!(b'R', b'D', 5, 2, [32, 555, 0, 0, 0, 0]),
    known!(b'N', b'O', 5, 2, [32, 556, 0, 0, 0, 0]),
    known!(b'M', b'U', 5, 2, [32, 558, 0, 0, 0, 0]),
    known!(b'L', b'U', 5, 2, [32, 559, 0, 0, 0, 0]),
    known!(b'I', b'S', 5, 2, [32, 568, 0, 0, 0, 0]),
    known!(b'C', b'Y', 5, 2, [32, 569, 0, 0, 0, 0]),
    known!(b'E', b'R', 5, 2, [32, 573, 0, 0, 0, 0]),
    known!(b'C', b'D', 5, 2, [32, 574, 0, 0, 0, 0]),
    known!(b'R', b'A', 5, 2, [32, 575, 0, 0, 0, 0]),
    known!(b'E', b'S', 5, 2, [32, 576, 0, 0, 0, 0]),
    known!(b'M', b'S', 5, 2, [32, 577, 0, 0, 0, 0]),
    known!(b'H', b'A', 5, 2, [32, 578, 0, 0, 0, 0]),
    known!(b'A', b'A', 5, 2, [32, 579, 0, 0, 0, 0]),
    known!(b'R', b'M', 5, 2, [32, 580, 0, 0, 0, 0]),
    known!(b'A', b'C', 15, 2, [2, 1, 0, 0, 0, 0]),
    known!(b'L', b'W', 16, 1, [4096, 0, 0, 0, 0, 0]),
    known!(b'M', b'E', 16, 1, [8192, 0, 0, 0, 0, 0]),
    known!(b'M', b'P', 16, 1, [8448, 0, 0, 0, 0, 0]),
    known!(b'H', b'I', 16, 1, [12288, 0, 0, 0, 0, 0]),
    known!(b'S', b'I', 16, 1, [16384, 0, 0, 0, 0, 0]),
    known!(b'A', b'S', 18, 1, [1, 0, 0, 0, 0, 0]),
    known!(b'S', b'S', 18, 1, [2, 0, 0, 0, 0, 0]),
];

/// The names that mean a SID in each domain, by its last sub-authority (MS-DTYP 2.4.2.4).
pub const DOMAIN_RELATIVE: [DomainRelative; 17] = [
    relative!(b'R', b'O', 498),
    relative!(b'L', b'A', 500),
    relative!(b'L', b'G', 501),
    relative!(b'D', b'A', 512),
    relative!(b'D', b'U', 513),
    relative!(b'D', b'G', 514),
    relative!(b'D', b'C', 515),
    relative!(b'D', b'D', 516),
    relative!(b'C', b'A', 517),
    relative!(b'S', b'A', 518),
    relative!(b'E', b'A', 519),
    relative!(b'P', b'A', 520),
    relative!(b'C', b'N', 522),
    relative!(b'A', b'P', 525),
    relative!(b'K', b'A', 526),
    relative!(b'E', b'K', 527),
    relative!(b'R', b'S', 553),
];
