//! The parts of a descriptor (MS-DTYP 2.4.6), and a value for each of them.

ghost use Rattle.std.specs.Prelude.{◌≡◌};
ghost use Rattle.sd_parts.specs.Parts.{each_part, get_part, part_of, set_part, sid_part_of};

/// A part of a descriptor, in the order of the written layout.
#[derive(Clone, Copy, Debug, PartialEq, Eq)]
pub enum Part {
    Owner,
    Group,
    Sacl,
    Dacl,
}

/// One of the two parts that are a SID.
#[derive(Clone, Copy, Debug, PartialEq, Eq)]
pub enum SidPart {
    Owner,
    Group,
}

/// One of the two ACLs.
#[derive(Clone, Copy, Debug, PartialEq, Eq)]
pub enum Which {
    Sacl,
    Dacl,
}

impl From<SidPart> for Part {
    ghost from_gives = { λ sid part. part ≡ sid_part_of sid };

    fn from(sid: SidPart) -> Part {
        match sid {
            SidPart::Owner => Part::Owner,
            SidPart::Group => Part::Group,
        }
    }
}

impl From<Which> for Part {
    ghost from_gives = { λ which part. part ≡ part_of which };

    fn from(which: Which) -> Part {
        match which {
            Which::Sacl => Part::Sacl,
            Which::Dacl => Part::Dacl,
        }
    }
}

/// A value for each part.
#[derive(Clone, Copy)]
pub struct Parts<T> {
    pub owner: T,
    pub group: T,
    pub sacl: T,
    pub dacl: T,
}

impl<T: Copy> Parts<T> {
    /// The same value for each part.
    pub fn each(value: T) -> Parts<T>
        ensures { result ≡ each_part value }
    {
        Parts {
            owner: value,
            group: value,
            sacl: value,
            dacl: value,
        }
    }

    /// The value for a part.
    pub fn get(&self, part: Part) -> T
        ensures { result ≡ get_part part self.now }
    {
        match part {
            Part::Owner => self.owner,
            Part::Group => self.group,
            Part::Sacl => self.sacl,
            Part::Dacl => self.dacl,
        }
    }

    /// Replaces the value for a part. Each field is set by itself, since which of four places a jump goes to is hard to
    /// predict.
    #[inline(always)]
    pub fn set(&mut self, part: Part, value: T)
        ensures { self.new ≡ set_part part value self.old }
    {
        self.owner = match part {
            Part::Owner => value,
            _ => self.owner,
        };
        self.group = match part {
            Part::Group => value,
            _ => self.group,
        };
        self.sacl = match part {
            Part::Sacl => value,
            _ => self.sacl,
        };
        self.dacl = match part {
            Part::Dacl => value,
            _ => self.dacl,
        };
    }
}
