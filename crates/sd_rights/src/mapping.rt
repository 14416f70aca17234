//! What the generic rights of a mask mean (MS-DTYP 2.4.3).

ghost use Rattle.std.specs.Prelude.{◌≡◌, ◌≤◌, ◌<◌, ◌^◌};
ghost use Rattle.sd_rights.specs.Mapping.{IsMapping, mapped, mask_if};
ghost use Rattle.sd_rights.specs.MappingValues.{MappingValues};

use crate::access_rights::{GENERIC_ALL, GENERIC_EXECUTE, GENERIC_READ, GENERIC_WRITE, has_right};
use std::marker::Model;

// What the generic rights mean for files and folders.
const FILE_GENERIC_READ: u32 = 0x12_0089;

const FILE_GENERIC_WRITE: u32 = 0x12_0116;

const FILE_GENERIC_EXECUTE: u32 = 0x12_00a0;

const FILE_ALL_ACCESS: u32 = 0x1f_01ff;

// On registry keys.
const KEY_READ: u32 = 0x2_0019;

const KEY_WRITE: u32 = 0x2_0006;

const KEY_EXECUTE: u32 = 0x2_0019;

const KEY_ALL_ACCESS: u32 = 0xf_003f;

// On objects of a directory service.
const DS_GENERIC_READ: u32 = 0x2_0094;

const DS_GENERIC_WRITE: u32 = 0x2_0028;

const DS_GENERIC_EXECUTE: u32 = 0x2_0004;

const DS_GENERIC_ALL: u32 = 0xf_01ff;

/// The rights that the four generic rights mean for one kind of object. There are these three, and no
/// other can be made.
#[derive(Clone, Copy, Debug, PartialEq, Eq)]
pub struct Mapping {
    read: u32,
    write: u32,
    execute: u32,
    all: u32,
}

impl Model for Mapping {
    ghost use Rattle.sd_rights.specs.Mapping.{GenericMapping, IsMapping};

    ghost Value = { GenericMapping };

    ghost view = { λ m. record { read = m.read; write = m.write; execute = m.execute; all = m.all } };

    ghost invariant = { λ m. IsMapping (record { read = m.read; write = m.write; execute = m.execute; all = m.all }) };

    ghost inverse = { λ m. record { read = m.read; write = m.write; execute = m.execute; all = m.all } };
}

impl Mapping {
    /// Files and folders.
    pub const FILE: Mapping = Mapping {
        read: FILE_GENERIC_READ,
        write: FILE_GENERIC_WRITE,
        execute: FILE_GENERIC_EXECUTE,
        all: FILE_ALL_ACCESS,
    };

    /// Registry keys.
    pub const KEY: Mapping = Mapping {
        read: KEY_READ,
        write: KEY_WRITE,
        execute: KEY_EXECUTE,
        all: KEY_ALL_ACCESS,
    };

    /// Objects of a directory service.
    pub const DS: Mapping = Mapping {
        read: DS_GENERIC_READ,
        write: DS_GENERIC_WRITE,
        execute: DS_GENERIC_EXECUTE,
        all: DS_GENERIC_ALL,
    };

    /// The rights of GENERIC_READ.
    pub fn read(&self) -> u32
        ensures value { result ≡ self.now.read }
        ensures limits { IsMapping self.now }
    {
        self.read
    }

    /// The rights of GENERIC_WRITE.
    pub fn write(&self) -> u32
        ensures value { result ≡ self.now.write }
        ensures limits { IsMapping self.now }
    {
        self.write
    }

    /// The rights of GENERIC_EXECUTE.
    pub fn execute(&self) -> u32
        ensures value { result ≡ self.now.execute }
        ensures limits { IsMapping self.now }
    {
        self.execute
    }

    /// The rights of GENERIC_ALL.
    pub fn all(&self) -> u32
        ensures value { result ≡ self.now.all }
        ensures limits { IsMapping self.now }
    {
        self.all
    }

    /// The mask with each generic right replaced by the rights that it means.
    ///
    /// ```
    /// assert!(rt; Mapping::FILE.map(GENERIC_ALL) == 0x1f01ff);
    /// assert!(rt; Mapping::KEY.map(GENERIC_READ | DELETE) == 0x30019);
    /// ```
    #[tactic(auto, unfolding(crate::specs::Mapping::mapped, crate::specs::MappingValues::MappingValues))]
    pub fn map(&self, mask: u32) -> u32
        ensures value { result ≡ mapped self.now mask }
        ensures specific { result < 2 ^ 28 }
        // The three mappings have the values that MappingValues writes out.
        ensures values { MappingValues }
    {
        let all = mask_if(has_right(mask, GENERIC_ALL), self.all);
        let execute = mask_if(has_right(mask, GENERIC_EXECUTE), self.execute);
        let write = mask_if(has_right(mask, GENERIC_WRITE), self.write);
        let read = mask_if(has_right(mask, GENERIC_READ), self.read);
        mask % GENERIC_ALL | all | execute | write | read
    }
}

/// The mask if it is carried, else no right.
pub fn mask_if(carried: bool, mask: u32) -> u32
    ensures value { result ≡ mask_if carried mask }
    ensures most { result ≤ mask }
{
    if carried { mask } else { 0 }
}
