//! What is made, and for whom.

use sd_rights::Mapping;
use sd_sid::Sid;

/// What is made in the container.
#[derive(Clone, Copy, Debug, PartialEq, Eq)]
pub enum Target {
    /// An object that holds no others.
    File,
    /// An object that hands on to what is made in it.
    Container,
}

/// What is made, for whom, and what its generic rights mean.
#[derive(Clone, Copy, Debug, PartialEq, Eq)]
pub struct Plan {
    pub target: Target,
    pub owner: Sid,
    pub group: Sid,
    pub mapping: Mapping,
}
