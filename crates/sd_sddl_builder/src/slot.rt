//! The parts of an SDDL line, and what its fields are.

ghost use Rattle.std.specs.Prelude.{◌≡◌};
ghost use Rattle.sd_sddl_builder.specs.FoldedReading.{next_field};
ghost use Rattle.sd_sddl_builder.specs.Line.{part_of_head};

use sd_parts::{Part, SidPart, Which};

/// What a letter announces, with a colon after it.
#[derive(Clone, Copy)]
pub enum Head {
    Sid(SidPart),
    Acl(Which),
}

/// A field of an ACE.
#[derive(Clone, Copy)]
pub enum AceField {
    Kind,
    Flags,
    Rights,
    Object,
    Inherited,
    Sid,
}

/// What a field of a line is.
#[derive(Clone, Copy)]
pub enum Slot {
    /// An owner or a group.
    Sid(SidPart),
    /// The text of an ACL before its ACEs, and whether there are ACEs.
    AclFlags(Which, bool),
    /// A field of an ACE of the ACL at hand.
    Ace(AceField),
}

impl From<Head> for Part {
    ghost from_gives = { λ head part. part ≡ part_of_head head };

    fn from(head: Head) -> Part {
        match head {
            Head::Sid(part) => part.into(),
            Head::Acl(which) => which.into(),
        }
    }
}

/// The field after this one.
pub fn next_field(field: AceField) -> AceField
    ensures { result ≡ next_field field }
{
    match field {
        AceField::Kind => AceField::Flags,
        AceField::Flags => AceField::Rights,
        AceField::Rights => AceField::Object,
        AceField::Object => AceField::Inherited,
        AceField::Inherited | AceField::Sid => AceField::Sid,
    }
}
