//! The arguments that a call can refuse.

ghost use Rattle.std.specs.Prelude.{◌≡◌};
ghost use Rattle.sd_call.specs.Outcomes.{argument_number};

/// An argument beside the text or the descriptor: `enum sdtool_argument` of the header.
#[derive(Clone, Copy)]
pub enum Argument {
    Domain,
    /// The SIDs of a token.
    Sids,
    /// The bytes beside the SIDs of a token.
    Entries,
    /// The GUID of an object type.
    Object,
    PrincipalSelf,
    /// The kind of object whose generic rights are meant.
    Mapping,
    Creator,
    Owner,
    Group,
    /// What is made in a folder.
    Kind,
    /// The number of a fault.
    Fault,
    Sid,
    /// The ACEs of a SACL.
    Sacl,
    /// The ACEs of a DACL.
    Dacl,
    /// The memory of a token.
    Token,
    /// The changes of an edit.
    Changes,
    /// The options of a request, or of who asks.
    Options,
    /// The bytes of an ACE.
    Ace,
    /// The flags of an ACE.
    Flags,
    /// A GUID.
    Guid,
    /// The offsets of a row, or the room for those of all answers.
    Offsets,
    /// What each row of a column is converted to.
    Conversion,
}

/// The number of an argument.
pub fn argument_number(argument: Argument) -> u32
    ensures { result ≡ argument_number argument }
{
    match argument {
        Argument::Domain => 1,
        Argument::Sids => 2,
        Argument::Entries => 3,
        Argument::Object => 4,
        Argument::PrincipalSelf => 5,
        Argument::Mapping => 6,
        Argument::Creator => 7,
        Argument::Owner => 8,
        Argument::Group => 9,
        Argument::Kind => 10,
        Argument::Fault => 11,
        Argument::Sid => 12,
        Argument::Sacl => 13,
        Argument::Dacl => 14,
        Argument::Token => 15,
        Argument::Changes => 16,
        Argument::Options => 17,
        Argument::Ace => 18,
        Argument::Flags => 19,
        Argument::Guid => 20,
        Argument::Offsets => 21,
        Argument::Conversion => 22,
    }
}
