//! The table of options: their words, their values' names, their help, and the commands that have them.
ghost use Rattle.std.specs.Prelude.{◌≡◌};
ghost use Rattle.sd_command.specs.CommandLine.{option_rule, option_text, row_rule};
ghost use Rattle.sd_command.specs.FaultLines.{value_line};

/// The options of all commands. Each has its row in `OptionName::row`.
#[derive(Clone, Copy, Debug, PartialEq, Eq)]
pub enum OptionName {
    Domain,
    From,
    To,
    Numeric,
    Type,
    Kind,
    Owner,
    Group,
    Creator,
    Token,
    Want,
    Maximum,
    Object,
    PrincipalSelf,
    Security,
    TakeOwnership,
    Level,
}

/// What the program knows of an option.
#[derive(Clone, Copy)]
pub struct OptionRow {
    /// The word that names it, behind two dashes.
    pub name: &'static str,
    /// What help calls its value. A flag has none.
    pub value_name: Option<&'static str>,
    /// Whether the command needs it.
    pub required: bool,
    pub help: &'static str,
    /// The line on the fault stream for a value that is invalid.
    pub fault_line: &'static str,
}

macro_rules! row {
    ($name:literal, $value_name:expr, $required:literal, $help:literal) => {
        OptionRow {
            name: $name,
            value_name: $value_name,
            required: $required,
            help: $help,
            fault_line: concat!("sdtool: usage: --", $name, "\n"),
        }
    };
}

macro_rules! optional {
    ($name:literal, $value_name:literal, $help:literal) => {
        row!($name, Some($value_name), false, $help)
    };
}

macro_rules! required {
    ($name:literal, $value_name:literal, $help:literal) => {
        row!($name, Some($value_name), true, $help)
    };
}

macro_rules! flag {
    ($name:literal, $help:literal) => {
        row!($name, None, false, $help)
    };
}

impl OptionName {
    /// Its row of the table.
    pub fn row(self) -> OptionRow
        ensures rule { row_rule result ≡ option_rule self }
        ensures says { result.fault_line.now ≡ value_line self }
    {
        match self {
            OptionName::Domain => optional!(
                "domain",
                "SID",
                "SID of the domain, for aliases such as DA"
            ),
            OptionName::From => optional!(
                "from",
                "FORM",
                "Input format: hex (default), base64 or sddl"
            ),
            OptionName::To => optional!(
                "to",
                "FORM",
                "Output format: sddl (default), hex or base64"
            ),
            OptionName::Numeric => flag!("numeric", "Print SIDs as numbers, without aliases"),
            OptionName::Type => optional!("type", "TYPE", "Object type: file (default), key or ds"),
            OptionName::Kind => required!("kind", "KIND", "What is created: file or container"),
            OptionName::Owner => required!("owner", "SID", "SID of the new object's owner"),
            OptionName::Group => required!("group", "SID", "SID of the new object's group"),
            OptionName::Creator => optional!(
                "creator",
                "SDDL",
                "Descriptor that the creator provides, in SDDL"
            ),
            OptionName::Token => required!(
                "token",
                "SID,..",
                "SIDs of the token, separated by commas; a ! before a SID makes it deny-only"
            ),
            OptionName::Want => optional!("want", "RIGHTS", "Rights to ask for, as in SDDL"),
            OptionName::Maximum => flag!("maximum", "Ask for all rights that are granted"),
            OptionName::Object => optional!("object", "GUID", "GUID of the object type to ask for"),
            OptionName::PrincipalSelf => optional!(
                "self",
                "SID",
                "SID that PRINCIPAL SELF stands for"
            ),
            OptionName::Security => flag!("security", "The token holds SeSecurityPrivilege"),
            OptionName::TakeOwnership => flag!(
                "take-ownership",
                "The token holds SeTakeOwnershipPrivilege"
            ),
            OptionName::Level => optional!(
                "level",
                "NUMBER",
                "Integrity level of the token, such as 8192 for Medium"
            ),
        }
    }

    /// The word that names it, behind two dashes.
    pub fn text(self) -> &'static str
        ensures { result.now ≡ option_text self }
    {
        self.row().name
    }
}

// The options of each command, in the order of its help.
pub(crate) const CONVERT_OPTIONS: [OptionName; 4] = [
    OptionName::From,
    OptionName::To,
    OptionName::Domain,
    OptionName::Numeric,
];

pub(crate) const EXPLAIN_OPTIONS: [OptionName; 3] = [
    OptionName::From,
    OptionName::Domain,
    OptionName::Numeric,
];

pub(crate) const CHECK_OPTIONS: [OptionName; 11] = [
    OptionName::From,
    OptionName::Domain,
    OptionName::Token,
    OptionName::Want,
    OptionName::Maximum,
    OptionName::Type,
    OptionName::Object,
    OptionName::PrincipalSelf,
    OptionName::Security,
    OptionName::TakeOwnership,
    OptionName::Level,
];

pub(crate) const DERIVE_OPTIONS: [OptionName; 9] = [
    OptionName::From,
    OptionName::To,
    OptionName::Domain,
    OptionName::Numeric,
    OptionName::Kind,
    OptionName::Owner,
    OptionName::Group,
    OptionName::Type,
    OptionName::Creator,
];
