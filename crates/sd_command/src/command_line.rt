//! The command line: its commands, with the options of the table.
ghost use Rattle.std.specs.Prelude.{◌≡◌, IfOk, false};
ghost use Rattle.clap.specs.Words.{app_of, new_app, rule_of, with_subcommand};
ghost use Rattle.clap.specs.declared.builder.command.Command.TheViews.{out-Command};
ghost use Rattle.sd_command.specs.CommandLine.{bare_line, line, row_rule, with_options};
ghost use Rattle.sd_command.specs.Inner.Building.{IsBuilt};

use crate::options::{
    CHECK_OPTIONS, CONVERT_OPTIONS, DERIVE_OPTIONS, EXPLAIN_OPTIONS, OptionName, OptionRow,
};
use clap::{Arg, ArgAction, Command};
use std::alloc::{AllocError, Global};

/// What the program reads and writes: shown below its help.
const STREAMS: &str =
    "Reads one descriptor per line from standard input and writes one answer per line to standard
output, in the same order. A line that is not a valid descriptor gets an error line as its answer.

Exit status: 0 if every line was answered, 1 if some answers are error lines, 2 if the command line
is wrong, 3 if input or output failed, 4 if memory ran out before the first read. A denied access
check is an answer, so its status is 0.";

// The help of each command ends with an example.
const CONVERT_EXAMPLE: &str = "Example: echo 'D:(A;;FA;;;WD)' | sdtool convert --from sddl --to hex
See 'sdtool --help' for input, output and exit status.";

const EXPLAIN_EXAMPLE: &str = "Example: echo 'D:(A;;FA;;;WD)' | sdtool explain --from sddl
See 'sdtool --help' for input, output and exit status.";

const CHECK_EXAMPLE: &str =
    "Example: echo 'D:(A;;FA;;;BU)' | sdtool check --from sddl --token WD,AU,BU --want FR
See 'sdtool --help' for input, output and exit status.";

const DERIVE_EXAMPLE: &str =
    "Example: echo 'D:(A;OICI;FA;;;CO)' | sdtool derive --from sddl --kind file --owner BA --group SY
See 'sdtool --help' for input, output and exit status.";

/// The command line of the program.
pub fn command_line<'a>(alloc: Global) -> Result<Command<'a>, AllocError>
    ensures { IfOk result (λ c. app_of c ≡ line) }
{
    let convert = named(
        alloc,
        "convert",
        "Print each descriptor in hex, base64 or SDDL",
        CONVERT_EXAMPLE,
    );
    let explain = named(
        alloc,
        "explain",
        "Print the contents of each descriptor, one item per line",
        EXPLAIN_EXAMPLE,
    );
    let check = named(
        alloc,
        "check",
        "Print what each descriptor grants to a token",
        CHECK_EXAMPLE,
    );
    let derive = named(
        alloc,
        "derive",
        "Print the descriptor of a new object inside each container",
        DERIVE_EXAMPLE,
    );
    let line = with_command(alloc, bare_line(alloc), convert, &CONVERT_OPTIONS)?;
    let line = with_command(alloc, line, explain, &EXPLAIN_OPTIONS)?;
    let line = with_command(alloc, line, check, &CHECK_OPTIONS)?;
    with_command(alloc, line, derive, &DERIVE_OPTIONS)
}

fn bare_line<'a>(alloc: Global) -> Command<'a>
    ensures { app_of result ≡ bare_line }
{
    Command::new(alloc, "sdtool")
        .about("Convert, explain, check and derive Windows security descriptors, one per line")
        .after_help(STREAMS)
        .subcommand_required(true)
}

// A command without options.
fn named<'a>(alloc: Global, name: &'a str, about: &'a str, example: &'a str) -> Command<'a>
    ensures app { app_of result ≡ new_app name.entry.now }
    ensures local { (out-Command result).has_globals ≡ false }
{
    Command::new(alloc, name).about(about).after_help(example)
}

// The line with one command more, which gets its options first.
fn with_command<'a>(
    alloc: Global,
    line: Command<'a>,
    command: Command<'a>,
    options: &[OptionName],
) -> Result<Command<'a>, AllocError>
    requires local { (out-Command command).has_globals ≡ false }
    ensures { IfOk result (λ c. app_of c
        ≡ with_subcommand (app_of line.entry) (with_options (app_of command.entry) options.now).top) }
{
    line.subcommand(with_each(alloc, command, options)?)
}

fn with_each<'a>(
    alloc: Global,
    mut command: Command<'a>,
    options: &[OptionName],
) -> Result<Command<'a>, AllocError>
    requires local { (out-Command command).has_globals ≡ false }
    ensures { IsBuilt (with_options (app_of command.entry) options.now) result }
{
    for option in options {
        command = command.arg(argument(alloc, option.row()))?;
    }
    Ok(command)
}

fn argument<'a>(alloc: Global, row: OptionRow) -> Arg<'a>
    ensures rule { rule_of result ≡ row_rule row }
    ensures local { result.global ≡ false }
{
    let named = Arg::new(alloc, row.name)
        .long(row.name)
        .required(row.required)
        .help(row.help);
    match row.value_name {
        Some(value_name) => named.action(ArgAction::Set).value_name(value_name),
        None => named.action(ArgAction::SetTrue),
    }
}
