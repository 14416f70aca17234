//! What `clap` makes of the words.
ghost use Rattle.std.specs.Prelude.{◌≡◌, IfOk, IfErr, MatchResult, Ok, true, map, []};
ghost use Rattle.std.specs.String.{string_bytes};
ghost use Rattle.clap.specs.Words.{subcommand_of, subcommand_rows_of, takes, fault_of};
ghost use Rattle.sd_command.specs.CommandLine.{line};
ghost use Rattle.sd_command.specs.EarlyEnds.{AllowsEnd};
ghost use Rattle.sd_command.specs.declared.parse.EarlyEnd.TheVariants.{NoMemory};
ghost use Rattle.sd_command.specs.Inner.ErrorEnds.{IsEndFor, EndsFor};

use crate::command_line::command_line;
use clap::error::ErrorKind;
use clap::{ArgMatches, Error};
use std::alloc::{AllocError, Global};

/// What ends the program before it reads its input: a fault, or a request for help.
#[derive(Debug, Drop)]
pub enum EarlyEnd {
    NoMemory,
    /// The words are wrong.
    Usage,
    /// Help is asked for, and this is its text.
    Help(String),
}

impl From<AllocError> for EarlyEnd {
    ghost from_gives = { λ _ r. r ≡ NoMemory };

    fn from(_error: AllocError) -> EarlyEnd {
        EarlyEnd::NoMemory
    }
}

// Why there are no matches, by the kind of the error that `clap` gives.
fn reason(alloc: Global, error: &Error) -> EarlyEnd
    ensures { IsEndFor error.now result }
{
    match error.kind() {
        ErrorKind::OutOfMemory => EarlyEnd::NoMemory,
        ErrorKind::DisplayHelp => match format!(in alloc; "{error}") {
            Ok(text) => EarlyEnd::Help(text),
            Err(_) => EarlyEnd::NoMemory,
        },
        _ => EarlyEnd::Usage,
    }
}

/// The matches of the words, which live as long as the command's own texts.
pub fn parse_words<'a>(alloc: Global, words: &'a [String]) -> Result<ArgMatches<'a>, EarlyEnd>
    ensures ok { IfOk result (λ m.
        subcommand_rows_of m ≡ subcommand_of line (map string_bytes words.entry.now)) }
    ensures takes { IfErr result (λ r.
        takes line (map string_bytes words.entry.now) ≡ true → r ≡ EarlyEnd.NoMemory) }
    ensures kinds { MatchResult result
        (λ _. fault_of line (map string_bytes words.entry.now) ≡ [])
        (AllowsEnd (fault_of line (map string_bytes words.entry.now))) }
{
    let command = command_line(alloc)?;
    with_reason(alloc, command.try_get_matches_from(words))
}

// The matches, or why there are none.
fn with_reason<'a>(
    alloc: Global,
    parsed: Result<ArgMatches<'a>, Error>,
) -> Result<ArgMatches<'a>, EarlyEnd>
    ensures { MatchResult parsed.entry (λ matches. result ≡ Ok matches) (λ error. EndsFor error result) }
{
    match parsed {
        Ok(matches) => Ok(matches),
        Err(error) => Err(reason(alloc, &error)),
    }
}
