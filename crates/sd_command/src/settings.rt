//! The options that several commands share, and the job that the words ask for.
ghost use Rattle.std.specs.Prelude.{◌≡◌, None, Option, option_map, IfOk, IfSome};
ghost use Rattle.std.specs.Fn.{FnOnceReturnsAt};
ghost use Rattle.std.specs.Option.{option_copied};
ghost use Rattle.clap.specs.Words.{Text, first_of, found_of, rows_of, subcommand_rows_of};
ghost use Rattle.sd_answer.specs.Task.{IsDerivation};
ghost use Rattle.sd_command.specs.CommandLine.{option_text};
ghost use Rattle.sd_command.specs.Settings as specs;
ghost use Rattle.sd_command.specs.Settings.{nobody};
ghost use Rattle.sd_command.specs.Usage.{usage_line};
ghost use Rattle.sd_command.specs.Inner.Choosing.{choice_with, own_with};
ghost use Rattle.sd_command.specs.Inner.Given.{Reads};

use crate::check_settings::check_own;
use crate::derive_settings::derive_own;
use crate::fault_lines::USAGE_LINE;
use crate::options::OptionName;
use crate::token_text::sid_under;
use clap::ArgMatches;
use sd_answer::{Act, Form, Job, OutputForm};
use sd_check::AskFault;
use sd_rights::Mapping;
use sd_sid::Sid;
use sd_text::MOST_SUBS;
use sd_token::Token;

// The commands.
#[derive(Clone, Copy)]
enum CommandName {
    Convert,
    Explain,
    Check,
    Derive,
}

impl CommandName {
    fn from_text(text: &str) -> Option<CommandName>
        ensures { result ≡ specs.command_reads text.now }
    {
        if text == "convert" {
            return Some(CommandName::Convert);
        }
        if text == "explain" {
            return Some(CommandName::Explain);
        }
        if text == "check" {
            return Some(CommandName::Check);
        }
        if text == "derive" {
            return Some(CommandName::Derive);
        }
        None
    }
}

/// Why words that the parser accepts make no job.
#[derive(Clone, Copy, Debug, PartialEq, Eq)]
pub enum UsageFault {
    /// No command is named.
    NoCommand,
    /// The value of an option does not read.
    Value(OptionName),
    /// All values read, and together they ask for nothing that can be asked.
    Unasked(AskFault),
}

impl UsageFault {
    /// What the fault stream gets.
    pub fn line(self) -> &'static str
        ensures said { result.now ≡ usage_line self }
    {
        match self {
            UsageFault::NoCommand => USAGE_LINE,
            UsageFault::Value(option) => option.row().fault_line,
            UsageFault::Unasked(AskFault::EmptyRequest) => "sdtool: error 50 empty-request\n",
            UsageFault::Unasked(AskFault::ReservedBits) => "sdtool: error 51 reserved-bits\n",
        }
    }
}

/// What the words choose: the job of a run, and what its engine is given before the run.
#[derive(Clone, Copy)]
pub struct Choice<'a> {
    pub job: Job,
    /// The creator's descriptor in SDDL, which nothing has read. Only a derivation has one.
    pub creator: Option<&'a str>,
}

/// The first option that does not read, or why nothing can be asked, or what the words choose. The token becomes the
/// one that asks: it must be new. After a fault it may have entries.
pub fn choose<'a>(matches: &ArgMatches<'a>, token: &mut Token) -> Result<Choice<'a>, UsageFault>
    requires nobody { token.old.holder ≡ nobody }
    ensures chosen { choice_with token.new.holder result ≡ specs.chosen (subcommand_rows_of matches.now) }
    ensures derives { IfOk result (λ choice. IfSome choice.creator (λ _. IsDerivation choice.job.act)) }
    ensures compared { token.new.compared ≡ token.old.compared }
{
    match matches.subcommand() {
        Some((name, found)) => match CommandName::from_text(name) {
            Some(command) => command_choice(command, found, token),
            None => Err(UsageFault::NoCommand),
        },
        None => Err(UsageFault::NoCommand),
    }
}

// The domain and the form, which all commands have, are looked at before what is the command's own. `check` has no
// `--numeric`, so there it is never set.
#[tactic(auto, unfolding(crate::specs::Settings::command_chosen))]
fn command_choice<'a>(
    command: CommandName,
    matches: &ArgMatches<'a>,
    token: &mut Token,
) -> Result<Choice<'a>, UsageFault>
    requires nobody { token.old.holder ≡ nobody }
    ensures chosen { choice_with token.new.holder result
        ≡ specs.command_chosen command (rows_of (found_of matches.now)) }
    ensures derives { IfOk result (λ choice. IfSome choice.creator (λ _. IsDerivation choice.job.act)) }
    ensures compared { token.new.compared ≡ token.old.compared }
{
    let domain = given_domain(matches)?;
    let line_form = given_form(matches)?;
    let own = match command_own(command, matches, domain.as_ref(), token) {
        Ok(own) => own,
        Err(fault) => return Err(fault),
    };
    let numeric = is_set(matches, OptionName::Numeric);
    Ok(Choice {
        job: Job {
            line_form,
            act: own.act,
            domain,
            numeric,
        },
        creator: own.creator,
    })
}

// What is a command's own.
#[derive(Clone, Copy)]
pub struct Own<'a> {
    pub act: Act,
    pub creator: Option<&'a str>,
}

fn command_own<'a>(
    command: CommandName,
    matches: &ArgMatches<'a>,
    domain: Option<&Sid>,
    token: &mut Token,
) -> Result<Own<'a>, UsageFault>
    requires nobody { token.old.holder ≡ nobody }
    ensures chosen { own_with token.new.holder result
        ≡ specs.command_own command (option_copied domain.entry) (rows_of (found_of matches.now)) }
    ensures derives { IfOk result (λ own. IfSome own.creator (λ _. IsDerivation own.act)) }
    ensures compared { token.new.compared ≡ token.old.compared }
{
    match command {
        CommandName::Convert => convert_own(matches),
        CommandName::Explain => Ok(without_creator(Act::Explain)),
        CommandName::Check => check_own(matches, domain, token),
        CommandName::Derive => derive_own(matches, domain),
    }
}

pub(crate) fn without_creator<'a>(act: Act) -> Own<'a>
    ensures act { result.act ≡ act }
    ensures creator { result.creator ≡ None }
{
    Own { act, creator: None }
}

#[tactic(auto, unfolding(crate::specs::Settings::convert_own))]
fn convert_own<'a>(matches: &ArgMatches<'a>) -> Result<Own<'a>, UsageFault>
    ensures chosen { own_with nobody result ≡ specs.convert_own (rows_of (found_of matches.now)) }
    ensures none { IfOk result (λ own. own.creator ≡ None) }
{
    let form = given_output_form(matches)?;
    Ok(without_creator(Act::Convert(form)))
}

// What the text of an option reads as. None where the option is left out.
pub(crate) fn given_if<T, R: FnOnce(&str) -> Option<T>>(
    matches: &ArgMatches<'_>,
    option: OptionName,
    read: R,
) -> Result<Option<T>, UsageFault>
    requires { R.IsAlwaysCallable read }
    ensures { (reads : Text → Option T) → Reads (λ text value. FnOnceReturnsAt R.FnOnce read text value) reads
        → result ≡ specs.given_if option reads (rows_of (found_of matches.now)) }
{
    match text_of(matches, option) {
        Some(text) => match read(text) {
            Some(value) => Ok(Some(value)),
            None => Err(UsageFault::Value(option)),
        },
        None => Ok(None),
    }
}

// The same with a value for an option that is left out.
pub(crate) fn given_or<T: Drop, R: FnOnce(&str) -> Option<T>>(
    matches: &ArgMatches<'_>,
    option: OptionName,
    default: T,
    read: R,
) -> Result<T, UsageFault>
    requires { R.IsAlwaysCallable read }
    ensures { (reads : Text → Option T) → Reads (λ text value. FnOnceReturnsAt R.FnOnce read text value) reads
        → result ≡ specs.given_or option default reads (rows_of (found_of matches.now)) }
{
    let value = given_if(matches, option, read)?;
    Ok(value.unwrap_or(default))
}

// The same where the option may not be left out.
pub(crate) fn given_needed<T, R: FnOnce(&str) -> Option<T>>(
    matches: &ArgMatches<'_>,
    option: OptionName,
    read: R,
) -> Result<T, UsageFault>
    requires { R.IsAlwaysCallable read }
    ensures { (reads : Text → Option T) → Reads (λ text value. FnOnceReturnsAt R.FnOnce read text value) reads
        → result ≡ specs.given_needed option reads (rows_of (found_of matches.now)) }
{
    let value = given_if(matches, option, read)?;
    value.ok_or(UsageFault::Value(option))
}

fn given_domain(matches: &ArgMatches<'_>) -> Result<Option<Sid>, UsageFault>
    ensures { result ≡ specs.given_domain (rows_of (found_of matches.now)) }
{
    given_if(matches, OptionName::Domain, domain_from_text)
}

// A SID with room for one more sub-authority, read without a domain.
#[tactic(auto, unfolding(crate::specs::Settings::domain_reads))]
fn domain_from_text(text: &str) -> Option<Sid>
    ensures { result ≡ specs.domain_reads text.now }
{
    match Sid::from_text(text.as_bytes(), None) {
        Ok(domain) => {
            if domain.subs().len() < MOST_SUBS {
                Some(domain)
            } else {
                None
            }
        }
        Err(_) => None,
    }
}

// Hex where the option is left out.
fn given_form(matches: &ArgMatches<'_>) -> Result<Form, UsageFault>
    ensures { result ≡ specs.given_form (rows_of (found_of matches.now)) }
{
    given_or(matches, OptionName::From, Form::Hex, form_from_text)
}

// SDDL where the option is left out.
pub(crate) fn given_output_form(matches: &ArgMatches<'_>) -> Result<OutputForm, UsageFault>
    ensures { result ≡ specs.given_output_form (rows_of (found_of matches.now)) }
{
    given_or(
        matches,
        OptionName::To,
        OutputForm::Sddl,
        output_form_from_text,
    )
}

fn form_from_text(text: &str) -> Option<Form>
    ensures { result ≡ specs.form_reads text.now }
{
    if text == "hex" {
        return Some(Form::Hex);
    }
    if text == "base64" {
        return Some(Form::Base64);
    }
    if text == "sddl" {
        return Some(Form::Sddl);
    }
    None
}

// The words of the forms of a line are also those of an answer.
fn output_form_from_text(text: &str) -> Option<OutputForm>
    ensures { result ≡ specs.output_form_reads text.now }
{
    form_from_text(text).map(OutputForm::from)
}

// That of files where the option is left out.
pub(crate) fn given_mapping(matches: &ArgMatches<'_>) -> Result<Mapping, UsageFault>
    ensures { result ≡ specs.given_mapping (rows_of (found_of matches.now)) }
{
    given_or(matches, OptionName::Type, Mapping::FILE, mapping_from_text)
}

fn mapping_from_text(text: &str) -> Option<Mapping>
    ensures { result ≡ specs.mapping_reads text.now }
{
    if text == "file" {
        return Some(Mapping::FILE);
    }
    if text == "key" {
        return Some(Mapping::KEY);
    }
    if text == "ds" {
        return Some(Mapping::DS);
    }
    None
}

// The SID of an option, read under the domain. None where the option is left out.
#[tactic(auto, unfolding(crate::specs::Settings::given_sid))]
pub(crate) fn given_sid(
    matches: &ArgMatches<'_>,
    option: OptionName,
    domain: Option<&Sid>,
) -> Result<Option<Sid>, UsageFault>
    ensures { result
        ≡ specs.given_sid option (option_copied domain.entry) (rows_of (found_of matches.now)) }
{
    match text_of(matches, option) {
        Some(text) => match sid_under(text.as_bytes(), domain) {
            Some(sid) => Ok(Some(sid)),
            None => Err(UsageFault::Value(option)),
        },
        None => Ok(None),
    }
}

// A flag's text is `true` where it is given, and else `false`.
#[tactic(auto, unfolding(crate::specs::Settings::is_set))]
pub(crate) fn is_set(matches: &ArgMatches<'_>, flag: OptionName) -> bool
    ensures { result ≡ specs.is_set flag (rows_of (found_of matches.now)) }
{
    match text_of(matches, flag) {
        Some(text) => text == "true",
        None => false,
    }
}

// The text of an option.
pub(crate) fn text_of<'a>(matches: &ArgMatches<'a>, option: OptionName) -> Option<&'a str>
    ensures { option_map (λ s. s.now) result
        ≡ first_of (option_text option) (rows_of (found_of matches.now)) }
{
    matches.get_str(option.text())
}
