//! The options of `check`: what is asked, and who asks.
ghost use Rattle.std.specs.Prelude.{◌≡◌, [], None, IfOk};
ghost use Rattle.std.specs.Option.{option_copied};
ghost use Rattle.clap.specs.Words.{found_of, rows_of};
ghost use Rattle.sd_ace.specs.GuidText.{guid_reads};
ghost use Rattle.sd_rights.specs.Rights.{rights_reads};
ghost use Rattle.sd_command.specs.Settings as specs;
ghost use Rattle.sd_command.specs.Inner.Adding.{gives};
ghost use Rattle.sd_command.specs.Inner.Choosing.{own_with};

use crate::options::OptionName;
use crate::settings::{
    Own, UsageFault, given_if, given_mapping, given_or, given_sid, is_set, text_of, without_creator,
};
use crate::token_text::add_entries;
use clap::ArgMatches;
use sd_ace::guid_from_text;
use sd_answer::Act;
use sd_check::{Ask, Privileges};
use sd_rights::{Mapping, rights_from_text};
use sd_sid::Sid;
use sd_text::read_number;
use sd_token::Token;
use uuid::Uuid;

/// The digits of an integrity level at most: those of 2^32.
const MOST_LEVEL_DIGITS: usize = 10;

// The values in the order in which they are looked at.
#[tactic(auto, unfolding(crate::specs::Settings::check_own))]
pub(crate) fn check_own<'a>(
    matches: &ArgMatches<'a>,
    domain: Option<&Sid>,
    token: &mut Token,
) -> Result<Own<'a>, UsageFault>
    requires empty { token.old.holder.entries ≡ [] }
    ensures chosen { own_with token.new.holder result
        ≡ specs.check_own (option_copied domain.entry) (rows_of (found_of matches.now)) }
    ensures none { IfOk result (λ own. own.creator ≡ None) }
    ensures compared { token.new.compared ≡ token.old.compared }
{
    let mapping = given_mapping(matches)?;
    given_token(matches, domain, token)?;
    let want = given_want(matches)?;
    let object = given_object(matches)?;
    let principal = given_sid(matches, OptionName::PrincipalSelf, domain)?;
    let level = given_level(matches)?;
    let ask = asked(matches, mapping, want, object, principal)?;
    token.set_level(level);
    Ok(without_creator(Act::Check(ask)))
}

// The entries go into the token.
#[tactic(auto, unfolding(crate::specs::Settings::given_token))]
fn given_token(
    matches: &ArgMatches<'_>,
    domain: Option<&Sid>,
    token: &mut Token,
) -> Result<(), UsageFault>
    requires empty { token.old.holder.entries ≡ [] }
    ensures entries { gives token.new.holder.entries result
        ≡ specs.given_token (option_copied domain.entry) (rows_of (found_of matches.now)) }
    ensures compared { token.new.compared ≡ token.old.compared }
{
    match text_of(matches, OptionName::Token) {
        Some(text) => match add_entries(text, domain, token) {
            Some(()) => Ok(()),
            None => Err(UsageFault::Value(OptionName::Token)),
        },
        None => Err(UsageFault::Value(OptionName::Token)),
    }
}

// No right where the option is left out.
fn given_want(matches: &ArgMatches<'_>) -> Result<u32, UsageFault>
    ensures { result ≡ specs.given_want (rows_of (found_of matches.now)) }
{
    given_or(matches, OptionName::Want, 0, want_from_text)
}

fn want_from_text(text: &str) -> Option<u32>
    ensures { result ≡ rights_reads text.now }
{
    rights_from_text(text.as_bytes())
}

fn given_object(matches: &ArgMatches<'_>) -> Result<Option<Uuid>, UsageFault>
    ensures { result ≡ specs.given_object (rows_of (found_of matches.now)) }
{
    given_if(matches, OptionName::Object, object_from_text)
}

fn object_from_text(text: &str) -> Option<Uuid>
    ensures { result ≡ guid_reads text.now }
{
    guid_from_text(text.as_bytes())
}

// None where the option is left out.
fn given_level(matches: &ArgMatches<'_>) -> Result<Option<u32>, UsageFault>
    ensures { result ≡ specs.given_level (rows_of (found_of matches.now)) }
{
    given_if(matches, OptionName::Level, level_from_text)
}

// One to ten decimal digits, below 2^32.
fn level_from_text(text: &str) -> Option<u32>
    ensures { result ≡ specs.level_reads text.now }
{
    let digits = text.as_bytes();
    if digits.is_empty() || digits.len() > MOST_LEVEL_DIGITS {
        return None;
    }
    let level = read_number(10, 1 << 32, digits)?;
    Some(level as u32)
}

// What is asked, or why nothing can be.
#[tactic(auto, unfolding(crate::specs::Settings::asked))]
fn asked(
    matches: &ArgMatches<'_>,
    mapping: Mapping,
    want: u32,
    object: Option<Uuid>,
    principal: Option<Sid>,
) -> Result<Ask, UsageFault>
    ensures { result ≡ specs.asked mapping want object principal (rows_of (found_of matches.now)) }
{
    let maximum = is_set(matches, OptionName::Maximum);
    let privileges = Privileges {
        security: is_set(matches, OptionName::Security),
        take_ownership: is_set(matches, OptionName::TakeOwnership),
    };
    match Ask::new(want, maximum, mapping, object, principal, privileges) {
        Ok(ask) => Ok(ask),
        Err(fault) => Err(UsageFault::Unasked(fault)),
    }
}
