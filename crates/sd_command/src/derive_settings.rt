//! The options of `derive`: what is made, for whom, and the descriptor of its creator.
ghost use Rattle.std.specs.Prelude.{◌≡◌, None, IfOk, IfSome, option_map};
ghost use Rattle.std.specs.Option.{option_copied};
ghost use Rattle.clap.specs.Words.{found_of, rows_of};
ghost use Rattle.sd_answer.specs.Task.{IsDerivation};
ghost use Rattle.sd_command.specs.Settings as specs;
ghost use Rattle.sd_command.specs.Settings.{nobody};
ghost use Rattle.sd_command.specs.Inner.Adding.{gives};
ghost use Rattle.sd_command.specs.Inner.Choosing.{own_with};

use crate::options::OptionName;
use crate::settings::{
    Own, UsageFault, given_mapping, given_needed, given_output_form, given_sid, text_of,
};
use clap::ArgMatches;
use sd_answer::Act;
use sd_inherit::{Plan, Target};
use sd_run::Engine;
use sd_sid::Sid;

// The values in the order in which they are looked at. The creator's descriptor comes last: `give_creator` reads it.
#[tactic(auto, unfolding(crate::specs::Settings::derive_own))]
pub(crate) fn derive_own<'a>(
    matches: &ArgMatches<'a>,
    domain: Option<&Sid>,
) -> Result<Own<'a>, UsageFault>
    ensures chosen { own_with nobody result
        ≡ specs.derive_own (option_copied domain.entry) (rows_of (found_of matches.now)) }
    ensures derives { IfOk result (λ own. IfSome own.creator (λ _. IsDerivation own.act)) }
{
    let form = given_output_form(matches)?;
    let mapping = given_mapping(matches)?;
    let target = given_kind(matches)?;
    let owner = needed_sid(matches, OptionName::Owner, domain)?;
    let group = needed_sid(matches, OptionName::Group, domain)?;
    let plan = Plan {
        target,
        owner,
        group,
        mapping,
    };
    Ok(Own {
        act: Act::Derive(plan, form),
        creator: text_of(matches, OptionName::Creator),
    })
}

// Gives an engine without a creator the descriptor that the text means, if there is one.
#[tactic(auto, unfolding(crate::specs::Settings::task_with, crate::specs::Settings::given_creator))]
pub(crate) fn give_creator(engine: &mut Engine, text: Option<&str>) -> Result<(), UsageFault>
    requires none { engine.old.creator ≡ None }
    requires derives { IfSome text (λ _. IsDerivation engine.old.job.act) }
    ensures { gives engine.new result
        ≡ specs.task_with engine.old.job (option_map (λ s. s.now) text.entry) }
{
    match text {
        Some(text) => match engine.set_creator(text.as_bytes()) {
            Ok(()) => Ok(()),
            Err(_) => Err(UsageFault::Value(OptionName::Creator)),
        },
        None => Ok(()),
    }
}

fn given_kind(matches: &ArgMatches<'_>) -> Result<Target, UsageFault>
    ensures { result ≡ specs.given_kind (rows_of (found_of matches.now)) }
{
    given_needed(matches, OptionName::Kind, kind_from_text)
}

fn kind_from_text(text: &str) -> Option<Target>
    ensures { result ≡ specs.target_reads text.now }
{
    if text == "file" {
        return Some(Target::File);
    }
    if text == "container" {
        return Some(Target::Container);
    }
    None
}

// The SID of an option that may not be left out.
fn needed_sid(
    matches: &ArgMatches<'_>,
    option: OptionName,
    domain: Option<&Sid>,
) -> Result<Sid, UsageFault>
    ensures { result
        ≡ specs.needed_sid option (option_copied domain.entry) (rows_of (found_of matches.now)) }
{
    let sid = given_sid(matches, option, domain)?;
    sid.ok_or(UsageFault::Value(option))
}
