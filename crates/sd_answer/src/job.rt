//! What is done with each line.

ghost use Rattle.std.specs.Prelude.{◌≡◌, IfSome};
ghost use Rattle.std.specs.Result.{result_ok};
ghost use Rattle.sd_sid.specs.Sid.{IsSid};
ghost use Rattle.sd_view.specs.Reading.{reading};
ghost use Rattle.sd_inherit.specs.PlanLimits.{IsPlan};
ghost use Rattle.sd_answer.specs.Answer.{output_of};
ghost use Rattle.sd_answer.specs.Task.{ActLimits, TaskLimits};

use sd_buffer::SdBuf;
use sd_check::Ask;
use sd_inherit::Plan;
use sd_sid::Sid;
use sd_view::{SdView, read};

/// How a line spells a descriptor.
#[derive(Clone, Copy, Debug, PartialEq, Eq)]
pub enum Form {
    /// Hex digits, two a byte.
    Hex,
    /// Base64 (RFC 4648, section 4), four characters for three bytes.
    Base64,
    /// SDDL (MS-DTYP 2.5.1).
    Sddl,
}

/// How an answer spells a descriptor. Each form of a line is one of them.
#[derive(Clone, Copy, Debug, PartialEq, Eq)]
pub enum OutputForm {
    /// Lower-case hex digits, two a byte.
    Hex,
    /// Base64 (RFC 4648, section 4), four characters for three bytes.
    Base64,
    /// SDDL (MS-DTYP 2.5.1).
    Sddl,
}

impl From<Form> for OutputForm {
    ghost from_gives = { λ form output. output ≡ output_of form };

    fn from(form: Form) -> OutputForm {
        match form {
            Form::Hex => OutputForm::Hex,
            Form::Base64 => OutputForm::Base64,
            Form::Sddl => OutputForm::Sddl,
        }
    }
}

/// What is done with the descriptor of a line.
#[derive(Clone, Copy, Debug, PartialEq, Eq)]
pub enum Act {
    /// It is printed in this form.
    Convert(OutputForm),
    /// It is explained, by a block of lines.
    Explain,
    /// It is said whether it grants what is asked (MS-DTYP 2.5.3).
    Check(Ask),
    /// The descriptor of a new object (MS-DTYP 2.5.3.4) is printed in this form: what the object inherits from its
    /// container, and what it takes from the descriptor of its creator, if there is one (`Task::creator`).
    Derive(Plan, OutputForm),
}

/// What a run does: how its lines spell descriptors, and what is done with each.
#[derive(Clone, Copy, Debug, PartialEq, Eq)]
pub struct Job {
    pub line_form: Form,
    pub act: Act,
    /// The domain whose aliases are read and printed, if there is one.
    pub domain: Option<Sid>,
    /// Whether SIDs are printed without aliases.
    pub numeric: bool,
}

/// What a run does with each line: its job, and the descriptor that the creator of a new object supplies, if there is
/// one (MS-DTYP 2.5.3.4). Only a derivation looks at that.
#[derive(Drop)]
pub struct Task<'a> {
    pub job: Job,
    pub creator: Option<SdView<'a>>,
}

impl<'a> Task<'a> {
    /// The creator's descriptor is the one that the buffer shows, if it shows any.
    pub fn new(job: Job, creator: &'a SdBuf) -> Task<'a>
        ensures task { result ≡ record { job = job; creator = result_ok (reading creator.now) } }
        ensures limits { TaskLimits result }
    {
        note_job(&job);
        Task {
            job,
            creator: read(creator.bytes()).ok(),
        }
    }
}

// Gives the prover the limits of a job: `size` promises those of a SID.
fn note_job(job: &Job)
    ensures domain { IfSome job.now.domain IsSid }
    ensures act { ActLimits job.now.act }
{
    if let Some(domain) = &job.domain {
        let _ = domain.size();
    }
    match &job.act {
        Act::Convert(_) | Act::Explain | Act::Check(_) => {}
        Act::Derive(plan, _) => note_plan(plan),
    }
}

// Gives the prover the limits of a plan: `size` promises those of a SID, and `read` those of a mapping.
fn note_plan(plan: &Plan)
    ensures { IsPlan plan.now }
{
    let _ = plan.owner.size();
    let _ = plan.group.size();
    let _ = plan.mapping.read();
}
