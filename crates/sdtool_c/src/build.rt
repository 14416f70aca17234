//! The call that builds descriptors.

ghost use Rattle.sd_call.specs.Outcomes.{Answers};
ghost use Rattle.sd_call_build.specs.Build.{built};

use sd_call::Outcome;
use sd_call_build::{NewDescriptor, build_descriptor};

/// Gives the layout of a new descriptor.
#[unsafe(no_mangle)]
pub extern "C" fn sdtool_build(new: &NewDescriptor<'_>, output: &mut [u8]) -> Outcome
    ensures { Answers (built new.now) output.old output.new result }
{
    build_descriptor(new, output)
}
