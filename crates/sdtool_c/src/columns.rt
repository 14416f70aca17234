//! The calls that convert the rows of a column, or derive from them.

ghost use Rattle.std.specs.Prelude.{take};
ghost use Rattle.sd_call_access.specs.DerivedMany as derived;
ghost use Rattle.sd_call_access.specs.DerivedMany.{DerivesMany};
ghost use Rattle.sd_call_columns.specs.Answered as columns;
ghost use Rattle.sd_call_convert.specs.Many.{ConvertsMany, asked, asked_large, lent, most_small};

use sd_call::Outcome;
use sd_call_access::{Derivation, LargeDerivation, derive_many, derive_many_large};
use sd_call_convert::{Conversion, LargeConversion, convert_many, convert_many_large};
use std::alloc::Global;

/// Converts each row of a column with offsets of 32 bits.
#[unsafe(no_mangle)]
pub extern "C" fn sdtool_convert_many(
    alloc: Global,
    conversion: &Conversion<'_>,
    out: &mut [u8],
    out_offsets: &mut [u32],
    outcomes: &mut [Outcome],
) -> Outcome
    // Arrow's offsets of 32 bits reach no further than `most_small`.
    ensures { ConvertsMany (asked conversion.now) (lent (take most_small out.old) out_offsets.old outcomes.old)
        (lent (take most_small out.new) out_offsets.new outcomes.new) result }
{
    convert_many(alloc, conversion, out, out_offsets, outcomes)
}

/// Converts each row of a column with offsets of 64 bits.
#[unsafe(no_mangle)]
pub extern "C" fn sdtool_convert_many_large(
    alloc: Global,
    conversion: &LargeConversion<'_>,
    out: &mut [u8],
    out_offsets: &mut [u64],
    outcomes: &mut [Outcome],
) -> Outcome
    ensures { ConvertsMany (asked_large conversion.now) (lent out.old out_offsets.old outcomes.old)
        (lent out.new out_offsets.new outcomes.new) result }
{
    convert_many_large(alloc, conversion, out, out_offsets, outcomes)
}

/// Derives a descriptor from each row of a column with offsets of 32 bits.
#[unsafe(no_mangle)]
pub extern "C" fn sdtool_derive_many(
    alloc: Global,
    derivation: &Derivation<'_>,
    out: &mut [u8],
    out_offsets: &mut [u32],
    outcomes: &mut [Outcome],
) -> Outcome
    ensures { DerivesMany (derived.asked derivation.now)
        (columns.lent (take columns.most_small out.old) out_offsets.old outcomes.old)
        (columns.lent (take columns.most_small out.new) out_offsets.new outcomes.new) result }
{
    derive_many(alloc, derivation, out, out_offsets, outcomes)
}

/// Derives a descriptor from each row of a column with offsets of 64 bits.
#[unsafe(no_mangle)]
pub extern "C" fn sdtool_derive_many_large(
    alloc: Global,
    derivation: &LargeDerivation<'_>,
    out: &mut [u8],
    out_offsets: &mut [u64],
    outcomes: &mut [Outcome],
) -> Outcome
    ensures { DerivesMany (derived.asked_large derivation.now) (columns.lent out.old out_offsets.old outcomes.old)
        (columns.lent out.new out_offsets.new outcomes.new) result }
{
    derive_many_large(alloc, derivation, out, out_offsets, outcomes)
}
