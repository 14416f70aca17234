//! The flags of an ACE (MS-DTYP 2.4.4.1), and their names.

ghost use Rattle.std.specs.Prelude.{◌≡◌, ◌≤◌, ◌<◌, ◌/◌, ◌%◌, get_or, length, take, true, IfSome, IsTrue, Some};
ghost use Rattle.sd_text.specs.Bits.{has_bit};
ghost use Rattle.sd_kinds.specs.FlagValues.{FlagNames, FlagValues};
ghost use Rattle.sd_kinds.specs.Flags.{flags_reads, flags_text, is_flag};
ghost use Rattle.sd_text.specs.LimitValues.{LimitValues};
ghost use Rattle.sd_text.specs.Usual.{have_texts, have_values, usual_text};
ghost use Rattle.sd_sink.specs.Print.{Prints};
ghost use Rattle.sd_sink.specs.Sink.{Puts};

use crate::flag_cells::FLAG_CELLS;
use crate::flag_texts::{
    FLAG_ROWS, PRINTED_FLAG_SIZES, PRINTED_FLAG_TEXTS, USUAL_FLAG_KEYS, USUAL_FLAG_SIZES,
    USUAL_FLAG_VALUES,
};
use sd_sink::{FRONT, Print, Printer, Sink, SinkFault};
use sd_text::{MOST_FIELD_SIZE, NamedBits, USUAL_ROWS, named, print_names, read_names, usual_row};

/// OBJECT_INHERIT_ACE: files inherit the ACE.
pub const OBJECT_INHERIT: u8 = 0x1;

/// CONTAINER_INHERIT_ACE: containers inherit the ACE.
pub const CONTAINER_INHERIT: u8 = 0x2;

/// NO_PROPAGATE_INHERIT_ACE: it goes no further than the object that inherits it.
pub const NO_PROPAGATE: u8 = 0x4;

/// INHERIT_ONLY_ACE: it does not count for the object itself.
pub const INHERIT_ONLY: u8 = 0x8;

/// INHERITED_ACE: the ACE was inherited.
pub const INHERITED: u8 = 0x10;

/// SUCCESSFUL_ACCESS_ACE_FLAG: access that is granted is audited.
pub const SUCCESSFUL_ACCESS: u8 = 0x40;

/// FAILED_ACCESS_ACE_FLAG: access that is denied is audited.
pub const FAILED_ACCESS: u8 = 0x80;

/// The flags with which an ACE goes on from a container.
pub const ONWARD: u8 = OBJECT_INHERIT | CONTAINER_INHERIT;

/// The flags of an ACE (MS-DTYP 2.4.4.1 and 2.5.1.1), in the order in which they are printed.
pub const FLAGS: [NamedBits; 7] = [
    named!(b'O', b'I', OBJECT_INHERIT as u32),
    named!(b'C', b'I', CONTAINER_INHERIT as u32),
    named!(b'N', b'P', NO_PROPAGATE as u32),
    named!(b'I', b'O', INHERIT_ONLY as u32),
    named!(b'I', b'D', INHERITED as u32),
    named!(b'S', b'A', SUCCESSFUL_ACCESS as u32),
    named!(b'F', b'A', FAILED_ACCESS as u32),
];

/// Whether a flag is set among those of an ACE. It is one of `FLAGS`, and not several at once.
///
/// ```
/// assert!(rt; has_flag(0x13, INHERITED));
/// assert!(rt; !has_flag(0x03, INHERITED));
/// ```
#[inline(always)]
pub fn has_flag(flags: u8, flag: u8) -> bool
    requires { IsTrue (is_flag flag) }
    ensures { result ≡ has_bit flag flags }
{
    flags & flag != 0
}

/// Puts the names of an ACE's flags, as `OICI` for 3. Bit 0x20 has no name.
///
/// ```
/// let mut sink = TextSink::new(&rt);
/// assert!(rt; put_flags(OBJECT_INHERIT | CONTAINER_INHERIT, &mut sink) == Ok(()));
/// assert!(rt; sink.bytes() == b"OICI".as_slice());
/// ```
pub fn put_flags<S: Sink>(flags: u8, sink: &mut S) -> Result<(), SinkFault>
    ensures put { Puts (S.told sink.old) (S.told sink.new) (flags_text flags) result }
    // The text reads as the flags.
    ensures back { flags / 0x20 % 2 ≡ 0 → flags_reads (flags_text flags) ≡ Some flags }
    ensures short { length (flags_text flags) ≤ 14 }
    // The names and the numbers are those of MS-DTYP.
    ensures names { FlagNames }
    ensures values { FlagValues }
{
    let mut out = Printer::new(sink);
    print_flags(flags, &mut out);
    out.finish()
}

/// Prints the names of an ACE's flags. Bit 0x20 has no name.
#[inline(always)]
pub fn print_flags<P: Print>(flags: u8, out: &mut P)
    ensures { Prints (P.told out.old) (P.told out.new) (flags_text flags) }
{
    // Most ACEs are not audited, so that a table has the text of their flags.
    if usize::from(flags) < FLAG_ROWS {
        print_row(&PRINTED_FLAG_TEXTS, &PRINTED_FLAG_SIZES, flags, out);
    } else {
        print_names(&FLAGS, u32::from(flags), out);
    }
}

// Prints the text that a table has of these flags.
#[inline(always)]
fn print_row<P: Print>(
    texts: &[[u8; FRONT]; FLAG_ROWS],
    sizes: &[u8; FLAG_ROWS],
    flags: u8,
    out: &mut P,
)
    requires texts { have_texts flags_text texts.now sizes.now ≡ true }
    requires row { flags < 32 }
    ensures { Prints (P.told out.old) (P.told out.new) (flags_text flags) }
{
    let row = usize::from(flags);
    out.put_front(&texts[row], usize::from(sizes[row]));
}

/// The flags of a text of at most 183 bytes (MS-DTYP 2.5.1.1): names of two letters, in either case and any
/// order, also repeated, as `CIOI` for 3. None for any other text.
///
/// ```
/// assert!(rt; flags_from_text(b"ciID") == Some(CONTAINER_INHERIT | INHERITED));
/// assert!(rt; flags_from_text(b"CI ID") == None);
/// ```
#[tactic(auto, unfolding(crate::specs::Flags::flags_reads, sd_text::specs::LimitValues::LimitValues))]
pub fn flags_from_text(text: &[u8]) -> Option<u8>
    ensures exact { result ≡ flags_reads text.now }
    // No name has bit 0x20, which no ACE has.
    ensures clear { IfSome result (λ flags. flags / 0x20 % 2 ≡ 0) }
    // The limits have the values that LimitValues writes out.
    ensures limits { LimitValues }
{
    if text.len() > MOST_FIELD_SIZE {
        return None;
    }
    let flags = read_names(&FLAG_CELLS, text)?;
    Some(flags as u8)
}

/// The flags of an ACE before the first semicolon of a text, and the size of their own text, if they are usual ones.
/// `None` means only that the general reader must decide.
///
/// ```
/// assert!(rt; usual_flags(b"OICI;FA;;;WD)") == Some((OBJECT_INHERIT | CONTAINER_INHERIT, 4)));
/// assert!(rt; usual_flags(b";FA;;;WD)") == Some((0, 0)));
/// assert!(rt; usual_flags(b"CIOI;FA;;;WD)") == None);
/// ```
#[inline(always)]
pub fn usual_flags(text: &[u8]) -> Option<(u8, usize)>
    ensures within { IfSome result (λ r. r.1 ≤ length text.now) }
    ensures flags { IfSome result (λ r. flags_reads (take r.1 text.now) ≡ Some r.0) }
    ensures clear { IfSome result (λ r. r.0 / 0x20 % 2 ≡ 0) }
{
    let row = usual_row(&USUAL_FLAG_KEYS, &USUAL_FLAG_SIZES, text)?;
    let flags = flags_in(&USUAL_FLAG_KEYS, &USUAL_FLAG_SIZES, &USUAL_FLAG_VALUES, row);
    Some((flags, usize::from(USUAL_FLAG_SIZES[row])))
}

// The flags of a row.
#[inline(always)]
fn flags_in(
    keys: &[u64; USUAL_ROWS],
    sizes: &[u8; USUAL_ROWS],
    values: &[u8; USUAL_ROWS],
    row: usize,
) -> u8
    requires values { have_values flags_reads keys.now sizes.now values.now ≡ true }
    requires row { row < 64 }
    ensures { flags_reads (usual_text (get_or keys.now row 0) (get_or sizes.now row 0)) ≡ Some result }
{
    values[row]
}
