//! Printing access rights (MS-DTYP 2.5.1.1).

ghost use Rattle.std.specs.Prelude.{◌≡◌, ◌≤◌, ◌<◌, ◌==◌, bit_and, false, get_or, length, true, Some};
ghost use Rattle.std.specs.List.{find};
ghost use Rattle.sd_sink.specs.Print.{Prints};
ghost use Rattle.sd_text.specs.Names.{named_bits};
ghost use Rattle.sd_text.specs.Usual.{have_texts};
ghost use Rattle.sd_kinds.specs.declared.kinds.AceKind.TheVariants as kinds;
ghost use Rattle.sd_rights.specs.RightValues.{CompoundRights, LabelRights, SingleRights};
ghost use Rattle.sd_rights.specs.Rights.{is_label, names_or_hex, rights_reads, rights_text};
ghost use Rattle.sd_sink.specs.Sink.{Puts};
ghost use Rattle.sd_rights.specs.declared.rights_table.TheConstants.{COMPOUNDS};

use crate::mask_texts::{PRINTED_MASK_SIZES, PRINTED_MASK_TEXTS, PRINTED_MASKS};
use crate::rights_table::{COMPOUNDS, LABEL_BITS, LABELS, SINGLE_BITS, SINGLES};
use sd_kinds::AceKind;
use sd_sink::{FRONT, Print, Printer, Sink, SinkFault};
use sd_text::{NamedBits, USUAL_ROWS, print_hex_number, print_names};

/// What spreads masks over the rows: the table has each mask in the row that this gives.
const MASK_SPREAD: u64 = 0x2694_5b91_12d7_edef;

/// Puts the text of an access mask (MS-DTYP 2.5.1.1): names if every bit of the mask has a name in an
/// ACE of this kind, else hex digits. So 1 is `CC`, and `NW` in a label.
///
/// ```
/// let mut sink = TextSink::new(&rt);
/// assert!(rt; put_rights(AceKind::Allow, 0x1f01ff, &mut sink) == Ok(()));
/// assert!(rt; sink.bytes() == b"FA".as_slice());
/// ```
pub fn put_rights<S: Sink>(kind: AceKind, mask: u32, sink: &mut S) -> Result<(), SinkFault>
    ensures put { Puts (S.told sink.old) (S.told sink.new) (rights_text kind mask) result }
    // The text reads as the mask.
    ensures back { rights_reads (rights_text kind mask) ≡ Some mask }
    ensures short { length (rights_text kind mask) ≤ 34 }
    // The names have the numbers that RightValues writes out.
    ensures singles { SingleRights }
    ensures compounds { CompoundRights }
    ensures labels { LabelRights }
{
    let mut out = Printer::new(sink);
    print_rights(kind, mask, &mut out);
    out.finish()
}

/// Prints the text of an access mask, as `put_rights` puts it. Inlined, since each ACE calls it.
#[inline(always)]
pub fn print_rights<P: Print>(kind: AceKind, mask: u32, out: &mut P)
    ensures { Prints (P.told out.old) (P.told out.new) (rights_text kind mask) }
{
    let row = row_of(mask);
    // The mask of a label has names of its own.
    if PRINTED_MASKS[row] == mask && !is_label(kind) {
        print_row(
            &PRINTED_MASKS,
            &PRINTED_MASK_TEXTS,
            &PRINTED_MASK_SIZES,
            row,
            out,
        );
    } else {
        print_other_rights(kind, mask, out);
    }
}

// The row in which the table has this mask, if it has it.
#[inline(always)]
fn row_of(mask: u32) -> usize
    ensures { result < 64 }
{
    (u64::from(mask).wrapping_mul(MASK_SPREAD) / (1 << 58)) as usize
}

// Prints the text of a row, for an ACE that is no label.
#[inline(always)]
fn print_row<P: Print>(
    masks: &[u32; USUAL_ROWS],
    texts: &[[u8; FRONT]; USUAL_ROWS],
    sizes: &[u8; USUAL_ROWS],
    row: usize,
    out: &mut P,
)
    requires texts { have_texts (λ i. rights_text kinds.Allow (get_or masks.now i 0)) texts.now sizes.now ≡ true }
    requires row { row < 64 }
    ensures { Prints (P.told out.old) (P.told out.new) (rights_text kinds.Allow (get_or masks.now row 0)) }
{
    let _ = masks;
    out.put_front(&texts[row], usize::from(sizes[row]));
}

// Prints the text of any mask.
#[inline(never)]
#[tactic(auto, unfolding(crate::specs::Rights::rights_text))]
fn print_other_rights<P: Print>(kind: AceKind, mask: u32, out: &mut P)
    ensures { Prints (P.told out.old) (P.told out.new) (rights_text kind mask) }
{
    if mask == 0 {
        return print_hex_number(mask, out);
    }
    if is_label(kind) {
        return print_names_or_hex(&LABELS, LABEL_BITS, mask, out);
    }
    match whole_name(mask) {
        Some(name) => out.put(&[name.first, name.second]),
        None => print_names_or_hex(&SINGLES, SINGLE_BITS, mask, out),
    }
}

/// Whether an ACE is a mandatory label (MS-DTYP 2.4.4.13), whose mask is a policy and no access rights.
#[inline(always)]
pub fn is_label(kind: AceKind) -> bool
    ensures { result ≡ is_label kind }
{
    matches!(kind, AceKind::Label)
}

// The name of exactly these bits. KR and KX name the same, and KR comes first.
fn whole_name(mask: u32) -> Option<NamedBits>
    ensures { result ≡ find (λ e. e.bits == mask) COMPOUNDS }
{
    COMPOUNDS.iter().copied().find(|name| name.bits == mask)
}

// The names of a table that has a name for each of the bits alone. Inlined, since without a loop the names of a known
// table take fewer steps.
#[inline(always)]
fn print_names_or_hex<P: Print>(table: &[NamedBits], bits: u32, mask: u32, out: &mut P)
    requires fits { length table.now ≤ 17 }
    requires bits { named_bits table.now mask ≡ bit_and mask bits }
    ensures put { Prints (P.told out.old) (P.told out.new) (names_or_hex table.now mask) }
{
    if mask & bits == mask {
        print_names(table, mask, out);
    } else {
        print_hex_number(mask, out);
    }
}
