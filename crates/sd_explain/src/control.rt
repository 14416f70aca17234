//! The lines of the control word and of the resource manager byte (MS-DTYP 2.4.6).
ghost use Rattle.std.specs.Prelude.{◌<◌};
ghost use Rattle.std.specs.List.{flat_map};
ghost use Rattle.sd_sink.specs.Print.{Prints};
ghost use Rattle.sd_parts.specs.declared.control.TheConstants.{CONTROL_BITS};
ghost use Rattle.sd_explain.specs.Explain.{code_if, control_line, rm_line};

use sd_parts::{CONTROL_BITS, ControlBit};
use sd_sink::Print;
use sd_text::print_hex;

/// Prints the control word, and the codes of its bits in rising order.
pub fn print_control<P: Print>(control: u16, out: &mut P)
    ensures { Prints (P.told out.old) (P.told out.new) (control_line control) }
{
    out.put(b"control 0x");
    print_hex(4, u64::from(control), out);
    print_codes(control, out);
    out.put(b"\n");
}

fn print_codes<P: Print>(control: u16, out: &mut P)
    ensures { Prints (P.told out.old) (P.told out.new) (flat_map (code_if control) CONTROL_BITS) }
{
    for bit in &CONTROL_BITS {
        print_code(control, bit, out);
    }
}

// Prints a blank and the code of a bit, where it is set.
fn print_code<P: Print>(control: u16, bit: &ControlBit, out: &mut P)
    requires { 0 < bit.now.bit }
    ensures { Prints (P.told out.old) (P.told out.new) (code_if control bit.now) }
{
    if bit.is_set(control) {
        out.put(&[b' ', bit.first, bit.second]);
    }
}

/// Prints the resource manager byte.
pub fn print_rm<P: Print>(rm: u8, out: &mut P)
    ensures { Prints (P.told out.old) (P.told out.new) (rm_line rm) }
{
    out.put(b"rm 0x");
    print_hex(2, u64::from(rm), out);
    out.put(b"\n");
}
