//! The bytes of a SID (MS-DTYP 2.4.2.2).

ghost use Rattle.std.specs.Prelude.{◌≡◌, length};
ghost use Rattle.sd_call.specs.Outcomes.{Gives};
ghost use Rattle.sd_sid.specs.Sid.{sid_bytes, sid_size};

use crate::outcome::Outcome;
use crate::output::give;
use byteorder::{ByteOrder, LittleEndian};
use sd_parts::{MOST_SID_SIZE, SID_HEADER_SIZE};
use sd_sid::Sid;

/// Gives the bytes of a SID.
pub fn give_sid(sid: &Sid, output: &mut [u8]) -> Outcome
    ensures { Gives (sid_bytes sid.now) output.old output.new result }
{
    let mut cells = [0; MOST_SID_SIZE];
    let cells = &mut cells[..sid.size()];
    write_sid(sid, cells);
    give(cells, output)
}

/// Writes a SID to as many cells as it has bytes.
pub fn write_sid(sid: &Sid, cells: &mut [u8])
    requires { length cells.old ≡ sid_size sid.now }
    ensures { cells.new ≡ sid_bytes sid.now }
{
    let (front, subs) = cells.split_at_mut(SID_HEADER_SIZE);
    front.copy_from_slice(&sid.header());
    LittleEndian::write_u32_into(sid.subs(), subs);
}
