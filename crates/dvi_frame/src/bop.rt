// BOP, which begins a page.
ghost use Rattle.std.specs.Prelude.{◌+◌, ◌≤◌, length};
ghost use Rattle.octets.specs.Write.{Wrote};
ghost use Rattle.dvi.specs.Writer.{bop_bytes};

use dvi::opcode;
use octets::number;

// Writes BOP of a page, with the offset of the page before it.
pub fn put_bop(out: &mut [u8], at: usize, page: u32, previous: i32) -> usize
    requires { at + 9 ≤ length out.old }
    ensures { Wrote out.old at (bop_bytes page previous) out.new result }
{
    let mut to = number::put_byte(out, at, opcode::BOP);
    to = number::put_nat4(out, to, page);
    number::put_signed4(out, to, previous)
}
