// Fonts: their definitions, and the commands that select them.
ghost use Rattle.std.specs.Prelude.{◌++◌, ◌+◌, ◌≤◌, ◌<◌, length};
ghost use Rattle.octets.specs.Octets.{bytes};
ghost use Rattle.octets.specs.Write.{Wrote};
ghost use Rattle.dvi2.specs.Writer.{selects, definition, font_change};
ghost use Rattle.octets.specs.PutIfRoom.{PutIfRoom};
ghost use Rattle.dvi.specs.FontOrNone.{font_or_none};

use crate::put;
use dvi::name;
use dvi2::opcode;
use galley_file::font;
use octets::number;

// The bytes of a definition.
pub const DEFINITION: usize = 20;

// The units of a point.
const PER_POINT: u32 = 6;

// No area, and a name of four bytes.
const LENGTHS: u32 = 4;

// Writes the command that selects font f.
fn put_select(out: &mut [u8], at: usize, f: u8) -> usize
    requires { (at < 4294967296) × (f < 120) }
    ensures { PutIfRoom out.old at (selects f) out.new result }
{
    if f < opcode::FNTNUMS {
        put::put_bytes(out, at, &[opcode::FNTNUM0 + f])
    } else {
        put::put_bytes(out, at, &[opcode::FNT1, f])
    }
}

// Writes the checksum, 0, and the scaled and the design size.
fn put_sizes(out: &mut [u8], at: usize, size: u32) -> usize
    requires { at + 12 ≤ length out.old }
    ensures { Wrote out.old at (bytes 4 0 ++ (bytes 4 size ++ bytes 4 size)) out.new result }
{
    let mut to = number::put_nat4(out, at, 0);
    to = number::put_nat4(out, to, size);
    number::put_nat4(out, to, size)
}

// Writes the definition of font f.
pub fn put_definition(out: &mut [u8], at: usize, f: u8) -> usize
    requires { (at < 4294967296) × (f < 120) }
    ensures { PutIfRoom out.old at (definition f) out.new result }
{
    if out.len() < at + DEFINITION {
        return at + DEFINITION;
    }
    let size = PER_POINT * font::point_size(f) as u32;
    let mut to = number::put_byte(out, at, opcode::FNTDEF1);
    to = number::put_byte(out, to, f);
    to = put_sizes(out, to, size);
    to = number::put_nat2(out, to, LENGTHS);
    name::put_name(out, to, f)
}

// Writes the commands that change the font from `last` to f; `known` says whether f is defined.
pub fn put_font(out: &mut [u8], at: usize, known: bool, last: u8, f: u8) -> usize
    requires { (at < 2147483648) × (f < 120) }
    ensures { PutIfRoom out.old at (font_change known (font_or_none last) f) out.new result }
{
    if last == f {
        at
    } else if known {
        put_select(out, at, f)
    } else {
        let to = put_definition(out, at, f);
        put_select(out, to, f)
    }
}
