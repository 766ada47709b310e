// The commands that set a character: a font, if it changes, the moves, and HORZCHAR.
ghost use Rattle.std.specs.Prelude.{◌+◌, ◌≤◌, ◌<◌, length};
ghost use Rattle.octets.specs.Write.{Wrote};
ghost use Rattle.dvi.specs.Writer.{font_change, move, commands_of};
ghost use Rattle.dvi.specs.FontOrNone.{font_or_none};
ghost use Rattle.dvi_characters.specs.Position.{position_of, OnPage, PositionAt};

use crate::position::Position;
use dvi::opcode;
use galley_file::character::Character;
use measure::Rsu;
use octets::number;

// Writes a font command, if the font differs from the last.
fn put_font(out: &mut [u8], at: usize, last: u8, font: u8) -> usize
    requires { (at + length (font_change (font_or_none last) font) ≤ length out.old) × (font < 120) }
    ensures { Wrote out.old at (font_change (font_or_none last) font) out.new result }
{
    if last == font {
        at
    } else if font < opcode::FONTNUMS {
        number::put_byte(out, at, opcode::FONTNUM + font)
    } else {
        let to = number::put_byte(out, at, opcode::FONT);
        number::put_nat4(out, to, font as u32)
    }
}

// Writes a move, if it is not 0, by the shortest of three commands: op takes four bytes, and the next two take three and two.
fn put_move(out: &mut [u8], at: usize, op: u8, m: Rsu) -> usize
    requires { (at + length (move op m.0) ≤ length out.old) × (op ≤ 200) }
    ensures { Wrote out.old at (move op m.0) out.new result }
{
    let z = m.0;
    if z == 0 {
        return at;
    }
    let width = number::signed_width(z);
    let to = number::put_byte(out, at, op + (4 - width) as u8);
    number::put_signed(out, to, width, z)
}

impl Position {
    // Writes the commands that set c after this position; `next` is the position at c.
    pub fn put_commands(self, out: &mut [u8], at: usize, next: Position, c: Character) -> usize
        requires { (at + length (commands_of (position_of self) c) ≤ length out.old) × (OnPage (position_of self) × PositionAt next c) }
        ensures { Wrote out.old at (commands_of (position_of self) c) out.new result }
    {
        let x = next.x.less(self.x);
        let y = next.y.less(self.y);
        let mut to = put_font(out, at, self.font, c.font);
        to = put_move(out, to, opcode::X4, x);
        to = put_move(out, to, opcode::Y4, y);
        to = number::put_byte(out, to, opcode::HORZCHAR);
        number::put_byte(out, to, c.code)
    }
}
