// The commands of a character: its font, the moves to its place, and put1.
ghost use Rattle.std.specs.Prelude.{◌≡◌, true, ◌≤◌, ◌<◌};
ghost use Rattle.measure.specs.Place.{height_end};
ghost use Rattle.galley_file.specs.Character.{valid};
ghost use Rattle.dvi2.specs.Writer.{parameter_width, move, commands_of};
ghost use Rattle.octets.specs.PutIfRoom.{PutIfRoom};
ghost use Rattle.dvi2_commands.specs.Position.{position_of, OnPage};

use crate::position::Position;
use crate::{font, put};
use dvi2::opcode;
use galley_file::character::Character;
use octets::number;

// The fewest of 1, 2, 3 and 4 bytes that hold z in two's complement.
pub fn parameter_width(z: i32) -> usize
    ensures { (result ≡ parameter_width z) × ((1 ≤ result) × (result ≤ 4)) }
{
    if number::magnitude(z) < 128 {
        1
    } else {
        number::signed_width(z)
    }
}

// Writes a move, if it is not 0, by the shortest of four commands: op takes one byte, and the next three take two, three and four.
fn put_move(out: &mut [u8], at: usize, op: u8, m: i32) -> usize
    requires { (at < 4294967296) × (op ≤ 200) }
    ensures { PutIfRoom out.old at (move op m) out.new result }
{
    if m == 0 {
        return at;
    }
    let width = parameter_width(m);
    if out.len() < at + 1 + width {
        return at + 1 + width;
    }
    let to = number::put_byte(out, at, op + (width - 1) as u8);
    number::put_signed(out, to, width, m)
}

impl Position {
    // Writes the commands that set c after this position; `known` says whether its font is defined.
    pub fn put_commands(self, out: &mut [u8], at: usize, known: bool, c: Character) -> usize
        requires { (at < 2147483648) × (OnPage (position_of self) × (valid height_end c ≡ true)) }
        ensures { PutIfRoom out.old at (commands_of known (position_of self) c) out.new result }
    {
        let right = self.right_to(c);
        let down = self.down_to(c);
        let mut to = font::put_font(out, at, known, self.font, c.font);
        to = put_move(out, to, opcode::RIGHT1, right);
        to = put_move(out, to, opcode::DOWN1, down);
        put::put_bytes(out, to, &[opcode::PUT1, c.code])
    }
}
