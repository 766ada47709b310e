// The length of the commands that set a character.
ghost use Rattle.std.specs.Prelude.{◌≡◌, ◌≤◌, ◌<◌, length};
ghost use Rattle.dvi.specs.Writer.{font_change, move, commands_of};
ghost use Rattle.dvi.specs.FontOrNone.{font_or_none};
ghost use Rattle.dvi_characters.specs.Position.{position_of, OnPage, PositionAt};

use crate::position::Position;
use dvi::opcode;
use galley_file::character::Character;
use measure::Rsu;
use octets::number;

// HORZCHAR and its parameter.
const HORZCHAR_LENGTH: usize = 2;

// The bytes of a font change.
fn font_length(last: u8, font: u8) -> usize
    requires { font < 120 }
    ensures { (result ≡ length (font_change (font_or_none last) font)) × (result ≤ 5) }
{
    if last == font {
        0
    } else if font < opcode::FONTNUMS {
        1
    } else {
        5
    }
}

// The bytes of a move, whichever its command.
fn move_length(m: Rsu) -> usize
    ensures { (result ≡ length (move 0 m.0)) × (result ≤ 5) }
{
    let z = m.0;
    if z == 0 {
        0
    } else {
        1 + number::signed_width(z)
    }
}

impl Position {
    // The bytes of the commands that set c after this position; `next` is the position at c.
    pub fn commands_length(self, next: Position, c: Character) -> usize
        requires { OnPage (position_of self) × PositionAt next c }
        ensures { (result ≡ length (commands_of (position_of self) c)) × (result ≤ 17) }
    {
        let x = next.x.less(self.x);
        let y = next.y.less(self.y);
        font_length(self.font, c.font) + move_length(x) + move_length(y) + HORZCHAR_LENGTH
    }
}
