// The position: the font and the place that were last set on a page.
ghost use Rattle.std.specs.Prelude.{◌≡◌, true, ◌-ℤ◌};
ghost use Rattle.measure.specs.Place.{height_end};
ghost use Rattle.galley_file.specs.Character.{valid};
ghost use Rattle.dvi.specs.Writer.{start_position};
ghost use Rattle.dvi2.specs.Writer.{h_of, v_of, position_at};
ghost use Rattle.dvi2_commands.specs.Position.{position_of, OnPage, PositionIs};

use dvi::font_byte;
use galley_file::character::Character;
use measure::{Quanta, Units};

#[derive(Clone, Copy)]
pub struct Position {
    // The font number, or NO_FONT.
    pub font: u8,
    pub x: Units,
    pub height: Quanta,
}

impl Position {
    // At the start of a page.
    pub fn start() -> Self
        ensures { PositionIs result start_position }
    {
        Position {
            font: font_byte::NO_FONT,
            x: Units(0),
            height: Quanta(0),
        }
    }

    // At c.
    pub fn at_character(c: Character) -> Self
        requires { valid height_end c ≡ true }
        ensures { PositionIs result (position_at c) }
    {
        Position {
            font: c.font,
            x: c.x,
            height: c.height,
        }
    }

    // The move to the right from the position to c, in the file's units of 1/432 inch.
    pub fn right_to(self, c: Character) -> i32
        requires { OnPage (position_of self) × (valid height_end c ≡ true) }
        ensures { result ≡ h_of c -ℤ (position_of self).x }
    {
        c.x.0 - self.x.0
    }

    // The move down from the position to c, in the same units.
    pub fn down_to(self, c: Character) -> i32
        requires { OnPage (position_of self) × (valid height_end c ≡ true) }
        ensures { result ≡ v_of c -ℤ (position_of self).y }
    {
        measure::PER_QUANTUM * (c.height.0 - self.height.0)
    }
}
