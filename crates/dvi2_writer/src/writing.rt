// The writing: how far a file is made, and what its postamble needs to know.
ghost use Rattle.std.specs.Prelude.{◌≡◌, true, []};
ghost use Rattle.measure.specs.Place.{height_end};
ghost use Rattle.galley_file.specs.Character.{valid};
ghost use Rattle.dvi2_writer.specs.Writing.{WritingIs, Advanced};

use dvi2_commands::position::Position;
use extents::Extents;
use galley_file::character::Character;

// Where the first bop stands, and the first command after it.
const FIRST_BOP: u32 = dvi2_frame::PRE_LENGTH as u32;

const FIRST_COMMAND: usize = dvi2_frame::PRE_LENGTH + dvi2_frame::BOP_LENGTH;

#[derive(Clone, Copy)]
pub struct Writing {
    pub position: Position,
    // Those of the characters so far, whose fonts are defined.
    pub extents: Extents,
    // The page's number.
    pub page: u32,
    // The offset of its bop.
    pub bop: u32,
    // The offset of the next byte.
    pub at: usize,
}

impl Writing {
    // After the first bop.
    pub fn first() -> Self
        ensures { WritingIs result [] }
    {
        Writing {
            position: Position::start(),
            extents: extents::none(),
            page: 1,
            bop: FIRST_BOP,
            at: FIRST_COMMAND,
        }
    }

    // After c, whose commands end before `at`.
    pub fn after_character(self, c: Character, at: usize) -> Self
        requires { valid height_end c ≡ true }
        ensures { Advanced self c at result }
    {
        Writing {
            position: Position::at_character(c),
            extents: extents::with_character(self.extents, c),
            at,
            ..self
        }
    }
}
