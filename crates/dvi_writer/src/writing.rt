// The writing: how far a file is made.
ghost use Rattle.dvi.specs.Writer.{first_writing};
ghost use Rattle.dvi_writer.specs.Writing.{WritingIs};

use dvi::opcode;
use dvi_characters::position::Position;

#[derive(Clone, Copy)]
pub struct Writing {
    pub position: Position,
    // The page's number.
    pub page: u32,
    // The offset of its BOP.
    pub bop: u32,
    // The offset of the next byte.
    pub at: usize,
}

impl Writing {
    // After the first BOP.
    pub fn first() -> Self
        ensures { WritingIs result first_writing }
    {
        Writing {
            position: Position::start(),
            page: 1,
            bop: 0,
            at: opcode::BOP_LENGTH,
        }
    }
}
