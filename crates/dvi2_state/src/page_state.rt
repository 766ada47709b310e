// What is there of the next character of a page, and what a command leads to.
ghost use Rattle.std.specs.Prelude.{◌≡◌};
ghost use Rattle.dvi.specs.FontOrNone.{font_or_none};
ghost use Rattle.dvi2_reading.specs.PageReading as Page;
ghost use Rattle.dvi2_state.specs.Page.{stage_of};

use dvi::font_byte;
use galley_file::{character, font};
use measure::{Quanta, Units};

// What is there of the next character.
#[derive(Clone, Copy)]
pub enum Stage {
    Ready,
    Named,
    Chosen,
    Moved,
    Lowered,
}

// The font and the place to which the commands so far lead, and what is there of the next character, side by side: a value inside a
// value is packed and unpacked at each command.
#[derive(Clone, Copy)]
pub struct PageState {
    // The font number, or NO_FONT: with an Option<u8> in its place reading takes 40 percent more instructions.
    pub font: u8,
    pub stage: Stage,
    pub height: Quanta,
    pub x: Units,
}

// What a command of a page does.
#[derive(Clone, Copy)]
pub enum Stepped {
    // eop.
    End,
    // A character of this code is put.
    Put(u8),
    // The state after the command, and the bytes of its parameters.
    Go(PageState, usize),
}

// What is wrong with the command at a place.
#[derive(Clone, Copy, PartialEq, Eq)]
pub enum Wrong {
    // No file goes on so.
    Bad,
    // The file ends inside a command that may come.
    Short,
}

impl Stage {
    pub fn is_ready(self) -> bool
        ensures { result ≡ Page.is_ready (stage_of self) }
    {
        matches!(self, Stage::Ready)
    }

    pub fn before_right(self) -> bool
        ensures { result ≡ Page.before_right (stage_of self) }
    {
        matches!(self, Stage::Ready | Stage::Chosen)
    }

    pub fn before_down(self) -> bool
        ensures { result ≡ Page.before_down (stage_of self) }
    {
        matches!(self, Stage::Ready | Stage::Chosen | Stage::Moved)
    }

    pub fn before_put(self) -> bool
        ensures { result ≡ Page.before_put (stage_of self) }
    {
        !matches!(self, Stage::Named)
    }
}

impl PageState {
    // Whether a character of its font may stand at x.
    pub fn valid_in(self, x: Units) -> bool
        ensures { result ≡ Page.valid_in (font_or_none self.font) x.0 }
    {
        self.font != font_byte::NO_FONT
            && character::valid_x(font::is_double(font::size_index(self.font)), x)
    }

    // With this stage and font.
    pub fn with_font(self, stage: Stage, font: u8) -> PageState
        ensures { result ≡ record { stage = stage; font = font; x = self.x; height = self.height } }
    {
        PageState {
            stage,
            font,
            ..self
        }
    }
}
