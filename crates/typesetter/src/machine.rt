// The C/A/T (document 01, "Tape codes"): its state, the effects that a code can have, and the font and the character in force.
ghost use Rattle.std.specs.Prelude.{◌≡◌, false, ◌≤◌, ◌<◌};
ghost use Rattle.galley_file.specs.Font.{font_number};
ghost use Rattle.typesetter.specs.Machine.{start, first_modes, no_size_yet, initialized_of, pair_of, font_in, past_half, code_in};

use crate::code::Machine;
use galley_file::character::Character;
use galley_file::font;
use measure::{Quanta, Units};

// What initialize resets.
#[derive(Clone, Copy, PartialEq, Eq)]
pub struct Modes {
    pub escape_back: bool,
    pub lead_back: bool,
    pub upper_half: bool,
    pub upper_rail: bool,
    pub upper_mag: bool,
    pub tilt_down: bool,
}

// Carriage and height have no invariant here: a running tape's state is made of any words that C lends (`spatecanter_running::words`).
#[derive(Clone, Copy)]
pub struct State {
    pub machine: Machine,
    pub initialized: bool,
    pub parked: bool,
    pub stopped: bool,
    // A cut came last: initialize has to follow.
    pub cut: bool,
    pub modes: Modes,
    // The size index, or NO_SIZE_YET. No Option: C keeps the number as it is in a running tape's words, where any number is possible.
    pub size: u8,
    pub carriage: Units,
    pub height: Quanta,
}

// What a code that is not refused does: it leaves another state, sets a character, or ends the page.
#[derive(Clone, Copy)]
pub enum Effect {
    Moved(State),
    Flashed(Character),
    PageEnded(State),
}

pub const NO_SIZE_YET: u8 = font::SIZES;

// The flashes of the lower and of the upper half.
pub const LOWER_HALF: u8 = 63;

pub const UPPER_HALF: u8 = 45;

impl Modes {
    // The modes after initialize.
    fn first() -> Modes
        ensures { result ≡ first_modes }
    {
        Modes {
            escape_back: false,
            lead_back: false,
            upper_half: false,
            upper_rail: false,
            upper_mag: false,
            tilt_down: true,
        }
    }

    // The pair of rail and mag in force, 0 to 3.
    fn pair(self) -> u8
        ensures { (result ≡ pair_of self.upper_rail self.upper_mag) × (result ≤ 3) }
    {
        match (self.upper_mag, self.upper_rail) {
            (false, false) => 0,
            (false, true) => 1,
            (true, false) => 2,
            (true, true) => 3,
        }
    }

    // The font in force.
    fn font(self, machine: Machine) -> u8
        ensures { (result ≡ font_in machine self) × ((1 ≤ result) × (result ≤ 8)) }
    {
        let pair = self.pair();
        match machine {
            Machine::Four => pair + 1,
            Machine::Eight if self.tilt_down => 2 * pair + 2,
            Machine::Eight => 2 * pair + 1,
        }
    }

    // Whether a flash of v is past the end of the half.
    pub fn is_past_half(self, v: u8) -> bool
        ensures { result ≡ past_half self.upper_half v }
    {
        self.upper_half && UPPER_HALF < v
    }

    // The character that a flash of v sets.
    pub fn code(self, v: u8) -> u8
        requires { past_half self.upper_half v ≡ false }
        ensures { result ≡ code_in self.upper_half v }
    {
        if self.upper_half { LOWER_HALF + v } else { v }
    }
}

impl State {
    // The state before the first code.
    pub fn at_start(machine: Machine) -> State
        ensures { result ≡ start machine }
    {
        State {
            machine,
            initialized: false,
            parked: false,
            stopped: false,
            cut: false,
            modes: Modes::first(),
            size: NO_SIZE_YET,
            carriage: Units(0),
            height: Quanta(0),
        }
    }

    // Initialize: the modes anew and the carriage parked; size and height stay.
    pub fn after_initialize(self) -> State
        ensures { result ≡ initialized_of self }
    {
        State {
            initialized: true,
            parked: true,
            cut: false,
            modes: Modes::first(),
            carriage: Units(0),
            ..self
        }
    }

    // The font number in force.
    pub fn font_number(self) -> u8
        requires { self.size < no_size_yet }
        ensures { result ≡ font_number (font_in self.machine self.modes) self.size }
    {
        font::font_number(self.modes.font(self.machine), self.size)
    }
}
