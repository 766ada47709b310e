// What is derived from a state, once for many flashes and escapes.
ghost use Rattle.std.specs.Prelude.{◌≡◌, true};
ghost use Rattle.tape_stretch.specs.Stretch.{Ready, half_size, DerivedFrom, Takes};

use typesetter::machine;
use typesetter::machine::State;

// It outlives flashes and escapes: the last escape and the last flash that are taken, or 0, and the font number.
#[derive(Clone, Copy, PartialEq, Eq)]
pub struct Derived {
    pub last_escape: u8,
    pub last_flash: u8,
    pub font: u8,
}

// The last code that is an escape.
const LAST_ESCAPE: u8 = 254;

// Initialized, neither stopped nor cut, and off the left switch.
pub fn is_ready(s: State) -> bool
    ensures { result ≡ true → Ready s }
{
    s.initialized && !s.cut && !s.stopped && !s.parked
}

// The last flash of a half.
fn half_size(upper: bool) -> u8
    ensures { result ≡ half_size upper }
{
    if upper {
        machine::UPPER_HALF
    } else {
        machine::LOWER_HALF
    }
}

impl Derived {
    // Nothing is taken of a machine that is not ready, and no flash before a size.
    pub fn of(s: State) -> Derived
        ensures { DerivedFrom s result }
    {
        if !is_ready(s) {
            Derived {
                last_escape: 0,
                last_flash: 0,
                font: 0,
            }
        } else if machine::NO_SIZE_YET <= s.size {
            Derived {
                last_escape: LAST_ESCAPE,
                last_flash: 0,
                font: 0,
            }
        } else {
            Derived {
                last_escape: LAST_ESCAPE,
                last_flash: half_size(s.modes.upper_half),
                font: s.font_number(),
            }
        }
    }

    // Whether b is 00, or a flash or an escape that is taken, if the carriage stays in range.
    pub(crate) fn takes(self, b: u8) -> bool
        ensures { result ≡ true → Takes self b }
    {
        if b >> 7 == 1 {
            b <= self.last_escape
        } else {
            b <= self.last_flash
        }
    }
}
