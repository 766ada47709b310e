// The codes that turn a mode or set a size. Which of them comes is hard to foresee, so no branch tells them apart.
ghost use Rattle.std.specs.Prelude.{◌≡◌, true};
ghost use Rattle.tape_stretch.specs.Stretch.{Ready};
ghost use Rattle.tape_quick.specs.Turn.{has_tilt, is_turn, turned_by, modes_after, size_after};

use tape_stretch::derived;
use typesetter::code::Machine;
use typesetter::machine::{Modes, State};

// Whether the machine has a tilt.
fn tilts(machine: Machine) -> bool
    ensures { result ≡ has_tilt machine }
{
    matches!(machine, Machine::Eight)
}

// Whether b turns a mode or sets a size.
fn turns(machine: Machine, b: u8) -> bool
    ensures { result ≡ is_turn machine b }
{
    let settles = (b != 0x40) & (b != 0x49) & (b != 0x4B) & (b != 0x4D) & (b != 0x5F);
    b >> 5 == 2 && settles & (tilts(machine) | (b >> 1 != 0x27))
}

// Whether the machine is ready, and b turns a mode or sets a size.
pub fn takes_turn(s: State, b: u8) -> bool
    ensures { result ≡ true → ((Ready s) × (is_turn s.machine b ≡ true)) }
{
    derived::is_ready(s) && turns(s.machine, b)
}

// A mode after b, which `on` sets and `off` clears.
fn turned(mode: bool, b: u8, on: u8, off: u8) -> bool
    ensures { result ≡ turned_by on off b mode }
{
    (mode & (b != off)) | (b == on)
}

// The modes after a code that turns one or sets a size: every mode is computed.
pub fn modes_after(m: Modes, b: u8) -> Modes
    ensures { result ≡ modes_after m b }
{
    Modes {
        escape_back: turned(m.escape_back, b, 0x48, 0x47),
        lead_back: turned(m.lead_back, b, 0x4C, 0x4A),
        upper_half: turned(m.upper_half, b, 0x46, 0x45),
        upper_rail: turned(m.upper_rail, b, 0x42, 0x41),
        upper_mag: turned(m.upper_mag, b, 0x43, 0x44),
        tilt_down: turned(m.tilt_down, b, 0x4F, 0x4E),
    }
}

// The size after a code that turns a mode or sets a size.
pub fn size_after(size: u8, b: u8) -> u8
    ensures { result ≡ size_after size b }
{
    if b >> 4 == 5 { b & 15 } else { size }
}
