// The machine set for a character, or begun anew.
ghost use Rattle.std.specs.Prelude.{◌≡◌, true, pos, ◌≤ℤ◌};
ghost use Rattle.measure.specs.Place.{height_end};
ghost use Rattle.galley_file.specs.Character.{valid};
ghost use Rattle.galley_file.specs.Item.{valid_item};
ghost use Rattle.punch_codes.specs.Codes.{begun_from, begun, carriage_of, backward_to, modes_for, set_for, state_after};

use galley_file::character::Character;
use galley_file::font;
use galley_file::item::Item;
use measure::{Quanta, Units};
use std::cmp::Ordering;
use typesetter::code::Machine;
use typesetter::machine;
use typesetter::machine::{Modes, State};

// The machine after initialize and an escape of 16.
fn begun_from(s: State) -> State
    ensures { result ≡ begun_from s }
{
    State {
        parked: false,
        carriage: Units(0),
        ..s.after_initialize()
    }
}

// The machine at the start of a tape.
pub fn at_begin() -> State
    ensures { result ≡ begun }
{
    begun_from(State::at_start(Machine::Eight))
}

// The direction in force after a motion, true for backward.
fn backward_to(old: bool, from: i32, to: i32) -> bool
    ensures { result ≡ backward_to old from to }
{
    match to.cmp(&from) {
        Ordering::Less => true,
        Ordering::Equal => old,
        Ordering::Greater => false,
    }
}

// The carriage of an x: 55 more in a double size.
fn carriage_of(x: Units, double: bool) -> Units
    requires { x.0 ≤ℤ pos 3239 }
    ensures { result.0 ≡ carriage_of x.0 double }
{
    if double {
        Units(x.0 + measure::DOUBLE_SHIFT.0)
    } else {
        x
    }
}

// The modes for a character, where the carriage goes `across`.
fn modes_for(s: State, c: Character, across: Units) -> Modes
    ensures { result ≡ modes_for s c across.0 }
{
    let font = font::font_of(c.font);
    Modes {
        escape_back: backward_to(s.modes.escape_back, s.carriage.0, across.0),
        lead_back: backward_to(s.modes.lead_back, s.height.0, c.height.0),
        upper_half: machine::LOWER_HALF < c.code,
        upper_rail: (font - 1) / 2 % 2 == 1,
        upper_mag: 4 < font,
        tilt_down: font % 2 == 0,
    }
}

// The machine set for a character.
fn set_for(s: State, c: Character) -> State
    requires { valid height_end c ≡ true }
    ensures { result ≡ set_for s c }
{
    let size = font::size_index(c.font);
    let carriage = carriage_of(c.x, font::is_double(size));
    State {
        modes: modes_for(s, c, carriage),
        size,
        carriage,
        height: c.height,
        ..s
    }
}

// The machine after an item.
pub fn state_after(s: State, i: Item) -> State
    requires { valid_item height_end i ≡ true }
    ensures { result ≡ state_after s i }
{
    match i {
        Item::Placed(c) => set_for(s, c),
        Item::Cut => begun_from(State {
            height: Quanta(0),
            ..s
        }),
    }
}
