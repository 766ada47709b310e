// The codes of an item, sent from one state of the machine to the next.
ghost use Rattle.std.specs.Prelude.{◌≡◌, true, ◌<◌};
ghost use Rattle.measure.specs.Place.{height_end};
ghost use Rattle.galley_file.specs.declared.item.Item.TheVariants.{Placed};
ghost use Rattle.galley_file.specs.Character.{valid};
ghost use Rattle.galley_file.specs.Item.{valid_item};
ghost use Rattle.typesetter.specs.Sound.{Sound};
ghost use Rattle.punch_codes.specs.Codes.{start_codes, flash_for, set_for, font_codes, setting_codes, moving_codes, item_codes, state_after};
ghost use Rattle.octets.specs.Write.{Put};
ghost use Rattle.octets.specs.Space.{Space};

use crate::axis::Axis;
use crate::put;
use galley_file::character::Character;
use galley_file::item::Item;
use typesetter::machine;
use typesetter::machine::{Modes, State};

const INITIALIZE: u8 = 0x40;

const LOWER_RAIL: u8 = 0x41;

const UPPER_RAIL: u8 = 0x42;

const UPPER_MAG: u8 = 0x43;

const LOWER_MAG: u8 = 0x44;

const LOWER_HALF: u8 = 0x45;

const UPPER_HALF: u8 = 0x46;

const CUT: u8 = 0x4B;

const TILT_UP: u8 = 0x4E;

const TILT_DOWN: u8 = 0x4F;

// An escape of 16.
const FIRST_ESCAPE: u8 = 0xEF;

// Initialize, and an escape of 16.
pub fn put_start(writing: bool, out: &mut [u8], at: usize) -> usize
    requires { Space writing out.old at start_codes }
    ensures { Put writing out.old at start_codes out.new result }
{
    let to = put::put_code(writing, out, at, INITIALIZE);
    put::put_code(writing, out, to, FIRST_ESCAPE)
}

// Rail, mag and tilt, where they differ.
fn put_font(writing: bool, out: &mut [u8], at: usize, s: Modes, t: Modes) -> usize
    requires { Space writing out.old at (font_codes s t) }
    ensures { Put writing out.old at (font_codes s t) out.new result }
{
    let mut to = put::put_switch(
        writing,
        out,
        at,
        LOWER_RAIL,
        UPPER_RAIL,
        s.upper_rail,
        t.upper_rail,
    );
    to = put::put_switch(
        writing,
        out,
        to,
        LOWER_MAG,
        UPPER_MAG,
        s.upper_mag,
        t.upper_mag,
    );
    put::put_switch(
        writing,
        out,
        to,
        TILT_UP,
        TILT_DOWN,
        s.tilt_down,
        t.tilt_down,
    )
}

// Rail, mag, tilt, half and size, where they differ.
fn put_setting(writing: bool, out: &mut [u8], at: usize, s: State, t: State) -> usize
    requires { (t.size < 15) × Space writing out.old at (setting_codes s t) }
    ensures { Put writing out.old at (setting_codes s t) out.new result }
{
    let mut to = put_font(writing, out, at, s.modes, t.modes);
    to = put::put_switch(
        writing,
        out,
        to,
        LOWER_HALF,
        UPPER_HALF,
        s.modes.upper_half,
        t.modes.upper_half,
    );
    put::put_size(writing, out, to, s.size, t.size)
}

// Sideways, and then up or down.
fn put_moving(writing: bool, out: &mut [u8], at: usize, s: State, t: State) -> usize
    requires { (Sound s × Sound t) × Space writing out.old at (moving_codes s t) }
    ensures { Put writing out.old at (moving_codes s t) out.new result }
{
    let to = Axis::ESCAPES.put_motion(
        writing,
        out,
        at,
        s.modes.escape_back,
        t.modes.escape_back,
        s.carriage.0,
        t.carriage.0,
    );
    Axis::LEADS.put_motion(
        writing,
        out,
        to,
        s.modes.lead_back,
        t.modes.lead_back,
        s.height.0,
        t.height.0,
    )
}

// The flash of a character in its half.
fn flash_for(code: u8) -> u8
    ensures { result ≡ flash_for code }
{
    if machine::LOWER_HALF < code {
        code - machine::LOWER_HALF
    } else {
        code
    }
}

// The codes of a character, for which the machine is set in the state t.
fn put_character(
    writing: bool,
    out: &mut [u8],
    at: usize,
    s: State,
    t: State,
    c: Character,
) -> usize
    requires { ((Sound s) × (t ≡ set_for s c)) × ((valid height_end c ≡ true) × Space writing out.old at (item_codes s (Placed c))) }
    ensures { Put writing out.old at (item_codes s (Placed c)) out.new result }
{
    let mut to = put_setting(writing, out, at, s, t);
    to = put_moving(writing, out, to, s, t);
    put::put_code(writing, out, to, flash_for(c.code))
}

// The codes of an item, after which the machine is in the state t.
pub fn put_item(writing: bool, out: &mut [u8], at: usize, s: State, t: State, i: Item) -> usize
    requires { ((Sound s) × (t ≡ state_after s i)) × ((valid_item height_end i ≡ true) × Space writing out.old at (item_codes s i)) }
    ensures { Put writing out.old at (item_codes s i) out.new result }
{
    match i {
        Item::Placed(c) => put_character(writing, out, at, s, t, c),
        Item::Cut => {
            let to = put::put_code(writing, out, at, CUT);
            put_start(writing, out, to)
        }
    }
}
