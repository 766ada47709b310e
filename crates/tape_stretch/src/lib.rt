// Stretches of 00 and of the flashes and escapes that a C/A/T takes, without the whole step: counted, or written.
#![tactic(auto)]

pub mod derived;

ghost use Rattle.std.specs.Prelude.{◌≡◌, true, ◌≤◌};
ghost use Rattle.typesetter.specs.Sound.{Sound};
ghost use Rattle.tape_stretch.specs.Stretch.{DerivedFrom, escape_by, flashes_in, Quickly, Strides, stretch_at};
ghost use Rattle.tape_stretch.specs.Further.{Stretched};

use crate::derived::Derived;
use galley_file::character::Character;
use galley_file::form::Form;
use galley_file::{character, font, form};
use measure::Units;
use typesetter::code;
use typesetter::machine::State;

// Where a stretch of codes ends: the place on the tape, the carriage, and the number of characters.
#[derive(Clone, Copy)]
pub struct Stretch {
    pub next: usize,
    pub carriage: Units,
    pub count: usize,
}

// A character set, or the carriage at a place.
#[derive(Clone, Copy)]
pub enum Quick {
    Set(Character),
    At(Units),
}

impl Stretch {
    // No code yet.
    fn at(s: State, from: usize, before: usize) -> Stretch
        ensures { result ≡ stretch_at s from before }
    {
        Stretch {
            next: from,
            carriage: s.carriage,
            count: before,
        }
    }
}

// What a code does, where it is 00, a flash or an escape that is taken.
fn quick_step(s: State, d: Derived, b: u8) -> Option<Quick>
    requires { (Sound s) × (DerivedFrom s d) }
    ensures { Quickly s b result }
{
    if b <= d.last_flash {
        if b == 0 {
            return Some(Quick::At(s.carriage));
        }
        return Some(Quick::Set(Character {
            x: s.carriage.x(font::is_double(s.size)),
            height: s.height,
            font: d.font,
            code: s.modes.code(b),
        }));
    }
    if b >> 7 == 0 || d.last_escape < b {
        return None;
    }
    let carriage = s
        .carriage
        .escape(code::escape_size(b), s.modes.escape_back)?;
    Some(Quick::At(carriage))
}

// How far b escapes: 0 for a flash. A product, so that flashes and escapes go the same way.
fn escape_by(b: u8) -> u8
    ensures { result ≡ escape_by b }
{
    (b >> 7) * code::escape_size(b)
}

// How many characters b sets, if it is 00, a flash or an escape.
fn flashes_in(b: u8) -> usize
    ensures { result ≡ flashes_in b }
{
    if b == 0 { 0 } else { 1 - (b >> 7) as usize }
}

// A stretch from `from` on, after `before` characters: counts. Flashes and escapes mix at random, so no branch tells them apart.
// A `for` over the codes is no plainer: `from` may lie past the tape, and the place that a stretch comes to goes back with it.
pub fn count_stretch(s: State, d: Derived, tape: &[u8], from: usize, before: usize) -> Stretch
    requires { ((Sound s) × (DerivedFrom s d)) × (before ≤ from) }
    ensures { Strides tape.now s d.font (stretch_at s from before) result }
{
    let mut r = Stretch::at(s, from, before);
    while r.next < tape.len() {
        let b = tape[r.next];
        if !d.takes(b) {
            break;
        }
        let Some(carriage) = r.carriage.escape(escape_by(b), s.modes.escape_back) else {
            break;
        };
        r.carriage = carriage;
        r.count += flashes_in(b);
        r.next += 1;
    }
    r
}

// A stretch from `from` on, after `before` characters and so many bytes of cuts: writes their fields, as long as there is room.
// `while`, as in `count_stretch`, and apart from it, since counting takes no branch for a flash or an escape.
fn write_stretch(
    s: State,
    d: Derived,
    tape: &[u8],
    from: usize,
    before: usize,
    cuts: usize,
    out: &mut [u8],
) -> Stretch
    requires { ((Sound s) × (DerivedFrom s d)) × (before ≤ from) }
    ensures { Stretched true tape.now out.old s before cuts from result out.new }
{
    let mut r = Stretch::at(s, from, before);
    if out.len() < cuts {
        return r;
    }
    let room = (out.len() - cuts) / form::NEW_FIELD;
    while r.next < tape.len() {
        let here = State {
            carriage: r.carriage,
            ..s
        };
        match quick_step(here, d, tape[r.next]) {
            Some(Quick::Set(c)) => {
                if room <= r.count {
                    break;
                }
                character::put_character(Form::New, out, form::NEW_FIELD * r.count + cuts, c);
                r.count += 1;
                r.next += 1;
            }
            Some(Quick::At(c)) => {
                r.carriage = c;
                r.next += 1;
            }
            None => {
                break;
            }
        }
    }
    r
}

// A stretch from `from` on, after `before` characters and so many bytes of cuts; writes their fields, if writing.
pub fn quick_stretch(
    writing: bool,
    s: State,
    d: Derived,
    tape: &[u8],
    from: usize,
    before: usize,
    cuts: usize,
    out: &mut [u8],
) -> Stretch
    requires { ((Sound s) × (DerivedFrom s d)) × (before ≤ from) }
    ensures { Stretched writing tape.now out.old s before cuts from result out.new }
{
    if writing {
        write_stretch(s, d, tape, from, before, cuts, out)
    } else {
        count_stretch(s, d, tape, from, before)
    }
}
