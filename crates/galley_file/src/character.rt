// A galley's characters and their fields (document 01, "Galley"), in either form.
ghost use Rattle.std.specs.Prelude.{◌≡◌, ◌&&◌, ◌+◌, ◌≤◌, leb, ltb, length, pos, ◌≤ℤ◌};
ghost use Rattle.octets.specs.Octets.{nat_at, signed_bytes};
ghost use Rattle.octets.specs.Write.{Wrote};
ghost use Rattle.galley_file.specs.Font.{size_index, is_double};
ghost use Rattle.galley_file.specs.Form.{height_bytes, character_size, greatest_height};
ghost use Rattle.galley_file.specs.Character.{valid_x, valid, character_field, character_at, is_character};

use crate::form;
use crate::form::Form;
use measure::{Quanta, Units};
use octets::{field, number};

#[derive(Clone, Copy, PartialEq, Eq)]
pub struct Character {
    pub x: Units,
    pub height: Quanta,
    // The font number, 0 to 119.
    pub font: u8,
    // The character, 1 to 108.
    pub code: u8,
}

// Where x starts in a field, and the height.
const X_AT: usize = 3;

const HEIGHT_AT: usize = 5;

pub const LAST_CODE: u8 = 108;

// The greatest x of a double size, which is valid in every size.
const LAST_DOUBLE_X: Units = Units(measure::CARRIAGE_END.0 - measure::DOUBLE_SHIFT.0);

// Whether x is valid in a single or a double size.
pub fn valid_x(double: bool, x: Units) -> bool
    ensures { result ≡ valid_x double x.0 }
{
    if double {
        measure::FIRST_X.0 <= x.0 && x.0 <= LAST_DOUBLE_X.0
    } else {
        0 <= x.0 && x.0 <= measure::CARRIAGE_END.0
    }
}

// Whether c is valid but for its height, where `across` says whether its x is. With && here and in `is_character` going from item to
// item takes 5% more.
fn valid_beside_x(c: Character, across: bool) -> bool
    ensures { result ≡ (ltb c.font 120 && leb 1 c.code && leb c.code 108 && across) }
{
    if crate::font::FONTS <= c.font {
        return false;
    }
    if c.code < 1 {
        return false;
    }
    if LAST_CODE < c.code {
        return false;
    }
    across
}

// Whether c is valid but for its height.
pub fn valid_but_height(c: Character) -> bool
    ensures { result ≡ (ltb c.font 120 && leb 1 c.code && leb c.code 108 && valid_x (is_double (size_index c.font)) c.x.0) }
{
    valid_beside_x(
        c,
        valid_x(crate::font::is_double(crate::font::size_index(c.font)), c.x),
    )
}

// The number in a height's bytes, from `at`.
fn height_at(f: Form, s: &[u8], at: usize) -> u32
    requires { at + height_bytes f ≤ length s.now }
    ensures { result ≡ nat_at (height_bytes f) at s.now }
{
    match f {
        Form::Old => number::nat2_at(s, at),
        Form::New => number::nat4_at(s, at),
    }
}

// The character whose field starts at i, of a height in range.
pub fn character_at(f: Form, s: &[u8], i: usize) -> Character
    requires { (i + character_size f ≤ length s.now) × (pos (nat_at (height_bytes f) (i + 5) s.now) ≤ℤ greatest_height f) }
    ensures { result ≡ character_at f s.now i }
{
    let end = i + form::character_size(f);
    let x = number::signed2_at(s, i + X_AT);
    let height = height_at(f, s, i + HEIGHT_AT) as i32;
    Character {
        x: Units(x),
        height: Quanta(height),
        font: s[end - 2],
        code: s[end - 1],
    }
}

// Whether the character whose field s starts with is valid, of a height in range. An x of 0 to LAST_DOUBLE_X is valid in every size.
fn is_valid_first(f: Form, s: &[u8]) -> bool
    requires { (character_size f ≤ length s.now) × (pos (nat_at (height_bytes f) 5 s.now) ≤ℤ greatest_height f) }
    ensures { result ≡ valid (greatest_height f) (character_at f s.now 0) }
{
    let c = character_at(f, s, 0);
    if number::nat2_at(s, X_AT) <= LAST_DOUBLE_X.0 as u32 {
        valid_beside_x(c, true)
    } else {
        valid_but_height(c)
    }
}

// Whether s starts with the whole field of a valid character.
pub fn is_character(f: Form, s: &[u8]) -> bool
    ensures { result ≡ is_character f s.now }
{
    if field::starts_field(s, form::character_tag(f), form::body_bytes(f)) {
        if height_at(f, s, HEIGHT_AT) <= form::greatest_height(f).0 as u32 {
            is_valid_first(f, s)
        } else {
            false
        }
    } else {
        false
    }
}

// Writes a height; gives the place after it.
fn put_height(f: Form, out: &mut [u8], at: usize, h: Quanta) -> usize
    requires { at + height_bytes f ≤ length out.old }
    ensures { Wrote out.old at (signed_bytes (height_bytes f) h.0) out.new result }
{
    match f {
        Form::Old => number::put_signed2(out, at, h.0),
        Form::New => number::put_signed4(out, at, h.0),
    }
}

// Writes a character's field; gives the place after it.
pub fn put_character(f: Form, out: &mut [u8], at: usize, c: Character) -> usize
    requires { at + character_size f ≤ length out.old }
    ensures { Wrote out.old at (character_field f c) out.new result }
{
    let mut to = field::put_head(out, at, form::character_tag(f), form::body_bytes(f));
    to = number::put_signed2(out, to, c.x.0);
    to = put_height(f, out, to, c.height);
    to = number::put_byte(out, to, c.font);
    number::put_byte(out, to, c.code)
}
