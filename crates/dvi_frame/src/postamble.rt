// The postamble: the last BOP's offset, height and width, the font definitions, the trailer.
ghost use Rattle.std.specs.Prelude.{◌≡◌, ◌+◌, ◌≤◌, ◌<◌, length};
ghost use Rattle.octets.specs.Write.{Wrote};
ghost use Rattle.measure.specs.Target.{x_target, y_target};
ghost use Rattle.extents.specs.FontMarks.{marked_fonts};
ghost use Rattle.dvi.specs.Writer.{definition, definition_bytes, trailer_bytes};
ghost use Rattle.dvi_frame.specs.Postamble.{marked_font, head_bytes, postamble_of, HeldExtents};

use dvi::{name, opcode};
use extents::fonts::Fonts;
use extents::{Extents, fonts};
use galley_file::font;
use measure::{Rsu, target_table};
use octets::number;

// The bytes of a postamble without definitions.
pub const FRAME: usize = 26;

// The bytes of a definition.
pub const DEFINITION: usize = 14;

// Four bytes 223 end the file.
const FOUR_223: u32 = 0x0101_0101 * opcode::FILLER as u32;

// The width and the height of a file.
#[derive(Clone, Copy)]
pub struct Sizes {
    pub x: Rsu,
    pub y: Rsu,
}

impl Sizes {
    // The targets of the farthest x and the greatest height.
    fn of(e: Extents) -> Self
        requires { HeldExtents e }
        ensures { (result.x.0 ≡ x_target e.x.0) × (result.y.0 ≡ y_target e.height.0) }
    {
        let targets = target_table::targets();
        Sizes {
            x: e.x.target(&targets),
            y: e.height.target(),
        }
    }
}

// Writes PST, the last BOP's offset, and the largest Y and X.
fn put_head(out: &mut [u8], at: usize, last: u32, sizes: Sizes) -> usize
    requires { at + 13 ≤ length out.old }
    ensures { Wrote out.old at (head_bytes last sizes.y.0 sizes.x.0) out.new result }
{
    let mut to = number::put_byte(out, at, opcode::PST);
    to = number::put_nat4(out, to, last);
    to = number::put_signed4(out, to, sizes.y.0);
    number::put_signed4(out, to, sizes.x.0)
}

// Writes the definition of font f: ID and number, and the name in quotes.
fn put_definition(out: &mut [u8], at: usize, f: u8) -> usize
    requires { (at + 14 ≤ length out.old) × (f < 120) }
    ensures { Wrote out.old at (definition f) out.new result }
{
    let mut to = number::put_nat4(out, at, f as u32);
    to = number::put_nat4(out, to, f as u32);
    to = number::put_byte(out, to, b'"');
    to = name::put_name(out, to, f);
    number::put_byte(out, to, b'"')
}

// Writes the definition of font f, if it is among the fonts.
fn put_marked(out: &mut [u8], at: usize, fonts: Fonts, f: u8) -> usize
    requires { (at + length (definition_bytes (marked_font fonts.low fonts.high f)) ≤ length out.old) × (f < 120) }
    ensures { Wrote out.old at (definition_bytes (marked_font fonts.low fonts.high f)) out.new result }
{
    if fonts::has_font(fonts, f) {
        put_definition(out, at, f)
    } else {
        at
    }
}

// Writes the definitions of the fonts, ascending.
fn put_definitions(out: &mut [u8], at: usize, fonts: Fonts) -> usize
    requires { at + length (definition_bytes (marked_fonts 120 fonts.low fonts.high)) ≤ length out.old }
    ensures { Wrote out.old at (definition_bytes (marked_fonts 120 fonts.low fonts.high)) out.new result }
{
    let mut to = at;
    for f in 0..font::FONTS {
        to = put_marked(out, to, fonts, f);
    }
    to
}

// Writes the trailer: -1, PST's offset, a zero byte, four bytes 223.
fn put_trailer(out: &mut [u8], at: usize, pst: u32) -> usize
    requires { at + 13 ≤ length out.old }
    ensures { Wrote out.old at (trailer_bytes pst) out.new result }
{
    let mut to = number::put_signed4(out, at, -1);
    to = number::put_nat4(out, to, pst);
    to = number::put_byte(out, to, 0);
    number::put_nat4(out, to, FOUR_223)
}

// Writes the postamble of a file with these extents, and with its last BOP at `last`.
pub fn put_postamble(out: &mut [u8], at: usize, last: u32, e: Extents) -> usize
    requires { HeldExtents e × ((at + length (postamble_of last at e) ≤ length out.old) × (at < 4294967296)) }
    ensures { Wrote out.old at (postamble_of last at e) out.new result }
{
    let sizes = Sizes::of(e);
    let mut to = put_head(out, at, last, sizes);
    to = put_definitions(out, to, e.fonts);
    put_trailer(out, to, at as u32)
}
