// The postamble: post, the font definitions, post_post, and bytes 223.
ghost use Rattle.std.specs.Prelude.{cond, [], ◌∷◌, ◌+◌, ◌%◌, ◌<◌};
ghost use Rattle.extents.specs.FontMarks.{is_marked, marked_fonts};
ghost use Rattle.dvi2.specs.Writer.{definition_bytes, fillers, bytes223};
ghost use Rattle.octets.specs.PutIfRoom.{PutIfRoom};
ghost use Rattle.dvi2_writer.specs.Postamble.{Sized, postamble_of};

use crate::writing::Writing;
use dvi2::opcode;
use dvi2_commands::{font, put};
use extents::fonts;
use extents::fonts::Fonts;

// Writes the definition of font f, if it is among the fonts.
fn put_marked(out: &mut [u8], at: usize, fonts: Fonts, f: u8) -> usize
    requires { (at < 4294967296) × (f < 120) }
    ensures { PutIfRoom out.old at (definition_bytes (cond (is_marked fonts.low fonts.high f) (f ∷ []) [])) out.new result }
{
    if fonts::has_font(fonts, f) {
        font::put_definition(out, at, f)
    } else {
        at
    }
}

// Writes the definitions of the fonts, ascending.
fn put_definitions(out: &mut [u8], at: usize, fonts: Fonts) -> usize
    requires { at < 2147483648 }
    ensures { PutIfRoom out.old at (definition_bytes (marked_fonts 120 fonts.low fonts.high)) out.new result }
{
    let mut to = at;
    for f in 0..galley_file::font::FONTS {
        to = put_marked(out, to, fonts, f);
    }
    to
}

// Writes the postamble of a file whose pages are made.
pub fn put_postamble(out: &mut [u8], p: Writing) -> usize
    requires { Sized p }
    ensures { PutIfRoom out.old p.at (postamble_of p) out.new result }
{
    let post = p.at;
    let mut to = dvi2_frame::put_post(out, post, p.bop, p.extents, p.page);
    to = put_definitions(out, to, p.extents.fonts);
    dvi2_frame::put_post_post(out, to, post as u32)
}

// Writes the bytes 223 that end the file: the fewest, at least four, that make its length a multiple of four.
pub fn put_fillers(out: &mut [u8], at: usize) -> usize
    requires { at < 2147483648 }
    ensures { PutIfRoom out.old at (bytes223 (fillers at)) out.new result }
{
    let end = at + 4 + (4 - at % 4) % 4;
    let mut to = at;
    // One by one: by a part of an array of them, the archive for C would need memset from outside, which nothing else of this edition does.
    while to < end {
        to = put::put_bytes(out, to, &[opcode::FILLER]);
    }
    to
}
