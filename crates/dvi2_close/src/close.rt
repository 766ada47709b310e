// The end of a file: the definitions, post_post, and the bytes 223.
ghost use Rattle.std.specs.Prelude.{◌≡◌, Ok, cond, List, ◌∷◌, ◌≤◌, ◌<◌, length};
ghost use Rattle.galley_file.specs.declared.item.Item.{Item};
ghost use Rattle.galley_file.specs.Item.{characters_of};
ghost use Rattle.extents.specs.FontMarks.{FontsAre, is_marked};
ghost use Rattle.dvi2.specs.Writer as W;
ghost use Rattle.dvi2_frame.specs.Frame.{post_post_of};
ghost use Rattle.dvi2_reading.specs.Reading.{closing, fill, closing_of};
ghost use Rattle.dvi2_reading.specs.Standing.{Standing};
ghost use Rattle.dvi2_close.specs.Reading.{expected, Inside, PastDefinitions, PastFillers, Ended};

use crate::expect;
use crate::expect::NotOurs;
use dvi2::opcode;
use dvi2_page::fonts as page_fonts;
use extents::fonts;
use extents::fonts::Fonts;
use galley_file::font;

// Past the definition of font f, if it is among the fonts.
fn marked(dvi: &[u8], at: usize, used: Fonts, f: u8) -> Result<usize, NotOurs>
    requires { (at ≤ length dvi.now) × (f < 120) }
    ensures { result ≡ cond (is_marked used.low used.high f) (expected dvi.now at (W.definition f)) (Ok at) }
{
    if fonts::has_font(used, f) {
        expect::expect(dvi, at, &page_fonts::definition(f))
    } else {
        Ok(at)
    }
}

// Past the definitions of the fonts, ascending.
fn definitions(dvi: &[u8], at: usize, used: Fonts) -> Result<usize, NotOurs>
    requires { at ≤ length dvi.now }
    ensures { Inside (length dvi.now) result × PastDefinitions dvi.now at used result }
{
    let mut to = at;
    for f in 0..font::FONTS {
        to = marked(dvi, to, used, f)?;
    }
    Ok(to)
}

// Past the bytes 223.
fn fillers(dvi: &[u8], at: usize) -> Result<usize, NotOurs>
    requires { (at ≤ length dvi.now) × (length dvi.now ≤ 67108864) }
    ensures { Inside (length dvi.now) result × PastFillers dvi.now at result }
{
    let mut to = at;
    for _ in 0..4 + (4 - at % 4) % 4 {
        to = expect::expect(dvi, to, &[opcode::FILLER])?;
    }
    Ok(to)
}

// The bytes 223, and nothing after them.
fn last(dvi: &[u8], at: usize) -> Result<usize, NotOurs>
    requires { (at ≤ length dvi.now) × (length dvi.now ≤ 67108864) }
    ensures { (is : List Item) → Standing dvi.now (closing is (fill (W.fillers at))) at → Ended dvi.now is result }
{
    let to = fillers(dvi, at)?;
    if to < dvi.len() {
        return Err(NotOurs { place: to });
    }
    Ok(to)
}

// post_post, of the post at `post`, and the rest.
fn closed(dvi: &[u8], post: usize, at: usize) -> Result<usize, NotOurs>
    requires { (at ≤ length dvi.now) × ((length dvi.now ≤ 67108864) × (post ≤ 67108864)) }
    ensures { (is : List Item) → post ≡ length (W.pages_bytes is) → Standing dvi.now (closing is (post_post_of post ∷ fill (W.fillers (length (W.command_bytes is))))) at → Ended dvi.now is result }
{
    let to = expect::expect(dvi, at, &dvi2_frame::post_post(post as u32))?;
    last(dvi, to)
}

// The rest of a file after the post at `post`, which ends at `at`.
pub fn close(dvi: &[u8], post: usize, at: usize, used: Fonts) -> Result<usize, NotOurs>
    requires { (at ≤ length dvi.now) × ((length dvi.now ≤ 67108864) × (post ≤ 67108864)) }
    ensures { (is : List Item) → FontsAre used.low used.high (characters_of is) → post ≡ length (W.pages_bytes is) → Standing dvi.now (closing is (closing_of is)) at → Ended dvi.now is result }
{
    let to = definitions(dvi, at, used)?;
    closed(dvi, post, to)
}
