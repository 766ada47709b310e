// A font's name.
ghost use Rattle.std.specs.Prelude.{◌+◌, ◌≤◌, ◌<◌, length};
ghost use Rattle.octets.specs.Write.{Wrote};
ghost use Rattle.dvi.specs.Writer.{name_of};

use galley_file::font;
use octets::number;

// Writes a font's name: C, the font digit, the point size in two digits.
pub fn put_name(out: &mut [u8], at: usize, f: u8) -> usize
    requires { (at + 4 ≤ length out.old) × (f < 120) }
    ensures { Wrote out.old at (name_of f) out.new result }
{
    let size = font::point_size(f);
    let mut to = number::put_byte(out, at, b'C');
    to = number::put_byte(out, to, b'0' + font::font_of(f));
    to = number::put_byte(out, to, b'0' + size / 10);
    number::put_byte(out, to, b'0' + size % 10)
}
