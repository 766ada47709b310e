// Font numbers: 15 for each font, one for each size (document 01, "Tape codes").
ghost use Rattle.std.specs.Prelude.{◌≡◌, ◌+◌, ◌-◌, ◌*◌, ◌≤◌, ◌<◌};
ghost use Rattle.galley_file.specs.Font.{font_number, font_of, size_index, is_double, point_size};

// The number of sizes of a font.
pub const SIZES: u8 = 15;

// The font numbers: fifteen for each of eight fonts.
pub const FONTS: u8 = 8 * SIZES;

const FIRST_DOUBLE: u8 = 9;

const POINT_SIZES: [u8; 15] = [7, 8, 10, 11, 12, 14, 18, 9, 6, 16, 20, 22, 24, 28, 36];

// The font number of a font and a size index.
pub fn font_number(font: u8, index: u8) -> u8
    requires { ((1 ≤ font) × (font ≤ 8)) × (index < 15) }
    ensures { result ≡ font_number font index }
{
    SIZES * (font - 1) + index
}

// The font of a font number.
pub fn font_of(number: u8) -> u8
    ensures { result ≡ font_of number }
{
    number / SIZES + 1
}

pub fn size_index(number: u8) -> u8
    ensures { (result ≡ size_index number) × (result < 15) }
{
    number % SIZES
}

// Whether a size index is that of a double size.
pub fn is_double(index: u8) -> bool
    ensures { result ≡ is_double index }
{
    FIRST_DOUBLE <= index
}

// The size of a font number, in points.
pub fn point_size(number: u8) -> u8
    ensures { result ≡ point_size number }
{
    POINT_SIZES[size_index(number) as usize]
}
