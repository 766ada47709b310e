// A font in a byte: its number, or none.
pub const NO_FONT: u8 = 255;
