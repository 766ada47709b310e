// The numbers of the commands of 1980 (002). Those below NOP are characters.
pub const NOP: u8 = 128;

pub const BOP: u8 = 129;

// The bytes of a whole BOP.
pub const BOP_LENGTH: usize = 9;

pub const EOP: u8 = 130;

pub const PST: u8 = 131;

pub const PUSH: u8 = 132;

pub const POP: u8 = 133;

pub const VERTRULE: u8 = 134;

pub const HORZRULE: u8 = 135;

pub const HORZCHAR: u8 = 136;

pub const FONT: u8 = 137;

// Moves by a number of four bytes, three or two, or by the last amount again: W and X to the right, Y and Z down.
pub const W4: u8 = 138;

pub const W3: u8 = 139;

pub const W2: u8 = 140;

pub const W0: u8 = 141;

pub const X4: u8 = 142;

pub const X3: u8 = 143;

pub const X2: u8 = 144;

pub const X0: u8 = 145;

pub const Y4: u8 = 146;

pub const Y3: u8 = 147;

pub const Y2: u8 = 148;

pub const Y0: u8 = 149;

pub const Z4: u8 = 150;

pub const Z3: u8 = 151;

pub const Z2: u8 = 152;

pub const Z0: u8 = 153;

// FONTNUM 0; those to 63 follow.
pub const FONTNUM: u8 = 154;

// The number of fonts that have a FONTNUM.
pub const FONTNUMS: u8 = 64;

// From here on no number is a command.
pub const UNDEFINED: u8 = FONTNUM + FONTNUMS;

// What stands after the last command.
pub const FILLER: u8 = 223;
