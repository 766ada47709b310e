// The numbers of the commands that a file of identification 2 has.
pub const PUT1: u8 = 133;

pub const BOP: u8 = 139;

pub const EOP: u8 = 140;

// right1 to right4, and down1 to down4.
pub const RIGHT1: u8 = 143;

pub const RIGHT4: u8 = RIGHT1 + 3;

pub const DOWN1: u8 = 157;

pub const DOWN4: u8 = DOWN1 + 3;

// fnt_num_0; those to 63 follow.
pub const FNTNUM0: u8 = 171;

// The number of fonts that have a fnt_num.
pub const FNTNUMS: u8 = 64;

pub const FNT1: u8 = FNTNUM0 + FNTNUMS;

pub const FNTDEF1: u8 = 243;

pub const PRE: u8 = 247;

pub const POST: u8 = 248;

pub const POSTPOST: u8 = 249;

// What stands after the last command.
pub const FILLER: u8 = 223;
