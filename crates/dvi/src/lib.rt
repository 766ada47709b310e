// The DVI file of 1980 (002): definitions in specs/, demand 3 in proofs/; a font in a byte, what a page shows, and a font's name.
#![tactic(auto)]

pub mod font_byte;
pub mod mark;
pub mod name;
pub mod opcode;
