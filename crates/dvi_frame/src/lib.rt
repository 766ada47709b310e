// What stands around the characters of a DVI file of 1980: BOP before each page, and the postamble.
#![tactic(auto)]

pub mod bop;
pub mod postamble;
