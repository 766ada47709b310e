// The commands that set a character (document 01, "DVI (002)"): the position, the commands from one position to the next, and their length.
#![tactic(auto)]

pub mod command;
pub mod length;
pub mod position;
