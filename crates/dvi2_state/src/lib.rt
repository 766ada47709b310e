// A page of the second edition while it is read (document 02, "The second edition of DVI"): what is there of the next character, and whether a move that may come begins
// with the last bytes of a file.
#![tactic(auto)]

pub mod begin;
pub mod page_state;
