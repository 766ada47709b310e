// A page of a DVI file of 1980 (002), and its stack.
#![tactic(auto)]

pub mod page;
pub mod stack;
