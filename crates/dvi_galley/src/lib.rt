// The galley whose targets a DVI file of 1980 shows: the item of a mark.
#![tactic(auto)]

pub mod item;
mod target;
