// The moves of a page of the second edition, and put1 (document 02, "The second edition of DVI"): whether one may come, and what it leads to.
#![tactic(auto)]

pub mod moves;
