// The commands of a file of the second edition that may stand at a place in one way only (document 02, "The second edition of DVI"): the preamble and the first bop, and
// the end of the file after post.
#![tactic(auto)]

pub mod close;
pub mod expect;
