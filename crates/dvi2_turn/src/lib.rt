// One turn of reading a file of the second edition (document 02, "The second edition of DVI"), and what is known of the items that are read so far.
#![tactic(auto)]

pub mod tally;
pub mod turn;
