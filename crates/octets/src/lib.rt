// Numbers in bytes, fields, sums and differences in 32 bits, and what an operation answers.
#![tactic(auto)]

pub mod field;
pub mod number;
pub mod pass;
pub mod reach;
pub mod refusal;
