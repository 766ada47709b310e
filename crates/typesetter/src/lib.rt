// The C/A/T phototypesetter (source 000, document 01): the codes of its tapes, and what each does.
#![tactic(auto)]

pub mod code;
pub mod machine;
