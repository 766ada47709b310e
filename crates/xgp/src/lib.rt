// XGP character mode (003): where the printer stands, and what each code does (document 02, "The XGP drawer").
#![tactic(auto)]

pub mod state;
