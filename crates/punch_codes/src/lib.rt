// The codes of an item on a punched tape (document 02, "Punching a tape"): the machine set for it, and what is sent for that.
#![tactic(auto)]

pub mod axis;
pub mod item;
pub mod put;
pub mod setting;
