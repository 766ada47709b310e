// Galleys (document 01, "Galley"): characters and cuts, their fields, and the two forms.
#![tactic(auto)]

pub mod character;
pub mod font;
pub mod form;
pub mod item;
pub mod items;
