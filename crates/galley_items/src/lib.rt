// The item at a place of a galley (document 01, "Galley"), for a caller who goes from field to field.
#![tactic(auto)]

ghost use Rattle.std.specs.Prelude.{◌≡◌};
ghost use Rattle.galley_items.specs.Here.{here_of, here_outcome};

use galley_file::form::Form;
use galley_file::item::Item;
use galley_file::{character, item};
use octets::refusal::{Reason, Refusal};

// The item whose whole field starts at a place of the galley g.
pub fn item_at(g: &[u8], at: usize) -> Result<Item, Refusal>
    ensures { here_of result ≡ here_outcome g.now at }
{
    if g.len() < at {
        return Err(Reason::GalleyMalformed.at(at));
    }
    let s = &g[at..];
    if character::is_character(Form::New, s) {
        return Ok(Item::Placed(character::character_at(Form::New, s, 0)));
    }
    if item::is_cut(s) {
        return Ok(Item::Cut);
    }
    Err(Reason::GalleyMalformed.at(at))
}
