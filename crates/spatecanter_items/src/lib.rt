// The items of a galley one by one, for C and Rust callers.
#![tactic(auto)]

ghost use Rattle.std.specs.Prelude.{◌≡◌};
ghost use Rattle.octets.specs.Answer.{numbers_of};
ghost use Rattle.galley_items.specs.Here.{here_of, here_outcome, outcome_of_here, here_numbers};

use galley_file::form::Form;
use galley_file::item;
use galley_file::item::Item;
use octets::refusal;
use octets::refusal::Refusal;

// Number, place and length of what stands at a place.
fn here_numbers(here: Result<Item, Refusal>) -> [usize; 3]
    ensures { result ≡ numbers_of (outcome_of_here (here_of here)) }
{
    refusal::numbers(here.map(|i| item::item_size(Form::New, i)))
}

// The item's kind, 1 or 2, and a character's x, height, font number and character; all 0 in a refusal.
fn here_item(here: Result<Item, Refusal>) -> [i32; 5]
    ensures { result ≡ here_numbers (here_of here) }
{
    match here {
        Ok(Item::Placed(c)) => [1, c.x.0, c.height.0, i32::from(c.font), i32::from(c.code)],
        Ok(Item::Cut) => [2, 0, 0, 0, 0],
        Err(_) => [0, 0, 0, 0, 0],
    }
}

// The item whose whole field starts at a place of a galley.
#[unsafe(no_mangle)]
pub extern "C" fn sp_item_at(galley: &[u8], at: usize, answer: &mut [usize; 3], item: &mut [i32; 5])
    ensures { (answer.new ≡ numbers_of (outcome_of_here (here_outcome galley.now at))) × (item.new ≡ here_numbers (here_outcome galley.now at)) }
{
    let here = galley_items::item_at(galley, at);
    *answer = here_numbers(here);
    *item = here_item(here);
}
