// Old galleys made new, and new ones old (document 02, "Old galleys and new").
#![tactic(auto)]

ghost use Rattle.std.specs.Prelude.{◌≡◌, ◌≤◌, length};
ghost use Rattle.octets.specs.Answer.{accepted, outcome_of, Gives};
ghost use Rattle.octets.specs.Write.{Wrote};
ghost use Rattle.galley_file.specs.Galley.{fields};
ghost use Rattle.galley_file.specs.Items.{items_left};
ghost use Rattle.galley_file.specs.Outcome.{check_outcome};
ghost use Rattle.conversion.specs.Conversion.{form_result, new_result, old_result};

use galley_file::form::Form;
use galley_file::items::Items;
use galley_file::{form, item};
use octets::field;
use octets::refusal::{Answer, Reason};

// Writes the items in a form; gives the place after them.
fn put_items(to: Form, items: Items<'_>, out: &mut [u8]) -> usize
    requires { length (fields to (items_left items)) ≤ length out.old }
    ensures { Wrote out.old 0 (fields to (items_left items.entry)) out.new result }
{
    let mut next: usize = 0;
    for item in items {
        next = item::put_item(to, out, next, item);
    }
    next
}

// Writes a checked galley of the one form in the other, if there is room: only characters change their length.
fn convert(from: Form, to: Form, g: &[u8], count: usize, out: &mut [u8]) -> Answer
    requires { accepted count ≡ check_outcome from g.now }
    ensures { Gives (outcome_of result) (form_result from to g.now) out.old out.new }
{
    let rest = g.len() - form::character_size(from) * count;
    let needed = rest + form::character_size(to) * count;
    if out.len() < needed {
        return Err(Reason::NoConvertedRoom.at(needed));
    }
    let items = Items {
        form: from,
        fields: &g[..g.len() - field::END_FIELD],
    };
    let next = put_items(to, items, out);
    field::put_end(out, next, count as u32);
    Ok(needed)
}

// Makes an old galley new.
pub fn galley_to_new(old: &[u8], new: &mut [u8]) -> Answer
    ensures { Gives (outcome_of result) (new_result old.now) new.old new.new }
{
    let count = galley_check::check_form(Form::Old, old)?;
    convert(Form::Old, Form::New, old, count, new)
}

// Makes a new galley old.
pub fn galley_to_old(new: &[u8], old: &mut [u8]) -> Answer
    ensures { Gives (outcome_of result) (old_result new.now) old.old old.new }
{
    let count = galley_check::check_low(new)?;
    convert(Form::New, Form::Old, new, count, old)
}
