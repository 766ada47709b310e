// What is counted of the items so far, and their fields.
ghost use Rattle.std.specs.Prelude.{◌≡◌, true, ◌+◌, ◌*◌, ◌≤◌, suc, pos, length};
ghost use Rattle.octets.specs.Write.{put_if};
ghost use Rattle.dvi_back.specs.declared.tally.Tally.TheVariants as T;
ghost use Rattle.dvi_galley.specs.Back as B;
ghost use Rattle.dvi_galley.specs.Taken.{taken_of};
ghost use Rattle.dvi_back.specs.Tally.{tally_of, pages_in, place_in, field_of, added_by, end_of, tally_reading};

use galley_file::form::Form;
use galley_file::item::Item;
use galley_file::{form, item};
use octets::field;
use octets::refusal::{Answer, Reason};

const MAX_ITEMS: u64 = item::MAX_ITEMS as u64;

// No page yet; the cuts and the characters so far; or the place of the first command that breaks a condition.
#[derive(Clone, Copy)]
pub enum Tally {
    Nothing,
    Items(u32, u32),
    Broken(usize),
}

// The first page is no item.
fn first_item(at: usize, i: Option<Item>) -> Tally
    ensures { result ≡ tally_of (B.with_one_item B.nothing at (taken_of i)) }
{
    match i {
        Some(Item::Cut) => Tally::Items(0, 0),
        Some(Item::Placed(_)) => Tally::Broken(at),
        None => Tally::Broken(at),
    }
}

// One item more, as far as their number goes.
fn next_item(cuts: u32, characters: u32, at: usize, i: Option<Item>) -> Tally
    ensures { (b : B.Made) → T.Items cuts characters ≡ tally_of b → result ≡ tally_of (B.with_one_item b at (taken_of i)) }
{
    if MAX_ITEMS <= cuts as u64 + characters as u64 {
        return Tally::Broken(at);
    }
    match i {
        Some(Item::Placed(_)) => Tally::Items(cuts, characters + 1),
        Some(Item::Cut) => Tally::Items(cuts + 1, characters),
        None => Tally::Broken(at),
    }
}

// The bytes of the fields so far.
fn place(cuts: u32, characters: u32) -> usize
    ensures { (result ≡ 11 * characters + 3 * cuts) × (result ≤ 60129542130) }
{
    form::NEW_FIELD * characters as usize + item::CUT_FIELD * cuts as usize
}

// Writes an item's field, if writing.
fn show_taken(out: &mut [u8], to: usize, i: Option<Item>, writing: bool)
    requires { writing ≡ true → to + length (field_of i) ≤ length out.old }
    ensures { out.new ≡ put_if writing out.old to (field_of i) }
{
    if writing {
        if let Some(j) = i {
            item::put_item(Form::New, out, to, j);
        }
    }
}

impl Tally {
    // The number of the next page.
    pub fn next_page(self) -> i64
        ensures { result ≡ pos (suc (pages_in self)) }
    {
        match self {
            Tally::Nothing => 1,
            Tally::Items(cuts, _) => cuts as i64 + 2,
            Tally::Broken(_) => 1,
        }
    }

    // The counts after what the command at `at` shows.
    pub fn with_item(self, at: usize, i: Option<Item>) -> Tally
        ensures { (b : B.Made) → self ≡ tally_of b → result ≡ tally_of (B.with_one_item b at (taken_of i)) }
    {
        match self {
            Tally::Nothing => first_item(at, i),
            Tally::Items(cuts, characters) => next_item(cuts, characters, at, i),
            Tally::Broken(place) => Tally::Broken(place),
        }
    }

    // Writes the field that an item adds, if writing.
    pub fn show_item(self, out: &mut [u8], i: Option<Item>, writing: bool)
        requires { writing ≡ true → place_in self + length (added_by self i) ≤ length out.old }
        ensures { out.new ≡ put_if writing out.old (place_in self) (added_by self i) }
    {
        match self {
            Tally::Nothing => {}
            Tally::Items(cuts, characters) => {
                show_taken(out, place(cuts, characters), i, writing);
            }
            Tally::Broken(_) => {}
        }
    }

    // Writes End, if writing and there is a galley; gives the bytes that it needs, or the refusal.
    pub fn finish(self, out: &mut [u8], writing: bool) -> Answer
        requires { writing ≡ true → place_in self + length (end_of self) ≤ length out.old }
        ensures { (result ≡ tally_reading self) × (out.new ≡ put_if writing out.old (place_in self) (end_of self)) }
    {
        match self {
            Tally::Nothing => Err(Reason::NoGalley.at(0)),
            Tally::Items(cuts, characters) => {
                let to = place(cuts, characters);
                field::show_end(out, to, characters, writing);
                Ok(to + field::END_FIELD)
            }
            Tally::Broken(place) => Err(Reason::NoGalley.at(place)),
        }
    }
}
