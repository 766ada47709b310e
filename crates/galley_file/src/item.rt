// What a galley lists: characters, and the cuts between pages (document 02, "Software cuts").
ghost use Rattle.std.specs.Prelude.{◌≡◌, ◌+◌, ◌≤◌, length};
ghost use Rattle.octets.specs.Write.{Wrote};
ghost use Rattle.galley_file.specs.Item.{field_of_cut, is_cut, item_field, item_size, item_at, WholeAt, is_low};

use crate::character::Character;
use crate::form::Form;
use crate::{character, form};
use octets::field;

#[derive(Clone, Copy, PartialEq, Eq)]
pub enum Item {
    Placed(Character),
    Cut,
}

const CUT_TAG: u8 = 6;

const CUT_LENGTH: u32 = 0;

// The bytes of a whole cut field.
pub const CUT_FIELD: usize = field::HEAD;

// The most items of a galley.
pub const MAX_ITEMS: usize = 1_048_576;

// Whether s starts with a cut field.
pub fn is_cut(s: &[u8]) -> bool
    ensures { result ≡ is_cut s.now }
{
    field::starts_field(s, CUT_TAG, CUT_LENGTH)
}

// The bytes of an item's field.
pub fn item_size(f: Form, i: Item) -> usize
    ensures { result ≡ item_size f i }
{
    match i {
        Item::Placed(_) => form::character_size(f),
        Item::Cut => CUT_FIELD,
    }
}

// The item whose whole field starts at `at`.
pub fn item_at(f: Form, s: &[u8], at: usize) -> Item
    requires { WholeAt f s.now at }
    ensures { result ≡ item_at f s.now at }
{
    if s[at] == CUT_TAG {
        Item::Cut
    } else {
        Item::Placed(character::character_at(f, s, at))
    }
}

// Whether a DVI file holds an item's height. A cut has none.
pub fn is_low(i: Item) -> bool
    ensures { result ≡ is_low i }
{
    match i {
        Item::Placed(c) => c.height.0 <= measure::LOW_END.0,
        Item::Cut => true,
    }
}

// Writes a cut field; gives the place after it.
pub fn put_cut(out: &mut [u8], at: usize) -> usize
    requires { at + 3 ≤ length out.old }
    ensures { Wrote out.old at field_of_cut out.new result }
{
    field::put_head(out, at, CUT_TAG, CUT_LENGTH)
}

// Writes an item's field; gives the place after it.
pub fn put_item(f: Form, out: &mut [u8], at: usize, i: Item) -> usize
    requires { at + item_size f i ≤ length out.old }
    ensures { Wrote out.old at (item_field f i) out.new result }
{
    match i {
        Item::Placed(c) => character::put_character(f, out, at, c),
        Item::Cut => put_cut(out, at),
    }
}
