// The two forms of a galley (document 02, "Old galleys and new"): a character's field, and the limits that follow from it.
ghost use Rattle.std.specs.Prelude.{◌≡◌, ◌≤◌};
ghost use Rattle.galley_file.specs.Form.{character_tag, body_bytes, character_size, greatest_height, max_galley};

use crate::item;
use measure::Quanta;
use octets::field;

#[derive(Clone, Copy, PartialEq, Eq)]
pub enum Form {
    // Tag 1, with a height of two bytes.
    Old,
    // Tag 7, with a height of four bytes. Galleys are written in this form.
    New,
}

// The bytes of a character's field in the old form, and in the new.
const OLD_FIELD: usize = 9;

pub const NEW_FIELD: usize = 11;

// The bytes of the longest galley of each form: one of characters alone, and its end.
const MAX_OLD: usize = OLD_FIELD * item::MAX_ITEMS + field::END_FIELD;

const MAX_NEW: usize = NEW_FIELD * item::MAX_ITEMS + field::END_FIELD;

// The tag of a character's field.
pub fn character_tag(f: Form) -> u8
    ensures { result ≡ character_tag f }
{
    match f {
        Form::Old => 1,
        Form::New => 7,
    }
}

// The bytes of its body.
pub fn body_bytes(f: Form) -> u32
    ensures { result ≡ body_bytes f }
{
    match f {
        Form::Old => 6,
        Form::New => 8,
    }
}

// The bytes of a whole field.
pub fn character_size(f: Form) -> usize
    ensures { (result ≡ character_size f) × (result ≤ 11) }
{
    match f {
        Form::Old => OLD_FIELD,
        Form::New => NEW_FIELD,
    }
}

pub fn greatest_height(f: Form) -> Quanta
    ensures { result.0 ≡ greatest_height f }
{
    match f {
        Form::Old => measure::LOW_END,
        Form::New => measure::HEIGHT_END,
    }
}

// The bytes of the longest galley.
pub fn max_galley(f: Form) -> usize
    ensures { result ≡ max_galley f }
{
    match f {
        Form::Old => MAX_OLD,
        Form::New => MAX_NEW,
    }
}
