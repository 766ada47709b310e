// Extents: farthest x, greatest height and the fonts met (document 02, "Extents at a glance").
#![tactic(auto)]

pub mod fonts;

ghost use Rattle.std.specs.Prelude.{◌≡◌, true, ◌<◌};
ghost use Rattle.measure.specs.Place.{height_end};
ghost use Rattle.galley_file.specs.Item.{valid_item, characters_of};
ghost use Rattle.extents.specs.Extents.{no_extents, with_character, with_characters, with_one_item};
ghost use Rattle.extents.specs.Fields.{field_items, FieldsOf};

use fonts::Fonts;
use galley_file::character::Character;
use galley_file::form::Form;
use galley_file::item::Item;
use galley_file::items::Items;
use measure::{Quanta, Units};

#[derive(Clone, Copy, PartialEq, Eq)]
pub struct Extents {
    // The farthest x and the greatest height, and at least 0.
    pub x: Units,
    pub height: Quanta,
    pub fonts: Fonts,
}

// The extents of no character.
pub fn none() -> Extents
    ensures { result ≡ no_extents }
{
    Extents {
        x: Units(0),
        height: Quanta(0),
        fonts: fonts::none(),
    }
}

// The extents with one character more.
pub fn with_character(e: Extents, c: Character) -> Extents
    requires { c.font < 120 }
    ensures { result ≡ with_character e c }
{
    Extents {
        x: e.x.farther(c.x),
        height: e.height.higher(c.height),
        fonts: fonts::with_font(e.fonts, c.font),
    }
}

// The extents with one item more.
pub fn with_item(e: Extents, i: Item) -> Extents
    requires { valid_item height_end i ≡ true }
    ensures { result ≡ with_one_item e i }
{
    match i {
        Item::Placed(c) => with_character(e, c),
        Item::Cut => e,
    }
}

// The extents with the items more whose fields s is.
pub fn with_fields(first: Extents, s: &[u8]) -> Extents
    requires { FieldsOf s.now }
    ensures { result ≡ with_characters first (characters_of (field_items s.now)) }
{
    let items = Items {
        form: Form::New,
        fields: s,
    };
    let mut e = first;
    for item in items {
        e = with_item(e, item);
    }
    e
}
