// The position: the font, X and Y that were last set on a page.
ghost use Rattle.std.specs.Prelude.{◌≡◌, true};
ghost use Rattle.measure.specs.Place.{low_end};
ghost use Rattle.measure.specs.Target.{x_targets};
ghost use Rattle.galley_file.specs.Character.{valid};
ghost use Rattle.galley_file.specs.Item.{valid_item};
ghost use Rattle.dvi.specs.Writer.{start_position};
ghost use Rattle.dvi_characters.specs.Position.{PositionIs, position_after, PositionAt};

use dvi::font_byte;
use galley_file::character::Character;
use galley_file::item::Item;
use measure::Rsu;
use measure::target_table::TargetTable;

// The second edition has its own, in units and quanta (dvi2_commands): a generic one would share the font alone, as the formats' moves and fonts differ in width and opcode.
#[derive(Clone, Copy)]
pub struct Position {
    // The font number, or NO_FONT.
    pub font: u8,
    pub x: Rsu,
    pub y: Rsu,
}

impl Position {
    // At the start of a page.
    pub fn start() -> Self
        ensures { PositionIs result start_position }
    {
        Position {
            font: font_byte::NO_FONT,
            x: Rsu(0),
            y: Rsu(0),
        }
    }

    // After c: its font and its targets.
    fn at_character(c: Character, targets: &TargetTable) -> Self
        requires c_value { valid low_end c ≡ true }
        requires targets_value { targets.now ≡ x_targets }
        ensures { PositionAt result c }
    {
        Position {
            font: c.font,
            x: c.x.target(targets),
            y: c.height.target(),
        }
    }

    // After an item: a cut starts a page.
    pub fn after(i: Item, targets: &TargetTable) -> Self
        requires i_value { valid_item low_end i ≡ true }
        requires targets_value { targets.now ≡ x_targets }
        ensures { PositionIs result (position_after i) }
    {
        match i {
            Item::Placed(c) => Position::at_character(c, targets),
            Item::Cut => Position::start(),
        }
    }
}
