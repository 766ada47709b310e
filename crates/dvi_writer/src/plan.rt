// What a file needs to know of its items before the first of them is written.
ghost use Rattle.std.specs.Prelude.{◌≡◌, true, [], ◌+◌, ◌≤◌};
ghost use Rattle.measure.specs.Place.{low_end};
ghost use Rattle.galley_file.specs.declared.form.Form.TheVariants.{New};
ghost use Rattle.galley_file.specs.Item.{valid_item};
ghost use Rattle.galley_file.specs.Galley.{items_of};
ghost use Rattle.extents.specs.Extents.{with_one_item};
ghost use Rattle.dvi_characters.specs.Position.{position_of, OnPage, PositionIs, position_after};
ghost use Rattle.dvi_writer.specs.Plan.{item_length, PlanIs};

use crate::page;
use dvi_characters::position::Position;
use extents::Extents;
use galley_check::galley::LowGalley;
use galley_file::item::Item;
use measure::target_table;

#[derive(Clone, Copy)]
pub struct Plan {
    // The bytes of the items.
    pub length: usize,
    pub extents: Extents,
}

// The bytes of an item after the position `last`; `next` is the position after it.
fn item_length(last: Position, next: Position, i: Item) -> usize
    requires { (valid_item low_end i ≡ true) × (OnPage (position_of last) × PositionIs next (position_after i)) }
    ensures { (result ≡ item_length (position_of last) i) × (result ≤ 17) }
{
    match i {
        Item::Placed(c) => last.commands_length(next, c),
        Item::Cut => page::CUT_LENGTH,
    }
}

impl Plan {
    // Of no item.
    fn none() -> Self
        ensures { PlanIs result [] }
    {
        Plan {
            length: 0,
            extents: extents::none(),
        }
    }

    // With one item more.
    fn with_item(self, last: Position, next: Position, i: Item) -> Self
        requires { ((self.length ≤ 33554432) × (valid_item low_end i ≡ true)) × (OnPage (position_of last) × PositionIs next (position_after i)) }
        ensures { (result.length ≡ self.length + item_length (position_of last) i) × (result.extents ≡ with_one_item self.extents i) }
    {
        Plan {
            length: self.length + item_length(last, next, i),
            extents: extents::with_item(self.extents, i),
        }
    }

    // Of a galley.
    pub fn of(galley: LowGalley) -> Self
        ensures { PlanIs result (items_of New galley.entry.bytes.now) }
    {
        let targets = target_table::targets();
        let mut p = Plan::none();
        let mut last = Position::start();
        for item in galley.items() {
            let next = Position::after(item, &targets);
            p = p.with_item(last, next, item);
            last = next;
        }
        p
    }
}
