// What is known of the items that are read so far.
ghost use Rattle.std.specs.Prelude.{◌≡◌, true, List, [], ◌∷◌, ◌++◌, ◌+◌, ◌-◌, ◌≤◌, ◌<◌};
ghost use Rattle.measure.specs.Place.{height_end};
ghost use Rattle.galley_file.specs.declared.item.Item.{Item as ItemOf};
ghost use Rattle.galley_file.specs.Item.{valid_item};
ghost use Rattle.dvi2_reading.specs.Reached.{writing_of};
ghost use Rattle.dvi2_turn.specs.Tally.{TallyIs};

use extents;
use extents::Extents;
use galley_file::item::Item;

#[derive(Clone, Copy)]
pub struct Tally {
    pub characters: usize,
    pub cuts: usize,
    pub extents: Extents,
    // The offset of the page's bop.
    pub bop: usize,
}

impl Tally {
    // Of no item.
    pub fn none() -> Tally
        ensures { TallyIs result [] }
    {
        Tally {
            characters: 0,
            cuts: 0,
            extents: extents::none(),
            bop: dvi2_frame::PRE_LENGTH,
        }
    }

    // With one item more, after whose commands the file is at `at`.
    pub fn with_item(self, item: Item, at: usize) -> Tally
        requires { ((self.characters < 2097152) × (self.cuts < 2097152)) × ((45 ≤ at) × (valid_item height_end item ≡ true)) }
        ensures { (is : List ItemOf) → TallyIs self is → at ≡ (writing_of (is ++ (item ∷ []))).at → TallyIs result (is ++ (item ∷ [])) }
    {
        let extents = extents::with_item(self.extents, item);
        match item {
            Item::Placed(_) => Tally {
                characters: self.characters + 1,
                extents,
                ..self
            },
            Item::Cut => Tally {
                cuts: self.cuts + 1,
                extents,
                bop: at - dvi2_frame::BOP_LENGTH,
                ..self
            },
        }
    }
}
