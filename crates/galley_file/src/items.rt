// The items of a run of whole fields, in their order.
ghost use Rattle.std.specs.Prelude.{◌≡◌};
ghost use Rattle.galley_file.specs.Fields.{field_items, WholeFields};

use crate::form::Form;
use crate::item;
use crate::item::Item;

// Its items are valid, so each is read where it stands, with no check of its field.
#[derive(Clone, Copy)]
pub struct Items<'a> {
    pub form: Form,
    // The fields of the items that are left.
    pub fields: &'a [u8],
    pub ghost whole: { WholeFields form fields.now },
}

impl<'a> Iterator for Items<'a> {
    ghost use Rattle.std.specs.Iterator.{YieldsFirst, item_count};
    ghost use Rattle.galley_file.specs.Items.{items_left};

    type Item = Item;

    ghost next_gives = { YieldsFirst items_left };

    ghost remaining = { item_count items_left };

    fn next(&mut self) -> Option<Item> {
        if self.fields.is_empty() {
            return None;
        }
        let item = item::item_at(self.form, self.fields, 0);
        self.fields = &self.fields[item::item_size(self.form, item)..];
        Some(item)
    }
}
