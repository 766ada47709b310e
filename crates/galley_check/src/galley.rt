// Galleys that the check accepts.
ghost use Rattle.std.specs.Prelude.{◌≡◌};
ghost use Rattle.galley_file.specs.declared.form.Form.TheVariants.{New};
ghost use Rattle.galley_file.specs.Fields.{GalleyFields};
ghost use Rattle.galley_check.specs.Accepted.{IsAccepted, IsLow};

use galley_file::character::Character;
use galley_file::form::Form;
use galley_file::item;
use galley_file::item::Item;
use galley_file::items::Items;
use octets::field;
use octets::refusal::{Reason, Refusal};

// A galley of the new form that the check accepts, and the number of its characters.
#[derive(Clone, Copy)]
pub struct CheckedGalley<'a> {
    pub bytes: &'a [u8],
    pub count: usize,
    pub ghost accepted: { IsAccepted New bytes.now count },
    pub ghost fields: { GalleyFields New bytes.now },
}

// A galley that the check accepts with the limit of heights: a DVI file holds them.
#[derive(Clone, Copy)]
pub struct LowGalley<'a> {
    pub bytes: &'a [u8],
    pub count: usize,
    pub ghost low: { IsLow bytes.now count },
    pub ghost fields: { GalleyFields New bytes.now },
}

impl<'a> CheckedGalley<'a> {
    ghost use Rattle.galley_file.specs.Galley.{whole, items_of};
    ghost use Rattle.galley_file.specs.Items.{items_left};
    ghost use Rattle.galley_check.specs.Found.{found_of, pick_found};
    ghost use Rattle.galley_check.specs.Galley.{ChecksAs};

    // Checks the bytes.
    pub fn of(bytes: &'a [u8]) -> Result<CheckedGalley<'a>, Refusal>
        ensures { ChecksAs bytes.now result }
    {
        let count = crate::check_galley(bytes)?;
        Ok(CheckedGalley { bytes, count })
    }

    // Its items, in their order.
    pub fn items(self) -> Items<'a>
        ensures { items_left result ≡ items_of New self.entry.bytes.now }
    {
        Items {
            form: Form::New,
            fields: &self.bytes[..self.bytes.len() - field::END_FIELD],
        }
    }

    // Character n, counted from 0.
    pub fn character(self, n: usize) -> Result<Character, Refusal>
        ensures { found_of result ≡ pick_found n (whole (items_of New self.entry.bytes.now)) }
    {
        let mut left = n;
        for item in self.items() {
            if let Item::Placed(c) = item {
                if left == 0 {
                    return Ok(c);
                }
                left -= 1;
            }
        }
        Err(Reason::NoCharacter.at(0))
    }
}

impl<'a> LowGalley<'a> {
    ghost use Rattle.galley_file.specs.Galley.{items_of};
    ghost use Rattle.galley_file.specs.Items.{items_left};
    ghost use Rattle.galley_check.specs.Galley.{ChecksLow};

    // Checks the bytes, and then the heights.
    pub fn of(bytes: &'a [u8]) -> Result<LowGalley<'a>, Refusal>
        ensures { ChecksLow bytes.now result }
    {
        let galley = CheckedGalley::of(bytes)?;
        let mut at: usize = 0;
        for item in galley.items() {
            if !item::is_low(item) {
                return Err(Reason::HeightTooGreat.at(at));
            }
            at += item::item_size(Form::New, item);
        }
        Ok(LowGalley {
            bytes,
            count: galley.count,
        })
    }

    // The same galley, as one without that limit.
    pub fn checked(self) -> CheckedGalley<'a>
        ensures { (result.bytes.now ≡ self.entry.bytes.now) × (result.count ≡ self.entry.count) }
    {
        CheckedGalley {
            bytes: self.bytes,
            count: self.count,
        }
    }

    // Its items, in their order.
    pub fn items(self) -> Items<'a>
        ensures { items_left result ≡ items_of New self.entry.bytes.now }
    {
        self.checked().items()
    }
}
