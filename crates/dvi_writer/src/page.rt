// The pages: BOP, the commands of characters, EOP.
ghost use Rattle.std.specs.Prelude.{◌≡◌, true, ◌+◌, ◌≤◌, ◌<◌, length};
ghost use Rattle.octets.specs.Write.{Wrote};
ghost use Rattle.measure.specs.Place.{low_end};
ghost use Rattle.measure.specs.Target.{x_targets};
ghost use Rattle.galley_file.specs.declared.form.Form.TheVariants.{New};
ghost use Rattle.galley_file.specs.declared.item.Item.TheVariants.{Placed, Cut};
ghost use Rattle.galley_file.specs.Item.{valid_item};
ghost use Rattle.galley_file.specs.Galley.{items_of};
ghost use Rattle.dvi.specs.Writer.{start_position, commands_of, first_writing, item_bytes, writing_after, items_bytes, writing_after_all, pages_bytes};
ghost use Rattle.dvi_characters.specs.Position.{position_of, OnPage, PositionIs, PositionAt};
ghost use Rattle.dvi_writer.specs.Writing.{writing_of, WritingIs};

use crate::writing::Writing;
use dvi::opcode;
use dvi_characters::position::Position;
use dvi_frame::bop;
use galley_check::galley::LowGalley;
use galley_file::character::Character;
use galley_file::item::Item;
use measure::target_table;
use measure::target_table::TargetTable;
use octets::number;

// The bytes of the first BOP and of the last EOP.
pub const FRAME: usize = opcode::BOP_LENGTH + 1;

// The bytes of a cut: an EOP and a BOP.
pub const CUT_LENGTH: usize = FRAME;

impl Writing {
    // Writes the commands of c.
    fn put_character(self, out: &mut [u8], next: Position, c: Character) -> Self
        requires { (self.at + length (commands_of (position_of self.position) c) ≤ length out.old) × (OnPage (position_of self.position) × PositionAt next c) }
        ensures { (Wrote out.old self.at (item_bytes (writing_of self) (Placed c)) out.new result.at) × WritingIs result (writing_after (writing_of self) (Placed c)) }
    {
        let at = self.position.put_commands(out, self.at, next, c);
        Writing {
            position: next,
            at,
            ..self
        }
    }

    // Writes a cut: ends the page, and starts the next.
    fn put_cut(self, out: &mut [u8], next: Position) -> Self
        requires { ((self.at + 10 ≤ length out.old) × ((self.at < 2147483648) × (self.bop < 2147483648))) × ((self.page < 4294967295) × PositionIs next start_position) }
        ensures { (Wrote out.old self.at (item_bytes (writing_of self) Cut) out.new result.at) × WritingIs result (writing_after (writing_of self) Cut) }
    {
        let bop = number::put_byte(out, self.at, opcode::EOP);
        let page = self.page + 1;
        let at = bop::put_bop(out, bop, page, self.bop as i32);
        Writing {
            position: next,
            page,
            bop: bop as u32,
            at,
        }
    }

    // Writes an item.
    fn put_item(self, out: &mut [u8], i: Item, targets: &TargetTable) -> Self
        requires i_in_bounds { ((self.at + length (item_bytes (writing_of self) i) ≤ length out.old) × ((self.at < 2147483648) × (self.bop < 2147483648))) × ((self.page < 4294967295) × (OnPage (position_of self.position) × (valid_item low_end i ≡ true))) }
        requires targets_value { targets.now ≡ x_targets }
        ensures { (Wrote out.old self.at (item_bytes (writing_of self) i) out.new result.at) × WritingIs result (writing_after (writing_of self) i) }
    {
        let next = Position::after(i, targets);
        match i {
            Item::Placed(c) => self.put_character(out, next, c),
            Item::Cut => self.put_cut(out, next),
        }
    }
}

// Writes the items of a galley after the first BOP.
fn put_items(galley: LowGalley, out: &mut [u8]) -> Writing
    requires { 9 + length (items_bytes first_writing (items_of New galley.bytes.now)) ≤ length out.old }
    ensures { (Wrote out.old 9 (items_bytes first_writing (items_of New galley.entry.bytes.now)) out.new result.at) × WritingIs result (writing_after_all first_writing (items_of New galley.entry.bytes.now)) }
{
    let targets = target_table::targets();
    let mut p = Writing::first();
    for item in galley.items() {
        p = p.put_item(out, item, &targets);
    }
    p
}

// Writes the pages of a galley; gives the writing after the last EOP.
pub fn put_pages(galley: LowGalley, out: &mut [u8]) -> Writing
    requires { length (pages_bytes (items_of New galley.bytes.now)) ≤ length out.old }
    ensures { (Wrote out.old 0 (pages_bytes (items_of New galley.entry.bytes.now)) out.new result.at) × (result.bop ≡ (writing_after_all first_writing (items_of New galley.entry.bytes.now)).bop) }
{
    bop::put_bop(out, 0, 1, -1);
    let mut p = put_items(galley, out);
    p.at = number::put_byte(out, p.at, opcode::EOP);
    p
}
