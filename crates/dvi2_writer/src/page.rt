// The preamble and the pages: bop, the commands of characters, eop.
ghost use Rattle.std.specs.Prelude.{◌≡◌, true, ◌+◌, ◌<◌};
ghost use Rattle.measure.specs.Place.{height_end};
ghost use Rattle.galley_file.specs.declared.item.Item.TheVariants.{Placed, Cut};
ghost use Rattle.galley_file.specs.Character.{valid};
ghost use Rattle.galley_file.specs.Item.{valid_item};
ghost use Rattle.galley_file.specs.declared.form.Form.TheVariants.{New};
ghost use Rattle.galley_file.specs.Galley.{items_of};
ghost use Rattle.dvi2.specs.Writer.{first_writing, items_bytes, pages_bytes};
ghost use Rattle.octets.specs.PutIfRoom.{PutIfRoom};
ghost use Rattle.dvi2_writer.specs.Writing.{Tallied, WritingIs, Ready, PutsItem};

use crate::writing::Writing;
use dvi2::opcode;
use dvi2_commands::position::Position;
use dvi2_commands::put;
use extents::fonts;
use galley_check::galley::CheckedGalley;
use galley_file::character::Character;
use galley_file::item::Item;

impl Writing {
    // Writes the commands of c.
    fn put_character(self, out: &mut [u8], c: Character) -> Self
        requires { Ready self × (valid height_end c ≡ true) }
        ensures { PutsItem out.old self (Placed c) out.new result }
    {
        let known = fonts::has_font(self.extents.fonts, c.font);
        let at = self.position.put_commands(out, self.at, known, c);
        self.after_character(c, at)
    }

    // Writes a cut: ends the page, and starts the next.
    fn put_cut(self, out: &mut [u8]) -> Self
        requires { Ready self }
        ensures { PutsItem out.old self Cut out.new result }
    {
        let bop = put::put_bytes(out, self.at, &[opcode::EOP]);
        let page = self.page + 1;
        let at = dvi2_frame::put_bop(out, bop, page, self.bop as i32);
        Writing {
            position: Position::start(),
            page,
            bop: bop as u32,
            at,
            ..self
        }
    }

    // Writes an item.
    fn put_item(self, out: &mut [u8], i: Item) -> Self
        requires { Ready self × (valid_item height_end i ≡ true) }
        ensures { PutsItem out.old self i out.new result }
    {
        match i {
            Item::Placed(c) => self.put_character(out, c),
            Item::Cut => self.put_cut(out),
        }
    }
}

// Writes the items of a galley after the first bop.
fn put_items(galley: CheckedGalley, out: &mut [u8]) -> Writing
    ensures { (PutIfRoom out.old 60 (items_bytes first_writing (items_of New galley.entry.bytes.now)) out.new result.at) × WritingIs result (items_of New galley.entry.bytes.now) }
{
    let mut p = Writing::first();
    for item in galley.items() {
        p = p.put_item(out, item);
    }
    p
}

// Writes the preamble and the pages of a galley; gives the writing after the last eop.
pub fn put_pages(galley: CheckedGalley, out: &mut [u8]) -> Writing
    ensures { (PutIfRoom out.old 0 (pages_bytes (items_of New galley.entry.bytes.now)) out.new result.at) × Tallied result (items_of New galley.entry.bytes.now) }
{
    let bop = dvi2_frame::put_preamble(out);
    dvi2_frame::put_bop(out, bop, 1, -1);
    let mut p = put_items(galley, out);
    p.at = put::put_bytes(out, p.at, &[opcode::EOP]);
    p
}
