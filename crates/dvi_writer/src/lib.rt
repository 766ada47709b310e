// The writer of DVI files (document 01, "DVI (002)"): a galley's characters become pages, one more than there are cuts, and a postamble.
#![tactic(auto)]

mod page;
mod plan;
mod writing;

ghost use Rattle.std.specs.Prelude.{◌≡◌, ◌≤◌, length};
ghost use Rattle.std.proofs.lemmas.List.Edits.{sets};
ghost use Rattle.octets.specs.Answer.{outcome_of, Gives};
ghost use Rattle.galley_file.specs.declared.form.Form.TheVariants.{New};
ghost use Rattle.galley_file.specs.Item.{characters_of};
ghost use Rattle.galley_file.specs.Galley.{items_of};
ghost use Rattle.extents.specs.Extents.{extents_of};
ghost use Rattle.dvi.specs.Writer.{dvi_file};
ghost use Rattle.dvi_writer.specs.Result.{dvi_result};

use dvi_frame::postamble;
use extents::{Extents, fonts};
use galley_check::galley::LowGalley;
use octets::refusal::{Answer, Reason};
use plan::Plan;

// The bytes of a file without items and without definitions.
const FRAME: usize = page::FRAME + postamble::FRAME;

// Writes the file of a galley, for which there is room: the pages and the postamble.
fn put_file(galley: LowGalley, e: Extents, out: &mut [u8])
    requires { (e ≡ extents_of (characters_of (items_of New galley.bytes.now))) × (length (dvi_file (items_of New galley.bytes.now)) ≤ length out.old) }
    ensures { out.new ≡ sets out.old 0 (dvi_file (items_of New galley.entry.bytes.now)) }
{
    let p = page::put_pages(galley, out);
    postamble::put_postamble(out, p.at, p.bop, e);
}

// Writes the file of a galley, if there is room.
fn write_low(galley: LowGalley, out: &mut [u8]) -> Answer
    ensures { Gives (outcome_of result) (dvi_result galley.entry.bytes.now) out.old out.new }
{
    let p = Plan::of(galley);
    let needed = FRAME + p.length + postamble::DEFINITION * fonts::count(p.extents.fonts);
    if out.len() < needed {
        return Err(Reason::NoDviRoom.at(needed));
    }
    put_file(galley, p.extents, out);
    Ok(needed)
}

// Writes the DVI file of a galley into the lent buffer.
pub fn write_dvi(galley: &[u8], dvi: &mut [u8]) -> Answer
    ensures { Gives (outcome_of result) (dvi_result galley.now) dvi.old dvi.new }
{
    write_low(LowGalley::of(galley)?, dvi)
}
