// The writer of DVI files of identification 2 (document 02, "The second edition of DVI"). One function writes the file and counts it: what has no room in the buffer is
// only counted, so that a first pass, over a buffer of none of it, gives the length.
#![tactic(auto)]

mod page;
mod postamble;
mod writing;

ghost use Rattle.std.specs.Prelude.{◌≡◌};
ghost use Rattle.octets.specs.Answer.{outcome_of, Gives};
ghost use Rattle.galley_file.specs.declared.form.Form.TheVariants.{New};
ghost use Rattle.galley_file.specs.Galley.{items_of};
ghost use Rattle.dvi2.specs.Writer.{dvi2_file};
ghost use Rattle.octets.specs.PutIfRoom.{PutIfRoom};
ghost use Rattle.dvi2.specs.Result.{dvi2_result};

use galley_check::galley::CheckedGalley;
use octets::refusal::{Answer, Reason};

// Writes the file of a galley as far as there is room; gives its length.
fn put_file(galley: CheckedGalley, out: &mut [u8]) -> usize
    ensures { PutIfRoom out.old 0 (dvi2_file (items_of New galley.entry.bytes.now)) out.new result }
{
    let p = page::put_pages(galley, out);
    let to = postamble::put_postamble(out, p);
    postamble::put_fillers(out, to)
}

// Writes the DVI file of a galley into the lent buffer.
pub fn write_dvi2(galley: &[u8], dvi: &mut [u8]) -> Answer
    ensures { Gives (outcome_of result) (dvi2_result galley.now) dvi.old dvi.new }
{
    let galley = CheckedGalley::of(galley)?;
    let mut scrap = [0u8; 1];
    let needed = put_file(galley, &mut scrap);
    if dvi.len() < needed {
        return Err(Reason::NoDviRoom.at(needed));
    }
    put_file(galley, dvi);
    Ok(needed)
}
