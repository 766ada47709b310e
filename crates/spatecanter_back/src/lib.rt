// A DVI file made into its galley, for C callers. What it shares with the reader of DVI files would no longer be melted into that
// reader's loop if both were exported by one crate, so it is exported by a crate of its own.
#![tactic(auto)]

ghost use Rattle.octets.specs.Answer.{GivesNumbers};
ghost use Rattle.dvi_galley.specs.Back.{back_result};

use octets::refusal;

// Makes the galley whose targets a DVI file shows.
#[unsafe(no_mangle)]
pub extern "C" fn sp_dvi_to_galley(
    dvi: &[u8],
    widths: &[i32],
    galley: &mut [u8],
    answer: &mut [usize; 3],
)
    ensures { GivesNumbers answer.new (back_result dvi.now widths.now) galley.old galley.new }
{
    *answer = refusal::numbers(dvi_back::dvi_to_galley(dvi, widths, galley));
}
