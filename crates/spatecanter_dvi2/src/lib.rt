// The second edition of DVI for C and Rust callers.
#![tactic(auto)]

ghost use Rattle.octets.specs.Answer.{GivesNumbers};
ghost use Rattle.dvi2.specs.Result.{dvi2_result};
ghost use Rattle.dvi2_reading.specs.Reading.{read2_result};

use octets::refusal;

// Writes a galley's DVI file of identification 2.
#[unsafe(no_mangle)]
pub extern "C" fn sp_write_dvi2(galley: &[u8], dvi: &mut [u8], answer: &mut [usize; 3])
    ensures { GivesNumbers answer.new (dvi2_result galley.now) dvi.old dvi.new }
{
    *answer = refusal::numbers(dvi2_writer::write_dvi2(galley, dvi));
}

// Reads such a file back into its galley.
#[unsafe(no_mangle)]
pub extern "C" fn sp_read_dvi2(dvi: &[u8], galley: &mut [u8], answer: &mut [usize; 3])
    ensures { GivesNumbers answer.new (read2_result dvi.now) galley.old galley.new }
{
    *answer = refusal::numbers(dvi2_reader::read_dvi2(dvi, galley));
}
