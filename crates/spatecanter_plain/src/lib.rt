// The plain reader of DVI files, for C callers. What it shares with the quick one would no longer be melted into that reader's loop if
// both were exported by one crate, so it is exported by a crate of its own.
#![tactic(auto)]

ghost use Rattle.octets.specs.Answer.{GivesNumbers};
ghost use Rattle.dvi.specs.Sheet.{sheet_result};

use octets::refusal;

// Reads a DVI file into a sheet, PUSH and POP as brackets.
#[unsafe(no_mangle)]
pub extern "C" fn sp_read_dvi_plain(
    dvi: &[u8],
    widths: &[i32],
    sheet: &mut [u8],
    answer: &mut [usize; 3],
)
    ensures { GivesNumbers answer.new (sheet_result dvi.now widths.now) sheet.old sheet.new }
{
    *answer = refusal::numbers(dvi_plain::read_dvi_plain(dvi, widths, sheet));
}
